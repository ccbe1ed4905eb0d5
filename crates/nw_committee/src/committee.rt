//! Committees.
ghost use Rattle.std.specs.Prelude.{◌≡◌, ◌↔◌, ◌<◌, ◌^◌};
ghost use Rattle.std.specs.Prelude.{length, map, slice_get, vec_len, All, IsTrue, IfOk, OnOk, IsErrOf};
ghost use Rattle.std.specs.Option.{option_copied, option_map};
ghost use Rattle.std.specs.List.Sorted.{IsStrictlyIncreasing};
ghost use Rattle.nw_committee.specs.Committee.{AreDistinct, IsCommittee, IsSize, IsEqualSize};
ghost use Rattle.nw_committee.specs.Committee.{IsWeight, ReachesQuorum, keys, equal_members};
ghost use Rattle.nw_committee.specs.Committee.{listed_weight, total, quorum};

use crate::distinct::are_distinct;
use crate::{CommitteeFault, Key, Member, Numbered};
use std::alloc::{AllocError, Global};
use std::marker::Model;

/// The largest number of members.
pub const MAX_MEMBERS: usize = 100;
/// The largest weight of a member.
const MAX_WEIGHT: u32 = 1_000_000;

/// A committee: 1 to 100 members with distinct keys, numbered from 0. Contracts see the list of the members.
#[derive(Debug, Drop)]
pub struct Committee {
    members: Vec<Member>,
    total_weight: u32,
}

impl Model for Committee {
    ghost use Rattle.std.specs.Prelude.{◌≡◌, List};
    ghost use Rattle.nw_committee.specs.declared.member.Member.{Member};
    ghost use Rattle.nw_committee.specs.Committee.{IsCommittee, total};

    ghost Value = { List Member };

    ghost view = { λ c. c.members.items };

    ghost invariant = { λ c. IsCommittee c.members.items
        × (c.total_weight ≡ total c.members.items) };
}

impl Committee {
    /// The committee of members with these keys, each of weight 1. Member i has the key at index i.
    ///
    /// Errors, in the order in which they are tested:
    ///
    /// - `BadSize` if the number of keys is not one of 1, 4, 7, .., 100;
    /// - `RepeatedKey` if two keys are the same;
    /// - `NoMemory` if an allocation fails.
    pub fn new(alloc: Global, keys: Vec<Key>) -> Result<Committee, CommitteeFault>
        ensures members { IfOk result (λ committee. committee ≡ equal_members keys.items) }
        ensures taken { OnOk result (IsEqualSize (vec_len keys) × AreDistinct keys.items) }
        ensures bad_size { IsErrOf result CommitteeFault.BadSize
            ↔ (IsEqualSize (vec_len keys) → ⊥) }
        ensures repeated_key { IsErrOf result CommitteeFault.RepeatedKey
            ↔ (IsEqualSize (vec_len keys) × (AreDistinct keys.items → ⊥)) }
        ensures no_memory { IsErrOf result CommitteeFault.NoMemory
            → IsEqualSize (vec_len keys) × AreDistinct keys.items }
        ensures no_weight { IsErrOf result CommitteeFault.BadWeight → ⊥ }
    {
        if !is_equal_size(keys.len()) {
            return Err(CommitteeFault::BadSize);
        }
        if !are_distinct(&keys) {
            return Err(CommitteeFault::RepeatedKey);
        }
        Ok(Committee::of(equal_members(alloc, &keys)?))
    }

    /// The committee of these members, in this order. Allocates nothing.
    ///
    /// Errors, in the order in which they are tested:
    ///
    /// - `BadSize` if the number of members is not from 1 to 100;
    /// - `RepeatedKey` if two members have the same key;
    /// - `BadWeight` if a weight is not from 1 to 1,000,000.
    pub fn weighted(members: Vec<Member>) -> Result<Committee, CommitteeFault>
        ensures members { IfOk result (λ committee. committee ≡ members.items) }
        ensures taken { OnOk result (IsCommittee members.items) }
        ensures bad_size { IsErrOf result CommitteeFault.BadSize ↔ (IsSize (vec_len members) → ⊥) }
        ensures repeated_key { IsErrOf result CommitteeFault.RepeatedKey
            ↔ (IsSize (vec_len members) × (AreDistinct (keys members.items) → ⊥)) }
        ensures bad_weight { IsErrOf result CommitteeFault.BadWeight ↔ (IsSize (vec_len members)
            × AreDistinct (keys members.items) × (All (λ m. IsWeight m.weight) members.items → ⊥)) }
        ensures no_memory { IsErrOf result CommitteeFault.NoMemory → ⊥ }
    {
        if members.is_empty() || members.len() > MAX_MEMBERS {
            return Err(CommitteeFault::BadSize);
        }
        if !are_distinct(&members) {
            return Err(CommitteeFault::RepeatedKey);
        }
        if !have_weights(&members) {
            return Err(CommitteeFault::BadWeight);
        }
        Ok(Committee::of(members))
    }

    /// The committee of these members, which must be valid.
    fn of(members: Vec<Member>) -> Committee
        requires { IsCommittee members.items }
        ensures { result ≡ members.items }
    {
        let total_weight = total_weight(&members);
        Committee {
            members,
            total_weight,
        }
    }

    /// The number of members, 1 to 100.
    pub fn size(&self) -> usize
        ensures size { result ≡ length self.now }
        ensures committee { IsCommittee self.now }
    {
        self.members.len()
    }

    /// The sum of the members' weights.
    pub fn total(&self) -> u32
        ensures total { result ≡ total self.now }
        ensures committee { IsCommittee self.now }
    {
        self.total_weight
    }

    /// The quorum: two thirds of the total weight, rounded down, plus one. For 3f + 1 members of weight 1 it is 2f + 1.
    pub fn quorum(&self) -> u32
        ensures quorum { result ≡ quorum self.now }
        ensures committee { IsCommittee self.now }
    {
        2 * self.total_weight / 3 + 1
    }

    /// The key of the member with this number, or `None` if there is no such member.
    pub fn key(&self, author: u16) -> Option<&Key>
        ensures key { option_copied result ≡ option_map (λ m. m.key) (slice_get self.now author) }
        ensures committee { IsCommittee self.now }
    {
        self.members
            .get(usize::from(author))
            .map(|member| &member.key)
    }

    /// The weight of the member with this number, or `None` if there is no such member.
    pub fn weight(&self, author: u16) -> Option<u32>
        ensures weight { result ≡ option_map (λ m. m.weight) (slice_get self.now author) }
        ensures committee { IsCommittee self.now }
    {
        self.members
            .get(usize::from(author))
            .map(|member| member.weight)
    }

    /// Whether the listed members reach the quorum. Their numbers must ascend strictly. A number that no member has adds no weight.
    /// Allocates nothing.
    pub fn reaches_quorum<T: Numbered>(&self, listed: &[T]) -> bool
        requires { IsStrictlyIncreasing (map T.number_of listed.now) }
        ensures reached { IsTrue result ↔ ReachesQuorum self.now (map T.number_of listed.now) }
        ensures committee { IsCommittee self.now }
    {
        self.listed_weight(listed) >= self.quorum()
    }

    /// The sum of the listed members' weights. Their numbers must ascend strictly. A number that no member has adds no weight.
    fn listed_weight<T: Numbered>(&self, listed: &[T]) -> u32
        requires { IsStrictlyIncreasing (map T.number_of listed.now) }
        ensures { result ≡ listed_weight self.now (map T.number_of listed.now) }
    {
        let mut weight = 0;
        for one in listed {
            weight += self.weight(one.number()).unwrap_or(0);
        }
        weight
    }
}

/// Whether the size is 3f + 1 for some f, and at most 100.
fn is_equal_size(size: usize) -> bool
    ensures { IsTrue result ↔ IsEqualSize size }
{
    size % 3 == 1 && size <= MAX_MEMBERS
}

/// The members with these keys, each of weight 1.
fn equal_members(alloc: Global, keys: &[Key]) -> Result<Vec<Member>, AllocError>
    ensures { IfOk result (λ members. members.items ≡ equal_members keys.now) }
{
    keys.iter()
        .map(|key| Member {
            key: *key,
            weight: 1,
        })
        .collect(alloc)
}

/// The sum of the members' weights.
fn total_weight(members: &[Member]) -> u32
    requires { total members.now < 2 ^ 32 }
    ensures { result ≡ total members.now }
{
    members.iter().map(|member| member.weight).sum()
}

/// Whether each weight is from 1 to 1,000,000.
fn have_weights(members: &[Member]) -> bool
    ensures { IsTrue result ↔ All (λ m. IsWeight m.weight) members.now }
{
    members
        .iter()
        .all(|member| member.weight >= 1 && member.weight <= MAX_WEIGHT)
}

impl PartialEq for Committee {
    ghost use Rattle.std.specs.Prelude.{◌≡◌, ◌↔◌, IsTrue};
    ghost use Rattle.nw_committee.specs.Same.{same_members, same_members-per};

    ghost eq = { same_members };

    ghost laws = { same_members-per };

    /// Whether both committees have the same keys and weights, member by member.
    fn eq(&self, other: &Committee) -> bool
        ensures eq { result ≡ same_members self.now other.now }
        ensures same { IsTrue result ↔ (self.now ≡ other.now) }
    {
        self.members.as_slice() == other.members.as_slice()
    }
}

impl Eq for Committee {
    ghost use Rattle.nw_committee.specs.Same.{same_members-equiv};

    ghost laws = { same_members-equiv };
}
