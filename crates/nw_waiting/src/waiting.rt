//! The table of wanted parents.
ghost use Rattle.std.specs.Prelude.{◌≡◌, ◌↔◌, IfOk, IsTrue, OnOk, OnErr, take};
ghost use Rattle.std.specs.BTreeMap.{keys};
ghost use Rattle.std.specs.FinSet as set;
ghost use Rattle.nw_digest.specs.declared.digest.Digest.{Digest};
ghost use Rattle.nw_model.specs.Missing.{ListsExactly, wanted_cmp};
ghost use Rattle.nw_waiting.specs.Pairs.{AreFirst, AreHolders, AreMissing, Lacks, LacksCount, WantedCount};
ghost use Rattle.nw_waiting.specs.Pairs.{without_holder, without_wanted};

use crate::lists::{add, make_room, remove_from_each};
use nw_digest::{Digest, NoMemory};
use nw_model::Wanted;
use std::alloc::{AllocError, Allocator, Global};
use std::collections::BTreeMap;
use std::marker::Model;

/// Wanted parents, and the holders (digests of blocks) that are missing them. All memory comes from one allocator.
/// Contracts see the set of these pairs.
#[derive(Drop)]
pub struct Waiting<A: Allocator> {
    alloc: A,
    /// For each wanted parent, the holders that are missing it.
    holders: BTreeMap<Wanted, Vec<Digest, A>, A>,
    /// For each holder, its missing parents, ascending. A failed allocation may leave an empty list.
    missing: BTreeMap<Digest, Vec<Wanted, A>, A>,
}

impl<A: Allocator> Model for Waiting<A> {
    ghost use Rattle.std.specs.FinSet as set;
    ghost use Rattle.nw_waiting.specs.Pairs.{Pairs, coded_pair};

    ghost Value = { Pairs };

    ghost coded = { set.code coded_pair };

    ghost use Rattle.nw_waiting.specs.Index.{HaveSamePairs, pairs_in};

    ghost view = { λ w. set.from_list (pairs_in (λ v. v.items) w.holders.entries) };

    ghost invariant = { λ w.
        HaveSamePairs (λ v. v.items) (λ v. v.items) w.holders.entries w.missing.entries };
}

impl<A: Allocator + Copy> Waiting<A> {
    /// The empty table. Allocates nothing.
    pub fn new_in(alloc: A) -> Waiting<A>
        ensures { result ≡ set.empty }
    {
        Waiting {
            alloc,
            holders: BTreeMap::new(alloc),
            missing: BTreeMap::new(alloc),
        }
    }

    /// Records that the holder is missing this parent. If that is recorded already or an allocation fails, nothing changes.
    pub fn want(&mut self, wanted: Wanted, holder: Digest) -> Result<(), NoMemory>
        ensures added { OnOk result (self.new ≡ set.insert self.old (wanted, holder)) }
        ensures unchanged { OnErr result (self.new ≡ self.old) }
    {
        let missing = self.missing.entry(holder)?.or_insert(Vec::new(self.alloc));
        let Err(place) = missing.binary_search(&wanted) else {
            return Ok(());
        };
        make_room(missing)?;
        add(&mut self.holders, self.alloc, wanted, holder)?;
        let _inserted = missing.insert(place, wanted);
        Ok(())
    }

    /// Removes the parent from the table, and returns the holders that were missing it, each once. Allocates nothing.
    pub fn satisfy(&mut self, wanted: &Wanted) -> Vec<Digest, A>
        ensures holders { AreHolders self.old wanted.now result.items }
        ensures rest { self.new ≡ without_wanted self.old wanted.now }
    {
        let Some(holders) = self.holders.remove(wanted) else {
            return Vec::new(self.alloc);
        };
        remove_from_each(&mut self.missing, &holders, wanted);
        holders
    }

    /// Removes all missing parents of the holder, and returns them, each once. Allocates nothing.
    pub fn unwant(&mut self, holder: Digest) -> Vec<Wanted, A>
        ensures missing { AreMissing self.old holder result.items }
        ensures rest { self.new ≡ without_holder self.old holder }
    {
        let Some(missing) = self.missing.remove(&holder) else {
            return Vec::new(self.alloc);
        };
        remove_from_each(&mut self.holders, &missing, &holder);
        missing
    }

    /// Whether any holder is missing the parent. Allocates nothing.
    pub fn is_wanted(&self, wanted: &Wanted) -> bool
        ensures { IsTrue result ↔ ((holder : Digest) × Lacks self.now holder wanted.now) }
    {
        self.holders.contains_key(wanted)
    }

    /// The holder's missing parents, ascending. Allocates nothing.
    pub fn missing_of(&self, holder: Digest) -> &[Wanted]
        ensures { ListsExactly wanted_cmp (Lacks self.now holder) result.now }
    {
        match self.missing.get(&holder) {
            None => &[],
            Some(missing) => missing.as_slice(),
        }
    }

    /// The number of the holder's missing parents. Allocates nothing.
    pub fn lacks(&self, holder: Digest) -> usize
        ensures { LacksCount self.now holder result }
    {
        self.missing_of(holder).len()
    }

    /// The number of different wanted parents. Allocates nothing.
    pub fn count(&self) -> usize
        ensures { WantedCount self.now result }
    {
        self.holders.len()
    }

    /// The first `most` wanted parents, ascending, or all if there are fewer. `NoMemory` if an allocation fails.
    pub fn first_wanted(&self, alloc: Global, most: u16) -> Result<Vec<Wanted>, NoMemory>
        ensures { IfOk result (λ list. AreFirst self.now most list.items) }
    {
        Ok(first_keys(alloc, &self.holders, usize::from(most))?)
    }
}

/// The first `most` keys, or all if there are fewer.
fn first_keys<A: Allocator>(
    alloc: Global,
    holders: &BTreeMap<Wanted, Vec<Digest, A>, A>,
    most: usize,
) -> Result<Vec<Wanted>, AllocError>
    ensures { IfOk result (λ first. first.items ≡ take most (keys holders.now)) }
{
    holders.keys().take(most).copied().collect(alloc)
}
