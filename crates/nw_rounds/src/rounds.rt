//! The first and the certified digests of slots, in one ordered map.
ghost use Rattle.std.specs.Prelude.{◌≡◌, ◌+◌, ◌<◌, ◌≤◌, ◌^◌, Contains};
ghost use Rattle.std.specs.Prelude.{All, IfOk, OnOk, OnErr, IsNone, nat_le, length};
ghost use Rattle.std.specs.Bool.{MatchBool};
ghost use Rattle.std.specs.List.Sorted.{IsStrictlySortedBy};
ghost use Rattle.std.specs.Map.{keys_of};
ghost use Rattle.std.specs.BTreeMap.{keys, values};
ghost use Rattle.std.specs.FinMap as map;
ghost use Rattle.nw_rounds.specs.Slots.{AreAuthorsAt, AreDigestsBetween, HasAllDigests, IsNewest, no_digests};
ghost use Rattle.nw_rounds.specs.Places.{ArePlacesBetween, BeginsBelow, place_cmp, tables_of, with_author};

use crate::kind::DigestKind;
use nw_digest::{Digest, NoMemory, Round};
use std::alloc::{Allocator, Global};
use std::collections::BTreeMap;
use std::collections::btree_map::Range;
use std::marker::Model;

// A round number and an author. The number is a `u64` because ranges end at the round after the last one, which no `Round` has.
type Slot = (u64, u16);

/// A slot, given by its round and author, and a kind of digest.
pub type Place = (Slot, DigestKind);

/// The first digest and the certified digest of each slot. All memory comes from one allocator.
///
/// Contracts see two finite maps.
#[derive(Drop)]
pub struct Rounds<A: Allocator> {
    digests: BTreeMap<Place, Digest, A>,
}

impl<A: Allocator> Model for Rounds<A> {
    ghost use Rattle.nw_rounds.specs.Slots.{Tables, coded_tables};

    ghost Value = { Tables };

    ghost coded = { coded_tables };

    ghost use Rattle.nw_rounds.specs.Places.{AreRounds, tables_of};

    ghost view = { λ r. tables_of r.digests.entries };

    ghost invariant = { λ r. AreRounds r.digests.entries };
}

impl<A: Allocator> Rounds<A> {
    /// Slots without digests. Allocates nothing.
    pub fn new_in(alloc: A) -> Rounds<A>
        ensures { result ≡ no_digests }
    {
        Rounds {
            digests: BTreeMap::new(alloc),
        }
    }

    /// The first digest of this round and author, or `None` if there is none.
    pub fn first(&self, round: Round, author: u16) -> Option<Digest>
        ensures { result ≡ map.get self.now.firsts (round, author) }
    {
        self.digests
            .get(&((round.get(), author), DigestKind::First))
            .copied()
    }

    /// The digest that is certified for this round and author, or `None` if there is none.
    pub fn certified(&self, round: Round, author: u16) -> Option<Digest>
        ensures { result ≡ map.get self.now.certified (round, author) }
    {
        self.digests
            .get(&((round.get(), author), DigestKind::Certified))
            .copied()
    }

    /// Makes this the first digest of the round and author, which must not have one yet.
    ///
    /// `NoMemory`: an allocation failed. Nothing changed.
    pub fn put_first(&mut self, round: Round, author: u16, digest: Digest) -> Result<(), NoMemory>
    where
        A: Clone,
        requires { IsNone (map.get self.old.firsts (round, author)) }
        ensures firsts { OnOk result
            (self.new.firsts ≡ map.insert self.old.firsts (round, author) digest) }
        ensures certified { self.new.certified ≡ self.old.certified }
        ensures unchanged { OnErr result (self.new ≡ self.old) }
    {
        self.digests
            .insert(((round.get(), author), DigestKind::First), digest)?;
        Ok(())
    }

    /// Makes this the certified digest of the round and author, which must not have one yet.
    ///
    /// `NoMemory`: an allocation failed. Nothing changed.
    pub fn put_certified(
        &mut self,
        round: Round,
        author: u16,
        digest: Digest,
    ) -> Result<(), NoMemory>
    where
        A: Clone,
        requires { IsNone (map.get self.old.certified (round, author)) }
        ensures certified { OnOk result
            (self.new.certified ≡ map.insert self.old.certified (round, author) digest) }
        ensures firsts { self.new.firsts ≡ self.old.firsts }
        ensures unchanged { OnErr result (self.new ≡ self.old) }
    {
        self.digests
            .insert(((round.get(), author), DigestKind::Certified), digest)?;
        Ok(())
    }

    /// The newest round with a first or a certified digest, or `floor` if none is newer. Allocates nothing.
    pub fn newest(&self, floor: Round) -> Round
        ensures { IsNewest self.now floor result }
    {
        let Some(((slot, _kind), _digest)) = self.digests.last_key_value() else {
            return floor;
        };
        if slot.0 <= floor.get() {
            return floor;
        }
        Round::new(slot.0).unwrap_or(floor)
    }

    /// The authors with a first or a certified digest in the round, ascending. `NoMemory` if an allocation fails.
    pub fn authors(&self, alloc: Global, round: Round) -> Result<Vec<u16>, NoMemory>
        ensures { IfOk result (λ list. AreAuthorsAt self.now round list.items) }
    {
        authors_at(alloc, &self.digests, round.get())
    }

    /// All digests of this round and of lower ones, ascending and each once. `NoMemory` if an allocation fails. The cost
    /// grows with the number of these digests. The digests of higher rounds add only one logarithmic search.
    pub fn digests_up_to(&self, alloc: Global, round: Round) -> Result<Vec<Digest>, NoMemory>
        ensures { IfOk result (λ list. AreDigestsBetween self.now 0 (round + 1) list.items) }
    {
        digests_between(alloc, &self.digests, 0, round.get() + 1)
    }

    /// The digests of all slots, first and certified. One that is both in a slot is listed once. `NoMemory` if an allocation fails.
    pub fn all_digests(&self, alloc: Global) -> Result<Vec<Digest>, NoMemory>
        ensures { IfOk result (λ list. HasAllDigests self.now list.items) }
    {
        listed(alloc, &self.digests)
    }

    /// The digests of all lower rounds, with their places, in the order of the places. Allocates nothing.
    pub fn places_below(&self, round: Round) -> Range<'_, Place, Digest>
        ensures places { ArePlacesBetween self.now 0 round result }
        ensures fits { length result < 2 ^ 63 }
    {
        places_between(&self.digests, 0, round.get())
    }

    /// Drops the digests of all lower rounds. Allocates nothing. The cost grows with the number of dropped digests.
    pub fn drop_below(&mut self, round: Round)
        ensures firsts { self.new.firsts
            ≡ map.retain_keys self.old.firsts (λ slot. nat_le round slot.0) }
        ensures certified { self.new.certified
            ≡ map.retain_keys self.old.certified (λ slot. nat_le round slot.0) }
    {
        let round = round.get();
        while begins_below(&self.digests, round) {
            let _ = self.digests.pop_first();
        }
    }
}

/// The digests, in the order of their places, without repetitions in a row. `NoMemory` if an allocation fails.
fn listed<A: Allocator>(
    alloc: Global,
    digests: &BTreeMap<Place, Digest, A>,
) -> Result<Vec<Digest>, NoMemory>
    ensures { IfOk result
        (λ list. (d : Digest) → Contains (values digests.now) d → Contains list.items d) }
{
    let mut list: Vec<Digest> = digests.values().copied().collect(alloc)?;
    list.dedup();
    Ok(list)
}

/// The authors with a digest in the round. `NoMemory` if an allocation fails.
fn authors_at<A: Allocator>(
    alloc: Global,
    digests: &BTreeMap<Place, Digest, A>,
    round: u64,
) -> Result<Vec<u16>, NoMemory>
    requires { round < 2 ^ 48 }
    ensures { IfOk result (λ found. AreAuthorsAt (tables_of digests.now.entries) round found.items) }
{
    let mut found = Vec::new(alloc);
    for (place, _digest) in places_between(digests, round, round + 1) {
        add_author(&mut found, place.0.1)?;
    }
    Ok(found)
}

/// Adds the author at the end of the list, unless it is the last one already. `NoMemory` if an allocation fails.
fn add_author(authors: &mut Vec<u16>, author: u16) -> Result<(), NoMemory>
    ensures { OnOk result (authors.new.items ≡ with_author authors.old.items author) }
{
    match authors.last() {
        Some(last) if author == *last => Ok(()),
        _ => Ok(authors.push(author)?),
    }
}

/// All digests of the rounds `from..to`, ascending and each once. `NoMemory` if an allocation fails.
fn digests_between<A: Allocator>(
    alloc: Global,
    digests: &BTreeMap<Place, Digest, A>,
    from: u64,
    to: u64,
) -> Result<Vec<Digest>, NoMemory>
    requires { from ≤ to }
    ensures { IfOk result
        (λ found. AreDigestsBetween (tables_of digests.now.entries) from to found.items) }
{
    let mut found = Vec::new(alloc);
    for (_place, digest) in places_between(digests, from, to) {
        found.push(*digest)?;
    }
    found.sort_unstable();
    found.dedup();
    Ok(found)
}

/// All digests of the rounds `from..to`, with their places.
fn places_between<A: Allocator>(
    digests: &BTreeMap<Place, Digest, A>,
    from: u64,
    to: u64,
) -> Range<'_, Place, Digest>
    requires { from ≤ to }
    ensures places { ArePlacesBetween (tables_of digests.now.entries) from to result }
    ensures ascending { IsStrictlySortedBy place_cmp (keys_of result) }
    ensures fits { length result < 2 ^ 63 }
{
    digests.range(((from, 0), DigestKind::First)..((to, 0), DigestKind::First))
}

/// Whether the first place belongs to a lower round. If not, no place does.
fn begins_below<A: Allocator>(digests: &BTreeMap<Place, Digest, A>, round: u64) -> bool
    ensures { MatchBool result (BeginsBelow round digests.now.entries)
        (All (λ place. round ≤ place.0.0) (keys digests.now)) }
{
    match digests.first_key_value() {
        None => false,
        Some(((slot, _kind), _digest)) => slot.0 < round,
    }
}
