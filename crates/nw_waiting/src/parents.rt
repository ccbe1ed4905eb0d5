//! The table of missing parents.
ghost use Rattle.std.specs.Prelude.{◌≡◌, IfOk, OnErr, OnOk, if◌then◌else◌, take, true};
ghost use Rattle.std.specs.BTreeSet.{IsOrdered};
ghost use Rattle.std.specs.FinSet as set;
ghost use Rattle.nw_model.specs.Missing.{HasCount, ListsExactly, wanted_cmp};
ghost use Rattle.nw_waiting.specs.Pairs.{AreFirst, AreHolders, Lacks, LacksCount, WantedCount};
ghost use Rattle.nw_waiting.specs.Pairs.{without_holder, without_wanted};
ghost use Rattle.nw_waiting.specs.Parted.{AreSameForOthers, IsMetForAll};

use crate::Waiting;
use nw_digest::{Digest, NoMemory};
use nw_model::Wanted;
use std::alloc::{AllocError, Allocator, Global};
use std::collections::BTreeSet;
use std::marker::Model;

/// Missing parents, and the holders (digests of blocks) that are missing them. Some parents are *unmet*, as the
/// caller says in `add` and `meet`: each for all its holders. Contracts see two sets of pairs: all, and those of unmet parents.
#[derive(Drop)]
pub struct MissingParents<A: Allocator> {
    /// All pairs.
    lacking: Waiting<A>,
    /// The unmet parents. Each has a holder.
    unmet: BTreeSet<Wanted, A>,
}

impl<A: Allocator> Model for MissingParents<A> {
    ghost use Rattle.nw_waiting.specs.Parted.{HaveHolders, Parted, coded_parted, parted};

    ghost Value = { Parted };

    ghost coded = { coded_parted };

    ghost view = { λ m. parted m.lacking m.unmet.keys };

    ghost invariant = { λ m. HaveHolders m.lacking m.unmet.keys };
}

impl<A: Allocator + Copy> MissingParents<A> {
    /// The empty table. Allocates nothing.
    pub fn new_in(alloc: A) -> MissingParents<A>
        ensures unmet { result.unmet ≡ set.empty }
        ensures lacking { result.lacking ≡ set.empty }
    {
        MissingParents {
            lacking: Waiting::new_in(alloc),
            unmet: BTreeSet::new(alloc),
        }
    }

    /// Records that the holder is missing this parent, which is met or not (`is_met`). If other holders are missing it, `is_met` must say
    /// the same for them.
    ///
    /// `NoMemory` if an allocation fails. Then nothing changes.
    pub fn add(&mut self, wanted: Wanted, holder: Digest, is_met: bool) -> Result<(), NoMemory>
        requires { IsMetForAll self.old wanted is_met }
        ensures lacking { OnOk result
            (self.new.lacking ≡ set.insert self.old.lacking (wanted, holder)) }
        ensures unmet { OnOk result (self.new.unmet
            ≡ (if is_met then self.old.unmet else set.insert self.old.unmet (wanted, holder))) }
        ensures others { AreSameForOthers holder self.old self.new }
        ensures unchanged { OnErr result (self.new ≡ self.old) }
    {
        if is_met {
            self.lacking.want(wanted, holder)?;
            return Ok(());
        }
        let is_new = self.unmet.insert(wanted)?;
        if let Err(refused) = self.lacking.want(wanted, holder) {
            if is_new {
                let _was_unmet = self.unmet.remove(&wanted);
            }
            return Err(refused);
        }
        Ok(())
    }

    /// Records that the parent is met now, for all its holders. They are still missing it.
    pub fn meet(&mut self, wanted: &Wanted)
        ensures unmet { self.new.unmet ≡ without_wanted self.old.unmet wanted.now }
        ensures lacking { self.new.lacking ≡ self.old.lacking }
    {
        self.unmet.remove(wanted);
    }

    /// Removes a met parent from the table, and returns the holders that were missing it, each once. Allocates nothing.
    pub fn drop_parent(&mut self, wanted: &Wanted) -> Vec<Digest, A>
        requires { IsMetForAll self.old wanted.now true }
        ensures holders { AreHolders self.old.lacking wanted.now result.items }
        ensures unmet { self.new.unmet ≡ without_wanted self.old.unmet wanted.now }
        ensures lacking { self.new.lacking ≡ without_wanted self.old.lacking wanted.now }
    {
        self.lacking.satisfy(wanted)
    }

    /// Removes all missing parents of the holder, and returns how many it had. Allocates nothing.
    pub fn drop_holder(&mut self, holder: Digest) -> usize
        ensures count { LacksCount self.old.lacking holder result }
        ensures unmet { self.new.unmet ≡ without_holder self.old.unmet holder }
        ensures lacking { self.new.lacking ≡ without_holder self.old.lacking holder }
    {
        let missing = self.lacking.unwant(holder);
        for wanted in missing.as_slice() {
            if !self.lacking.is_wanted(wanted) {
                let _was_unmet = self.unmet.remove(wanted);
            }
        }
        missing.len()
    }

    /// The number of the holder's missing parents. Allocates nothing.
    pub fn lacks(&self, holder: Digest) -> usize
        ensures { LacksCount self.now.lacking holder result }
    {
        self.lacking.lacks(holder)
    }

    /// The number of the holder's unmet parents. Allocates nothing. It looks up each of its missing parents.
    pub fn unmet_count(&self, holder: Digest) -> usize
        ensures { HasCount wanted_cmp (Lacks self.now.unmet holder) result }
    {
        let mut count = 0;
        for wanted in self.lacking.missing_of(holder) {
            if self.unmet.contains(wanted) {
                count += 1;
            }
        }
        count
    }

    /// The holder's unmet parents, ascending. `NoMemory` if an allocation fails.
    pub fn unmet_of(&self, alloc: Global, holder: Digest) -> Result<Vec<Wanted>, NoMemory>
        ensures { IfOk result
            (λ list. ListsExactly wanted_cmp (Lacks self.now.unmet holder) list.items) }
    {
        let mut unmet = Vec::new(alloc);
        for wanted in self.lacking.missing_of(holder) {
            if self.unmet.contains(wanted) {
                unmet.push(*wanted)?;
            }
        }
        Ok(unmet)
    }

    /// The number of different unmet parents. Allocates nothing.
    pub fn count(&self) -> usize
        ensures { WantedCount self.now.unmet result }
    {
        self.unmet.len()
    }

    /// The first `most` unmet parents, ascending, or all if there are fewer. `NoMemory` if an allocation fails.
    pub fn first_unmet(&self, alloc: Global, most: u16) -> Result<Vec<Wanted>, NoMemory>
        ensures { IfOk result (λ list. AreFirst self.now.unmet most list.items) }
    {
        Ok(first_of(alloc, &self.unmet, usize::from(most))?)
    }
}

/// The first `most` keys, or all if there are fewer.
fn first_of<K: Ord + Copy, A: Allocator>(
    alloc: Global,
    keys: &BTreeSet<K, A>,
    most: usize,
) -> Result<Vec<K>, AllocError>
    ensures first { IfOk result (λ first. first.items ≡ take most keys.now.keys) }
    ensures ascending { IsOrdered K.cmp keys.now }
{
    keys.iter().take(most).copied().collect(alloc)
}
