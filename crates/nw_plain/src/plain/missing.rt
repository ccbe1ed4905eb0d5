//! Wanted parents, the missing parents of a block, and the counts of a store.
ghost use Rattle.std.specs.Prelude.{◌≡◌, ◌↔◌, ◌<◌, ◌+◌, IfOk, OnOk, IsTrue, take};
ghost use Rattle.std.specs.List.Sorted.{IsStrictlySortedBy};
ghost use Rattle.nw_model.specs.Paths.{IsSatisfied};
ghost use Rattle.nw_model.specs.Missing.{AreCounts, ListsExactly, AreFirstWanted, AreMissingOf, IsWanted, Wants, wanted_cmp};
ghost use Rattle.nw_plain.specs.Added.{IsUnionWith, NamesMissing};

use super::Plain;
use nw_codec::{Block, Ref};
use nw_digest::{Digest, NoMemory, Round, Sequence};
use nw_model::{Counts, Wanted};
use std::alloc::{AllocError, Global};
use std::collections::BTreeSet;

impl Plain {
    /// The first `most` wanted parents, or all if there are fewer.
    pub(super) fn first_wanted(&self, most: u16) -> Result<Sequence<Wanted>, NoMemory>
        ensures { IfOk result (AreFirstWanted self.now.state most) }
    {
        let wanted = self.wanted()?;
        let first = first_keys(self.alloc, &wanted, usize::from(most))?;
        Ok(Sequence::new(first))
    }

    /// The missing parents of the block that is held under the digest, or `None` if no block is held.
    pub(super) fn missing_of(&self, digest: &Digest) -> Result<Option<Sequence<Wanted>>, NoMemory>
        ensures { IfOk result (AreMissingOf self.now.state digest.now) }
    {
        match self.block(digest) {
            None => Ok(None),
            Some(block) => Ok(Some(Sequence::new(self.wanted_by(block)?))),
        }
    }

    /// The parents that the block wants.
    fn wanted_by(&self, block: &Block) -> Result<Vec<Wanted>, NoMemory>
        ensures { IfOk result
            (λ wanted. ListsExactly wanted_cmp (Wants self.now.state block.now) wanted.items) }
    {
        let mut wanted = BTreeSet::new(self.alloc);
        self.add_wanted(&mut wanted, block)?;
        Ok(wanted.into_iter().collect(self.alloc)?)
    }

    /// The garbage round, and how many blocks, certificates, complete blocks and wanted parents there are.
    pub(super) fn counts(&self) -> Result<Counts, NoMemory>
        ensures { IfOk result (AreCounts self.now.state) }
    {
        Ok(Counts {
            floor: self.floor,
            blocks: self.block_count() as u64,
            certificates: self.certificate_count() as u64,
            complete: self.complete_blocks()?.len() as u64,
            wanted: self.wanted()?.len() as u64,
        })
    }

    /// The wanted parents.
    fn wanted(&self) -> Result<BTreeSet<Wanted>, NoMemory>
        ensures { IfOk result
            (λ wanted. ListsExactly wanted_cmp (IsWanted self.now.state) wanted.keys) }
    {
        let mut wanted = BTreeSet::new(self.alloc);
        for (_digest, block) in self.blocks.iter() {
            self.add_wanted(&mut wanted, block.get())?;
        }
        Ok(wanted)
    }

    /// Adds the parents that the block wants.
    fn add_wanted(&self, wanted: &mut BTreeSet<Wanted>, block: &Block) -> Result<(), NoMemory>
        ensures added { OnOk result
            (IsUnionWith (Wants self.now.state block.now) wanted.old.keys wanted.new.keys) }
        ensures ordered { IsStrictlySortedBy wanted_cmp wanted.old.keys
            → IsStrictlySortedBy wanted_cmp wanted.new.keys }
    {
        match block.round.before() {
            Some(before) if block.round > self.floor => {
                self.add_unsatisfied(wanted, before, block)
            }
            _ => Ok(()),
        }
    }

    /// Adds the parents that the block's unsatisfied references name. `before` is the round before the block's.
    fn add_unsatisfied(
        &self,
        wanted: &mut BTreeSet<Wanted>,
        before: Round,
        block: &Block,
    ) -> Result<(), NoMemory>
        requires before { before + 1 ≡ block.now.round }
        requires above { self.now.state.floor < block.now.round }
        ensures added { OnOk result
            (IsUnionWith (Wants self.now.state block.now) wanted.old.keys wanted.new.keys) }
        ensures ordered { IsStrictlySortedBy wanted_cmp wanted.old.keys
            → IsStrictlySortedBy wanted_cmp wanted.new.keys }
    {
        for reference in block.parents.as_slice() {
            self.add_if_unsatisfied(wanted, before, block.round, reference)?;
        }
        Ok(())
    }

    /// Adds the parent that the reference of a block of this round names, if the reference is not satisfied. `before` is the preceding
    /// round.
    fn add_if_unsatisfied(
        &self,
        wanted: &mut BTreeSet<Wanted>,
        before: Round,
        round: Round,
        reference: &Ref,
    ) -> Result<(), NoMemory>
        requires { before + 1 ≡ round }
        ensures added { OnOk result
            (IsUnionWith (NamesMissing self.now.state round reference.now)
            wanted.old.keys wanted.new.keys) }
        ensures ordered { IsStrictlySortedBy wanted_cmp wanted.old.keys
            → IsStrictlySortedBy wanted_cmp wanted.new.keys }
    {
        if !self.is_satisfied(round, reference) {
            wanted.insert(Wanted {
                round: before,
                author: reference.author,
                digest: reference.digest,
            })?;
        }
        Ok(())
    }

    /// Whether the reference of a block of this round is satisfied.
    fn is_satisfied(&self, round: Round, reference: &Ref) -> bool
        ensures { IsTrue result ↔ IsSatisfied self.now.state round reference.now }
    {
        if self.certificate(&reference.digest).is_none() {
            return false;
        }
        match self.block(&reference.digest) {
            None => false,
            Some(parent) => {
                parent.author == reference.author && parent.round.get() + 1 == round.get()
            }
        }
    }
}

/// The first `most` keys, or all if there are fewer.
fn first_keys<K: Ord + Copy>(
    alloc: Global,
    keys: &BTreeSet<K>,
    most: usize,
) -> Result<Vec<K>, AllocError>
    ensures { IfOk result (λ first. first.items ≡ take most keys.now.keys) }
{
    keys.iter().take(most).copied().collect(alloc)
}
