//! Missing parents of the held blocks, and which blocks are complete.
//!
//! A *holder* is the digest of a block that names parents. A parent is *met* if its digest stands, with a block of the parent's
//! round and author.
ghost use Rattle.std.specs.Prelude.{◌≡◌, ◌<◌, ◌≤◌, ◌+◌, [], OnOk, OnErr, MatchOption};
ghost use Rattle.std.specs.FinSet as set;
ghost use Rattle.nw_waiting.specs.Pairs.{LacksCount, without_holder};
ghost use Rattle.nw_state.specs.Standing.{Stands, IsMet};
ghost use Rattle.nw_dag.specs.Lacking.{AreSplit, IsReady, IsNamedAmong, LacksNothing};
ghost use Rattle.nw_model.specs.Missing.{IsNamedBy};
ghost use Rattle.nw_dag.specs.Changes.{AreSameExcept, LacksAlso};

mod cascade;
mod collection;

use crate::completions::{Completions, lacks_nothing};
use nw_codec::{Block, Ref};
use nw_digest::{Digest, NoMemory, Round};
use nw_model::Wanted;
use nw_state::StateTables;
use nw_waiting::MissingParents;
use std::alloc::Global;

/// Which held blocks lack which parents, and which blocks are complete.
#[derive(Drop)]
pub(crate) struct Waits {
    /// The missing parents, which are not met or not complete, and the holders that name them. Its unmet parents are those that are not met.
    pub(crate) missing: MissingParents<Global>,
    /// The blocks that became complete since the last freeze, and the number of blocks that are not complete.
    pub(crate) completions: Completions,
}

impl Waits {
    /// Empty sets: no block lacks a parent. Allocates nothing.
    pub(crate) fn new(alloc: Global) -> Waits
        ensures unmet { result.missing.unmet ≡ set.empty }
        ensures lacking { result.missing.lacking ≡ set.empty }
        ensures fresh { result.completions.fresh.items ≡ [] }
        ensures pending { result.completions.pending ≡ 0 }
    {
        Waits {
            missing: MissingParents::new_in(alloc),
            completions: Completions::new(alloc),
        }
    }

    /// Records that the holder lacks the parent, if the parent is not met or not complete.
    ///
    /// `NoMemory` if allocation fails. Then nothing changes.
    fn add(&mut self, held: &StateTables, wanted: Wanted, holder: Digest) -> Result<(), NoMemory>
        requires { AreSplit held.now.state self.old.missing.unmet self.old.missing.lacking }
        ensures unmet { OnOk result
            (LacksAlso (IsMet held.now.state) (λ w. w ≡ wanted) holder
            self.old.missing.unmet self.new.missing.unmet) }
        ensures lacking { OnOk result
            (LacksAlso (λ w. IsMet held.now.state w
            × IsReady held.now.state self.old.missing.lacking w.digest)
            (λ w. w ≡ wanted) holder self.old.missing.lacking self.new.missing.lacking) }
        ensures split { OnOk result
            (AreSplit held.now.state self.new.missing.unmet self.new.missing.lacking) }
        ensures same_unmet { AreSameExcept holder
            self.old.missing.unmet self.new.missing.unmet }
        ensures same_lacking { AreSameExcept holder
            self.old.missing.lacking self.new.missing.lacking }
        ensures completions { self.new.completions ≡ self.old.completions }
        ensures unchanged { OnErr result (self.new.missing ≡ self.old.missing) }
    {
        if !held.is_met(&wanted) {
            self.missing.add(wanted, holder, false)
        } else if !lacks_nothing(&self.missing, wanted.digest) {
            self.missing.add(wanted, holder, true)
        } else {
            Ok(())
        }
    }

    /// Records which parents the holder lacks: those that these references name in this round, and that are not met or not
    /// complete.
    ///
    /// `NoMemory` if allocation fails. Then only some of them may be recorded.
    fn add_each(
        &mut self,
        held: &StateTables,
        round: Round,
        references: &[Ref],
        holder: Digest,
    ) -> Result<(), NoMemory>
        requires absent { Stands held.now.state holder → ⊥ }
        requires split { AreSplit held.now.state self.old.missing.unmet self.old.missing.lacking }
        ensures unmet { OnOk result (LacksAlso (IsMet held.now.state)
            (IsNamedAmong (round + 1) references.now) holder self.old.missing.unmet self.new.missing.unmet) }
        ensures lacking { OnOk result
            (LacksAlso (λ w. IsMet held.now.state w
            × IsReady held.now.state self.old.missing.lacking w.digest)
            (IsNamedAmong (round + 1) references.now) holder self.old.missing.lacking self.new.missing.lacking) }
        ensures same_unmet { AreSameExcept holder self.old.missing.unmet self.new.missing.unmet }
        ensures same_lacking { AreSameExcept holder self.old.missing.lacking self.new.missing.lacking }
        ensures completions { self.new.completions ≡ self.old.completions }
    {
        for reference in references {
            self.add(held, named_by(reference, round), holder)?;
        }
        Ok(())
    }

    /// Records which parents of its block the holder lacks: those that are not met or not complete. A block that is not above the
    /// garbage round lacks none. Before the call, the holder lacks nothing.
    ///
    /// `NoMemory` if allocation fails. Then nothing changes.
    pub(crate) fn add_parents(
        &mut self,
        held: &StateTables,
        block: &Block,
        holder: Digest,
    ) -> Result<(), NoMemory>
        requires absent { Stands held.now.state holder → ⊥ }
        requires split { AreSplit held.now.state self.old.missing.unmet self.old.missing.lacking }
        requires unmet { LacksNothing self.old.missing.unmet holder }
        requires lacking { LacksNothing self.old.missing.lacking holder }
        ensures unmet { OnOk result (LacksAlso (IsMet held.now.state)
            (λ w. (held.now.state.floor < block.now.round) × IsNamedAmong block.now.round
            block.now.parents w) holder self.old.missing.unmet self.new.missing.unmet) }
        ensures lacking { OnOk result
            (LacksAlso (λ w. IsMet held.now.state w
            × IsReady held.now.state self.old.missing.lacking w.digest)
            (λ w. (held.now.state.floor < block.now.round) × IsNamedAmong block.now.round
            block.now.parents w) holder self.old.missing.lacking self.new.missing.lacking) }
        ensures completions { self.new.completions ≡ self.old.completions }
        ensures unchanged { OnErr result
            ((self.new.missing.unmet ≡ self.old.missing.unmet) × (self.new.missing.lacking ≡ self.old.missing.lacking)) }
    {
        let Some(round) = parents_round(held, block) else {
            return Ok(());
        };
        if let Err(refused) = self.add_each(held, round, block.parents.as_slice(), holder) {
            self.forget(holder);
            return Err(refused);
        }
        Ok(())
    }

    /// Forgets which parents the holder lacks, and returns how many these were. From now on it lacks nothing.
    pub(crate) fn forget(&mut self, holder: Digest) -> usize
        ensures count { LacksCount self.old.missing.lacking holder result }
        ensures unmet { self.new.missing.unmet ≡ without_holder self.old.missing.unmet holder }
        ensures lacking { self.new.missing.lacking ≡ without_holder self.old.missing.lacking holder }
        ensures completions { self.new.completions ≡ self.old.completions }
    {
        self.missing.drop_holder(holder)
    }
}

/// The round of the block's parents. `None` if the block is not above the garbage round: then it wants no parents.
fn parents_round(held: &StateTables, block: &Block) -> Option<Round>
    ensures { MatchOption result (block.now.round ≤ held.now.state.floor)
        (λ round. (round + 1 ≡ block.now.round) × (held.now.state.floor < block.now.round)) }
{
    if block.round <= held.floor() {
        return None;
    }
    block.round.before()
}

/// The parent that the reference names, in this round.
fn named_by(reference: &Ref, round: Round) -> Wanted
    ensures { IsNamedBy (round + 1) reference.now result }
{
    Wanted {
        round,
        author: reference.author,
        digest: reference.digest,
    }
}
