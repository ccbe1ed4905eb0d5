//! Completions: which blocks became complete since the last freeze, and how many blocks are not complete.
ghost use Rattle.std.specs.Prelude.{◌≡◌, ◌↔◌, ◌+◌, ◌-◌, ◌<◌, ◌≤◌, [], ◌∷◌, ◌++◌};
ghost use Rattle.std.specs.Prelude.{OnOk, MatchOption, IsTrue, false, length, get_or, Contains};
ghost use Rattle.std.specs.Vec.{vec_capacity};
ghost use Rattle.std.specs.List.Sorted.{IsStrictlySortedBy};
ghost use Rattle.nw_digest.specs.Order.{digest_cmp};
ghost use Rattle.nw_model.specs.Sound.{IsSound};
ghost use Rattle.nw_dag.specs.Lacking.{IsReady, LacksNothing, LacksSomething};

use nw_digest::{Digest, NoMemory};
use nw_state::StateTables;
use nw_waiting::MissingParents;
use std::alloc::Global;

/// The digests of the blocks that became complete since the last freeze (by a causal read or `compact`), and the number of
/// *pending* blocks: those that are held but not complete.
#[derive(Drop)]
pub(crate) struct Completions {
    /// The digests, in the order in which the blocks became complete. A freeze that fails may leave them sorted. Blocks that were collected
    /// since may still be listed.
    pub(crate) fresh: Vec<Digest>,
    pub(crate) pending: usize,
    // The list has room for each pending block, so listing a block never allocates.
    ghost room: { length fresh.items + pending ≤ vec_capacity fresh },
}

impl Completions {
    /// An empty list, with no pending blocks. Allocates nothing.
    pub(crate) fn new(alloc: Global) -> Completions
        ensures fresh { result.fresh.items ≡ [] }
        ensures pending { result.pending ≡ 0 }
    {
        Completions {
            fresh: Vec::new(alloc),
            pending: 0,
        }
    }

    /// The number of listed blocks.
    pub(crate) fn listed(&self) -> usize
        ensures { result ≡ length self.now.fresh.items }
    {
        self.fresh.len()
    }

    /// The digest at this place of the list, or `None` if the list is shorter.
    pub(crate) fn get(&self, place: usize) -> Option<Digest>
        ensures { MatchOption result (length self.now.fresh.items ≤ place) (λ digest. (place
            < length self.now.fresh.items) × (digest ≡ get_or self.now.fresh.items place digest)) }
    {
        self.fresh.get(place).copied()
    }

    /// The largest length that the list can reach: its length if all pending blocks were listed.
    pub(crate) fn most(&self) -> usize
        ensures { result ≡ length self.now.fresh.items + self.now.pending }
    {
        self.fresh.len() + self.pending
    }

    /// Makes room for one more pending block. Let n be the number of listed or pending blocks. If the list has no room left, it allocates
    /// room for n + 1 more entries. Before that, it removes collected blocks if n is above the number of held blocks.
    ///
    /// `NoMemory` if allocation fails. Then only collected blocks may have been removed.
    pub(crate) fn reserve(
        &mut self,
        held: &StateTables,
        missing: &MissingParents<Global>,
    ) -> Result<(), NoMemory>
        ensures kept { (d : Digest) → Contains self.old.fresh.items d
            → IsReady held.now.state missing.now.lacking d → Contains self.new.fresh.items d }
        ensures pending { self.new.pending ≡ self.old.pending }
        ensures room { OnOk result
            (length self.new.fresh.items + self.new.pending < vec_capacity self.new.fresh) }
    {
        if self.most() < self.fresh.capacity() {
            return Ok(());
        }
        if self.most() > held.blocks() {
            self.drop_stale(held, missing);
        }
        let Some(more) = self.most().checked_add(1) else {
            return Err(NoMemory);
        };
        self.fresh.reserve(more)?;
        Ok(())
    }

    /// Counts one more pending block.
    pub(crate) fn add_pending(&mut self)
        requires { length self.old.fresh.items + self.old.pending < vec_capacity self.old.fresh }
        ensures fresh { self.new.fresh ≡ self.old.fresh }
        ensures pending { self.new.pending ≡ self.old.pending + 1 }
    {
        self.pending += 1;
    }

    /// Subtracts this number of blocks from the count of pending blocks.
    pub(crate) fn drop_pending(&mut self, blocks: usize)
        requires { blocks ≤ self.old.pending }
        ensures fresh { self.new.fresh ≡ self.old.fresh }
        ensures pending { self.new.pending ≡ self.old.pending - blocks }
    {
        self.pending -= blocks;
    }

    /// Adds a pending block to the list, because it became complete.
    pub(crate) fn add(&mut self, digest: Digest)
        requires { 0 < self.old.pending }
        ensures fresh { self.new.fresh.items ≡ self.old.fresh.items ++ digest ∷ [] }
        ensures pending { self.new.pending ≡ self.old.pending - 1 }
    {
        self.pending -= 1;
        let _added = self.fresh.push(digest);
    }

    /// Removes the blocks from the list that are no longer complete, because they were collected.
    pub(crate) fn drop_stale(&mut self, held: &StateTables, missing: &MissingParents<Global>)
        ensures fresh { (d : Digest) → Contains self.new.fresh.items d
            ↔ (Contains self.old.fresh.items d × IsReady held.now.state missing.now.lacking d) }
        ensures pending { self.new.pending ≡ self.old.pending }
    {
        self.fresh.retain(|digest| is_ready(held, missing, *digest));
    }

    /// Sorts the digests in ascending order, and removes repetitions. Allocates nothing.
    pub(crate) fn sort(&mut self)
        ensures same { (d : Digest) → Contains self.new.fresh.items d ↔ Contains self.old.fresh.items d }
        ensures ascending { IsStrictlySortedBy digest_cmp self.new.fresh.items }
        ensures pending { self.new.pending ≡ self.old.pending }
    {
        self.fresh.sort_unstable();
        self.fresh.dedup();
    }

    /// Empties the list.
    pub(crate) fn clear(&mut self)
        ensures fresh { self.new.fresh.items ≡ [] }
        ensures pending { self.new.pending ≡ self.old.pending }
    {
        self.fresh.clear();
    }
}

/// Whether the digest stands and lacks no parent. Its block is looked up only if it lacks no parent.
pub(crate) fn is_ready(held: &StateTables, missing: &MissingParents<Global>, digest: Digest) -> bool
    ensures ready { IsTrue result ↔ IsReady held.now.state missing.now.lacking digest }
    ensures sound { IsTrue result → IsSound held.now.state }
{
    lacks_nothing(missing, digest) && held.standing(&digest).is_some()
}

/// Whether the holder lacks no parent.
pub(crate) fn lacks_nothing(missing: &MissingParents<Global>, holder: Digest) -> bool
    ensures nothing { IsTrue result ↔ LacksNothing missing.now.lacking holder }
    ensures something { result ≡ false → LacksSomething missing.now.lacking holder }
{
    missing.lacks(holder) == 0
}
