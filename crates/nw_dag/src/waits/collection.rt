//! Missing parents and complete blocks after a collection.
ghost use Rattle.std.specs.Prelude.{◌≡◌, ◌↔◌, ◌+◌, IsTrue, [], ◌∷◌, length};
ghost use Rattle.std.specs.List.{IsDistinct};
ghost use Rattle.std.specs.Ordering.{eq_by_cmp};
ghost use Rattle.nw_waiting.specs.Pairs.{without_holder};
ghost use Rattle.nw_digest.specs.Order.{digest_cmp};
ghost use Rattle.nw_dag.specs.Lacking.{IsReady};
ghost use Rattle.nw_dag.specs.Changes.{AppendsThose};
ghost use Rattle.nw_dag.specs.Frozen.{Grows};
ghost use Rattle.nw_dag.specs.AtRest.{HasPendingCount, IsAtRest};
ghost use Rattle.nw_dag.specs.Collection.{AreReleased, StandsButLacks};
ghost use Rattle.nw_dag.specs.Collection.{IsCompleteBelow, HasCompleteBelow, IsCollecting};

use super::Waits;
use crate::completions::lacks_nothing;
use nw_digest::{Digest, Round};
use nw_state::StateTables;

impl Waits {
    /// Whether the digest is complete, and its block belongs to a round below this one.
    fn is_complete_below(&self, held: &StateTables, digest: Digest, round: Round) -> bool
        ensures { IsTrue result ↔ IsCompleteBelow held.now.state self.now.missing.lacking round digest }
    {
        match held.standing(&digest) {
            None => false,
            Some(name) => name.round < round && lacks_nothing(&self.missing, digest),
        }
    }

    /// How many of the digests are complete and have blocks in rounds below this one.
    pub(crate) fn complete_below(
        &self,
        held: &StateTables,
        digests: &[Digest],
        round: Round,
    ) -> usize
        requires { IsDistinct (eq_by_cmp digest_cmp) digests.now }
        ensures { HasCompleteBelow held.now.state self.now.missing.lacking round digests.now result }
    {
        let mut count = 0;
        for digest in digests {
            if self.is_complete_below(held, *digest, round) {
                count += 1;
            }
        }
        count
    }

    /// Releases the holder: it lacks nothing from now on, and is listed if it becomes ready as a result.
    fn release(&mut self, held: &StateTables, holder: Digest)
        requires pending { HasPendingCount held.now.state self.old.missing.lacking [] self.old.completions.pending }
        ensures unmet { self.new.missing.unmet ≡ without_holder self.old.missing.unmet holder }
        ensures lacking { self.new.missing.lacking ≡ without_holder self.old.missing.lacking holder }
        ensures added { AppendsThose (StandsButLacks held.now.state self.old.missing.lacking)
            (holder ∷ []) self.old.completions.fresh.items self.new.completions.fresh.items }
        ensures most { length self.new.completions.fresh.items + self.new.completions.pending
            ≡ length self.old.completions.fresh.items + self.old.completions.pending }
    {
        let lacked = self.forget(holder);
        if lacked > 0 && held.standing(&holder).is_some() {
            self.completions.add(holder);
        }
    }

    /// Releases the holders: they lack nothing from now on, and those that become ready as a result are listed.
    fn release_each(&mut self, held: &StateTables, holders: &[Digest])
        requires pending { HasPendingCount held.now.state self.old.missing.lacking [] self.old.completions.pending }
        requires once { IsDistinct (eq_by_cmp digest_cmp) holders.now }
        ensures unmet { AreReleased holders.now self.old.missing.unmet self.new.missing.unmet }
        ensures lacking { AreReleased holders.now self.old.missing.lacking self.new.missing.lacking }
        ensures added { AppendsThose (StandsButLacks held.now.state self.old.missing.lacking) holders.now
            self.old.completions.fresh.items self.new.completions.fresh.items }
        ensures most { length self.new.completions.fresh.items + self.new.completions.pending
            ≡ length self.old.completions.fresh.items + self.old.completions.pending }
    {
        for holder in holders {
            self.release(held, *holder);
        }
    }

    /// Updates the sets after the garbage round was raised. The holders are the digests of rounds up to it, and `dropped` is the number of
    /// dropped blocks that were not complete. Blocks that become complete as a result are listed and promoted. Allocates nothing.
    pub(crate) fn collect(&mut self, held: &StateTables, holders: &[Digest], dropped: usize)
        requires { IsCollecting held.now.state self.old.missing.unmet self.old.missing.lacking
            self.old.completions.pending holders.now dropped }
        ensures at_rest { IsAtRest held.now.state self.new.missing.unmet self.new.missing.lacking
            self.new.completions.pending }
        ensures grown { Grows held.now.state (IsReady held.now.state self.old.missing.lacking)
            self.old.missing.lacking self.new.missing.lacking
            self.old.completions.fresh.items self.new.completions.fresh.items }
    {
        self.completions.drop_pending(dropped);
        let first = self.completions.listed();
        self.release_each(held, holders);
        self.cascade(held, first);
    }
}
