//! The cascade. A digest is *ready* if it stands and lacks no parent. When a digest becomes ready, blocks that lack its block may
//! become ready too, and so on.
ghost use Rattle.std.specs.Prelude.{◌≡◌, ◌+◌, ◌<◌, [], ◌∷◌, drop, length};
ghost use Rattle.std.specs.List.{IsDistinct};
ghost use Rattle.std.specs.Ordering.{eq_by_cmp};
ghost use Rattle.nw_digest.specs.Order.{digest_cmp};
ghost use Rattle.nw_state.specs.Standing.{Stands};
ghost use Rattle.nw_dag.specs.Lacking.{AreNotMet, IsReady};
ghost use Rattle.nw_dag.specs.Changes.{AppendsThose, Promotes};
ghost use Rattle.nw_dag.specs.Frozen.{Grows};
ghost use Rattle.nw_dag.specs.AtRest.{HasPendingCount, IsCascading, IsAtRest, IsAtRestWithout};

use super::Waits;
use crate::completions::{is_ready, lacks_nothing};
use nw_digest::Digest;
use nw_state::StateTables;

impl Waits {
    /// Lists the digest if it is ready.
    fn add_if_ready(&mut self, held: &StateTables, digest: Digest)
        requires pending { IsReady held.now.state self.old.missing.lacking digest
            → 0 < self.old.completions.pending }
        ensures unmet { self.new.missing.unmet ≡ self.old.missing.unmet }
        ensures lacking { self.new.missing.lacking ≡ self.old.missing.lacking }
        ensures added { AppendsThose (IsReady held.now.state self.old.missing.lacking)
            (digest ∷ []) self.old.completions.fresh.items self.new.completions.fresh.items }
        ensures most { length self.new.completions.fresh.items + self.new.completions.pending
            ≡ length self.old.completions.fresh.items + self.old.completions.pending }
    {
        if is_ready(held, &self.missing, digest) {
            self.completions.add(digest);
        }
    }

    /// Lists the digests that are ready.
    fn add_ready(&mut self, held: &StateTables, digests: &[Digest])
        requires pending { HasPendingCount held.now.state self.old.missing.lacking digests.now
            self.old.completions.pending }
        requires once { IsDistinct (eq_by_cmp digest_cmp) digests.now }
        ensures unmet { self.new.missing.unmet ≡ self.old.missing.unmet }
        ensures lacking { self.new.missing.lacking ≡ self.old.missing.lacking }
        ensures added { AppendsThose (IsReady held.now.state self.old.missing.lacking) digests.now
            self.old.completions.fresh.items self.new.completions.fresh.items }
        ensures most { length self.new.completions.fresh.items + self.new.completions.pending
            ≡ length self.old.completions.fresh.items + self.old.completions.pending }
    {
        for digest in digests {
            self.add_if_ready(held, *digest);
        }
    }

    /// Promotes the digest: no block lacks its block from now on, and the blocks that become ready as a result are listed.
    fn promote(&mut self, held: &StateTables, digest: Digest)
        requires pending { HasPendingCount held.now.state self.old.missing.lacking [] self.old.completions.pending }
        requires stands { Stands held.now.state digest }
        requires unmet { AreNotMet held.now.state self.old.missing.unmet }
        ensures unmet { self.new.missing.unmet ≡ self.old.missing.unmet }
        ensures promotes { Promotes held.now.state digest self.old.missing.lacking self.new.missing.lacking
            self.old.completions.fresh.items self.new.completions.fresh.items }
        ensures most { length self.new.completions.fresh.items + self.new.completions.pending
            ≡ length self.old.completions.fresh.items + self.old.completions.pending }
    {
        if let Some(wanted) = held.name(digest) {
            let holders = self.missing.drop_parent(&wanted);
            self.add_ready(held, holders.as_slice());
        }
    }

    /// Promotes the listed digests from this place on, and those that become ready as a result. Allocates nothing.
    pub(super) fn cascade(&mut self, held: &StateTables, first: usize)
        requires due { IsCascading held.now.state self.old.missing.unmet self.old.missing.lacking
            (drop first self.old.completions.fresh.items) self.old.completions.pending }
        ensures at_rest { IsAtRest held.now.state self.new.missing.unmet self.new.missing.lacking
            self.new.completions.pending }
        ensures grown { Grows held.now.state (IsReady held.now.state self.old.missing.lacking)
            self.old.missing.lacking self.new.missing.lacking
            self.old.completions.fresh.items self.new.completions.fresh.items }
    {
        for place in first..self.completions.most() {
            match self.completions.get(place) {
                None => return,
                Some(digest) => self.promote(held, digest),
            }
        }
    }

    /// Updates the sets after the block or the certificate of the digest was added. If the digest stands now, its block is no
    /// longer an unmet parent. If it is complete, it is listed and promoted, with all blocks that become complete as a result.
    /// Allocates nothing.
    pub(crate) fn arrive(&mut self, held: &StateTables, digest: Digest)
        requires { IsAtRestWithout held.now.state digest self.old.missing.unmet self.old.missing.lacking
            self.old.completions.pending }
        ensures at_rest { IsAtRest held.now.state self.new.missing.unmet self.new.missing.lacking
            self.new.completions.pending }
        ensures grown { Grows held.now.state
            (λ d. IsReady held.now.state self.old.missing.lacking d × (d ≡ digest → ⊥)) self.old.missing.lacking
            self.new.missing.lacking self.old.completions.fresh.items self.new.completions.fresh.items }
    {
        let Some(name) = held.standing(&digest) else {
            return;
        };
        self.missing.meet(&name);
        if lacks_nothing(&self.missing, digest) {
            let first = self.completions.listed();
            self.completions.add(digest);
            self.cascade(held, first);
        }
    }
}
