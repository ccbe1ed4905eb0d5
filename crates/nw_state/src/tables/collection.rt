//! Collections: which blocks a collection counts, and what it drops.
ghost use Rattle.std.specs.Prelude.{◌≡◌, ◌-◌, ◌≤◌, IfOk};
ghost use Rattle.std.specs.FinMap as map;
ghost use Rattle.nw_model.specs.Sound.{IsSound};
ghost use Rattle.nw_model.specs.Step.{collect_reply, raised};
ghost use Rattle.nw_state.specs.Collection.{AreDigestsUpTo, counts_at};

use super::StateTables;
use super::dropping::drop_below;
use nw_digest::{Digest, NoMemory, Round};
use nw_model::CollectReply;
use nw_rounds::DigestKind;

impl StateTables {
    /// The reply that a collection would get now. It visits only the entries of lower rounds, and none if the round is not above the
    /// garbage round. Allocates nothing.
    pub fn collect_reply(&self, round: Round) -> CollectReply
        ensures { result ≡ collect_reply self.now.state round }
    {
        if round <= self.floor {
            return CollectReply::NotHigher(self.floor);
        }
        CollectReply::Raised {
            dropped: self.blocks_below(round) as u64,
        }
    }

    /// How many held blocks belong to rounds below this one.
    fn blocks_below(&self, round: Round) -> usize
        ensures { result
            ≡ map.len self.now.state.blocks - map.len (raised self.now.state round).blocks }
    {
        let mut count = 0;
        for (place, digest) in self.slots.places_below(round) {
            if self.counts_at(place.1, digest) {
                count += 1;
            }
        }
        count
    }

    /// Whether a digest of this kind counts as a block. A first digest counts if it is not certified. A certified digest counts if its
    /// block is held. So each held block counts once.
    fn counts_at(&self, kind: DigestKind, digest: &Digest) -> bool
        ensures { result ≡ counts_at self.now.state kind digest.now }
    {
        match kind {
            DigestKind::First => self.certificate(digest).is_none(),
            DigestKind::Certified => self.holds(digest),
        }
    }

    /// The digests of the slots of this round and of lower rounds. `NoMemory` if allocation fails.
    pub fn digests_up_to(&self, round: Round) -> Result<Vec<Digest>, NoMemory>
        ensures digests { IfOk result (λ found. AreDigestsUpTo self.now.state round found.items) }
        ensures sound { IsSound self.now.state }
    {
        self.slots.digests_up_to(self.alloc, round)
    }

    /// Makes this the garbage round, and drops everything of lower rounds. `digests` must be what [`StateTables::digests_up_to`] returns
    /// for this round. Allocates nothing.
    pub fn raise(&mut self, round: Round, digests: &[Digest])
        requires { AreDigestsUpTo self.old.state round digests.now }
        ensures state { self.new.state ≡ raised self.old.state round }
        ensures bounds { self.new.bounds ≡ self.old.bounds }
        ensures fewer { map.len self.new.state.blocks ≤ map.len self.old.state.blocks }
    {
        drop_below(&mut self.blocks, digests, round);
        drop_below(&mut self.certificates, digests, round);
        self.slots.drop_below(round);
        self.floor = round;
    }
}
