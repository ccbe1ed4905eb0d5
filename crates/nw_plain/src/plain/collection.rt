//! Garbage collection of a store.
ghost use Rattle.std.specs.Prelude.{◌≡◌, ◌-◌, nat_le, nat_lt, filter, length};
ghost use Rattle.std.specs.BTreeMap.{IsOrdered, values};
ghost use Rattle.std.specs.FinMap as map;
ghost use Rattle.nw_digest.specs.Order.{digest_cmp};
ghost use Rattle.nw_model.specs.Step.{collect_reply, raised};

use super::Plain;
use nw_codec::{Block, Certificate};
use nw_digest::{Digest, Round, Shared};
use nw_model::CollectReply;
use std::collections::BTreeMap;

impl Plain {
    /// The reply that a collection would get now.
    pub(super) fn collect_reply(&self, round: Round) -> CollectReply
        ensures { result ≡ collect_reply self.now.state round }
    {
        if round <= self.floor {
            return CollectReply::NotHigher(self.floor);
        }
        CollectReply::Raised {
            dropped: self.blocks_below(round),
        }
    }

    /// How many held blocks belong to rounds below this one.
    fn blocks_below(&self, round: Round) -> u64
        ensures { result
            ≡ map.len self.now.state.blocks - map.len (raised self.now.state round).blocks }
    {
        count_below(&self.blocks, round) as u64
    }

    /// Makes this the garbage round, and drops everything of lower rounds. Allocates nothing.
    pub(super) fn raise(&mut self, round: Round)
        ensures state { self.new.state ≡ raised self.old.state round }
        ensures bounds { self.new.bounds ≡ self.old.bounds }
    {
        retain_blocks(&mut self.blocks, round);
        retain_certificates(&mut self.certificates, round);
        retain_slots(&mut self.firsts, round);
        retain_slots(&mut self.certified, round);
        self.floor = round;
    }
}

/// How many blocks belong to rounds below this one.
fn count_below(blocks: &BTreeMap<Digest, Shared<Block>>, round: Round) -> usize
    ensures ordered { IsOrdered digest_cmp blocks.now }
    ensures below { result ≡ length (filter (λ b. nat_lt b.round round) (values blocks.now)) }
{
    blocks
        .values()
        .filter(|block| block.get().round < round)
        .count()
}

/// Drops the blocks of rounds below this one.
fn retain_blocks(blocks: &mut BTreeMap<Digest, Shared<Block>>, round: Round)
    ensures ordered { IsOrdered digest_cmp blocks.old }
    ensures kept { blocks.new.entries ≡ filter (λ e. nat_le round e.1.round) blocks.old.entries }
{
    blocks.retain(|_digest, block| block.get().round >= round);
}

/// Drops the certificates of rounds below this one.
fn retain_certificates(certificates: &mut BTreeMap<Digest, Shared<Certificate>>, round: Round)
    ensures ordered { IsOrdered digest_cmp certificates.old }
    ensures kept { certificates.new.entries
        ≡ filter (λ e. nat_le round e.1.round) certificates.old.entries }
{
    certificates.retain(|_digest, certificate| certificate.get().round >= round);
}

/// Drops the slots of rounds below this one.
fn retain_slots(slots: &mut BTreeMap<(Round, u16), Digest>, round: Round)
    ensures { slots.new.entries ≡ filter (λ e. nat_le round e.0.0) slots.old.entries }
{
    slots.retain(|slot, _digest| slot.0 >= round);
}
