//! Writes to a store.
ghost use Rattle.std.specs.Prelude.{◌≡◌, ◌≤◌, OnOk, OnErr, IsNone, IsTrue, true, false};
ghost use Rattle.std.specs.FinMap as map;
ghost use Rattle.nw_model.specs.State.{block_slot, certificate_slot, subject_slot};
ghost use Rattle.nw_model.specs.Step.{asked_write_reply, write_reply};
ghost use Rattle.nw_model.specs.Step.{has_other_slot, is_held_block, other_first, with_block};

use super::{Plain, insert_both};
use nw_codec::{Block, Subject};
use nw_digest::{Digest, NoMemory, Shared};
use nw_model::WriteReply;

impl Plain {
    /// The reply that a write would get now.
    pub(super) fn write_reply(&self, digest: &Digest, block: &Block) -> WriteReply
        ensures { result ≡ write_reply self.now.bounds self.now.state digest.now block.now }
    {
        match self.asked_write_reply(&block.subject(*digest)) {
            WriteReply::Held if !self.holds(digest, block) => WriteReply::Clash,
            reply => reply,
        }
    }

    /// Whether this block is held under the digest.
    fn holds(&self, digest: &Digest, block: &Block) -> bool
        ensures { result ≡ is_held_block self.now.state digest.now block.now }
    {
        match self.block(digest) {
            None => false,
            Some(held) => block == held,
        }
    }

    /// The reply that a write with this subject would get now: `Held` if any block is held under its digest.
    pub(super) fn asked_write_reply(&self, subject: &Subject) -> WriteReply
        ensures { result ≡ asked_write_reply self.now.bounds self.now.state subject.now }
    {
        if subject.round < self.floor {
            return WriteReply::Collected(self.floor);
        }
        if subject.round.get() >= self.floor.get() + u64::from(self.window) {
            return WriteReply::TooFar;
        }
        if self.block(&subject.digest).is_some() {
            return WriteReply::Held;
        }
        if self.is_misfit(subject) {
            return WriteReply::Misfit;
        }
        if let Some(first) = self.other_first(subject) {
            return WriteReply::Equivocates(first);
        }
        if self.block_count() >= self.limit as usize {
            return WriteReply::Full;
        }
        WriteReply::Stored {
            vote: self.first(subject.round, subject.author).is_none(),
        }
    }

    /// Whether the digest is certified for another round or author than the subject's.
    fn is_misfit(&self, subject: &Subject) -> bool
        ensures { result ≡ has_other_slot certificate_slot
            (map.get self.now.state.certificates subject.now.digest) (subject_slot subject.now) }
    {
        match self.certificate(&subject.digest) {
            None => false,
            Some(certificate) => {
                (certificate.round, certificate.author) != (subject.round, subject.author)
            }
        }
    }

    /// The first digest of the subject's slot, if it is another digest and this one is not certified.
    fn other_first(&self, subject: &Subject) -> Option<Digest>
        ensures { result ≡ other_first self.now.state subject.now.digest (subject_slot subject.now) }
    {
        if self.certificate(&subject.digest).is_some() {
            return None;
        }
        match self.first(subject.round, subject.author) {
            Some(first) if first != subject.digest => Some(first),
            _ => None,
        }
    }

    /// Adds the block under the digest. If `vote` is set, the digest becomes the first of the block's slot.
    pub(super) fn store(
        &mut self,
        digest: Digest,
        block: Shared<Block>,
        vote: bool,
    ) -> Result<(), NoMemory>
        requires absent { IsNone (map.get self.old.state.blocks digest) }
        requires open { IsTrue vote → IsNone (map.get self.old.state.firsts (block_slot block)) }
        requires misfit { has_other_slot certificate_slot (map.get self.old.state.certificates digest)
            (block_slot block) ≡ false }
        requires kept { self.old.state.floor ≤ block.round }
        ensures state { OnOk result (self.new.state ≡ with_block self.old.state digest block vote) }
        ensures bounds { self.new.bounds ≡ self.old.bounds }
        ensures unchanged { OnErr result (self.new ≡ self.old) }
    {
        if vote {
            return self.store_first(digest, block);
        }
        self.blocks.insert(digest, block)?;
        Ok(())
    }

    /// Adds the block under the digest, which becomes the first of the block's slot.
    fn store_first(&mut self, digest: Digest, block: Shared<Block>) -> Result<(), NoMemory>
        requires absent { IsNone (map.get self.old.state.blocks digest) }
        requires open { IsNone (map.get self.old.state.firsts (block_slot block)) }
        requires misfit { has_other_slot certificate_slot (map.get self.old.state.certificates digest)
            (block_slot block) ≡ false }
        requires kept { self.old.state.floor ≤ block.round }
        ensures state { OnOk result (self.new.state ≡ with_block self.old.state digest block true) }
        ensures bounds { self.new.bounds ≡ self.old.bounds }
        ensures unchanged { OnErr result (self.new ≡ self.old) }
    {
        let held = block.get();
        let slot = (held.round, held.author);
        insert_both(&mut self.blocks, digest, block, &mut self.firsts, slot)
    }
}
