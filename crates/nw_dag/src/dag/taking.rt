//! The changes that each reply makes to the tables.
ghost use Rattle.std.specs.Prelude.{◌≡◌, OnOk, OnErr};
ghost use Rattle.nw_model.specs.Step.{after_write, after_certify, after_collect};
ghost use Rattle.nw_model.specs.Step.{write_reply, certify_reply, collect_reply};

use super::Dag;
use nw_codec::{Block, Certificate};
use nw_digest::{Digest, NoMemory, Round, Shared};
use nw_model::{CertifyReply, CollectReply, WriteReply};

impl Dag {
    /// Takes the step of a write that gets this reply.
    pub(super) fn take_write(
        &mut self,
        digest: Digest,
        block: &Shared<Block>,
        reply: &WriteReply,
    ) -> Result<(), NoMemory>
        requires { reply.now ≡ write_reply self.old.bounds self.old.state digest block.now }
        ensures state { OnOk result
            (self.new.state ≡ after_write self.old.state digest block.now reply.now) }
        ensures bounds { self.new.bounds ≡ self.old.bounds }
        ensures unchanged { OnErr result (self.new ≡ self.old) }
    {
        let WriteReply::Stored { vote } = reply else {
            return Ok(());
        };
        let owner = block.try_clone()?;
        self.waits
            .completions
            .reserve(&self.held, &self.waits.missing)?;
        self.waits.add_parents(&self.held, block.get(), digest)?;
        if let Err(refused) = self.held.put_block(digest, owner, *vote) {
            self.waits.forget(digest);
            return Err(refused);
        }
        self.waits.completions.add_pending();
        self.waits.arrive(&self.held, digest);
        Ok(())
    }

    /// Takes the step of a certificate that gets this reply.
    pub(super) fn take_certify(
        &mut self,
        certificate: &Shared<Certificate>,
        reply: &CertifyReply,
    ) -> Result<(), NoMemory>
        requires { reply.now ≡ certify_reply self.old.bounds self.old.state certificate.now }
        ensures state { OnOk result
            (self.new.state ≡ after_certify self.old.state certificate.now reply.now) }
        ensures bounds { self.new.bounds ≡ self.old.bounds }
        ensures unchanged { OnErr result (self.new ≡ self.old) }
    {
        let CertifyReply::Certified = reply else {
            return Ok(());
        };
        self.held.put_certificate(certificate.try_clone()?)?;
        self.waits.arrive(&self.held, certificate.get().digest);
        Ok(())
    }

    /// Takes the step of a collection that gets this reply. All allocations come before the first change.
    pub(super) fn take_collect(
        &mut self,
        round: Round,
        reply: &CollectReply,
    ) -> Result<(), NoMemory>
        requires { reply.now ≡ collect_reply self.old.state round }
        ensures state { OnOk result
            (self.new.state ≡ after_collect self.old.state round reply.now) }
        ensures bounds { self.new.bounds ≡ self.old.bounds }
        ensures unchanged { OnErr result (self.new ≡ self.old) }
    {
        let CollectReply::Raised { dropped } = reply else {
            return Ok(());
        };
        let holders = self.held.digests_up_to(round)?;
        let complete = self.waits.complete_below(&self.held, &holders, round);
        self.held.raise(round, &holders);
        self.waits
            .collect(&self.held, &holders, *dropped as usize - complete);
        Ok(())
    }
}
