//! The calls of the step table.
ghost use Rattle.std.specs.Prelude.{◌≡◌, IfOk, OnOk, OnErr};
ghost use Rattle.nw_model.specs.Step.{IsReply, HasNoList, after};
ghost use Rattle.nw_model.specs.Step.{write_reply, certify_reply, collect_reply};

use super::Dag;
use nw_codec::{Block, Certificate};
use nw_digest::{Digest, NoMemory, Round, Shared};
use nw_model::{Call, CertifyReply, CollectReply, Reply, WriteReply};
use std::alloc::Global;

impl Dag {
    /// Takes the step of the call. `reply` must be the reply that [`Dag::reply`] finds in the same state; it is not looked up again.
    ///
    /// `NoMemory` if allocation fails. Then the store is unchanged.
    pub fn take(&mut self, call: &Call, reply: &Reply) -> Result<(), NoMemory>
        requires { IsReply self.old.bounds self.old.state call.now reply.now }
        ensures state { OnOk result
            (self.new.state ≡ after self.old.bounds self.old.state call.now) }
        ensures bounds { self.new.bounds ≡ self.old.bounds }
        ensures unchanged { OnErr result (self.new ≡ self.old) }
    {
        match (call, reply) {
            (Call::Write(digest, block), Reply::Write(reply)) => {
                self.take_write(*digest, block, reply)
            }
            (Call::Certify(certificate), Reply::Certify(reply)) => {
                self.take_certify(certificate, reply)
            }
            (Call::Collect(round), Reply::Collect(reply)) => self.take_collect(*round, reply),
            _ => Ok(()),
        }
    }

    /// The reply that the call would get now. A causal read of a complete digest would get `Ready`, not a list.
    ///
    /// `NoMemory` if allocation fails, or if the block or certificate of the reply has too many owners.
    pub fn reply(&self, alloc: Global, call: &Call) -> Result<Reply, NoMemory>
        ensures reply { IfOk result (IsReply self.now.bounds self.now.state call.now) }
        ensures short { IfOk result HasNoList }
    {
        match call {
            Call::Write(digest, block) => {
                Ok(Reply::Write(self.held.write_reply(digest, block.get())))
            }
            Call::Certify(certificate) => {
                let subject = certificate.get().subject();
                Ok(Reply::Certify(self.held.asked_certify_reply(&subject)))
            }
            Call::Certificate(digest) => Ok(Reply::Certificate(self.certificate(digest)?)),
            Call::Read(digest) => Ok(Reply::Read(self.read(digest)?)),
            Call::Causal(digest) => Ok(self.causal_reply(digest)),
            Call::Collect(round) => Ok(Reply::Collect(self.held.collect_reply(*round))),
            Call::Missing(most) => Ok(Reply::Missing(self.missing(alloc, *most)?)),
            Call::MissingOf(digest) => Ok(Reply::MissingOf(self.missing_of(alloc, digest)?)),
            Call::Status => Ok(Reply::Status(self.status())),
            Call::AskWrite(subject) => Ok(Reply::Write(self.held.asked_write_reply(subject))),
            Call::AskCertify(subject) => Ok(Reply::Certify(self.held.asked_certify_reply(subject))),
        }
    }

    /// Takes the step of a write of the block under the digest, and returns its reply.
    ///
    /// `NoMemory` if allocation fails. Then the store is unchanged.
    pub fn write(&mut self, digest: Digest, block: &Shared<Block>) -> Result<WriteReply, NoMemory>
        ensures reply { IfOk result
            (λ r. r ≡ write_reply self.old.bounds self.old.state digest block.now) }
        ensures state { OnOk result
            (self.new.state ≡ after self.old.bounds self.old.state (Call.Write digest block.now)) }
        ensures bounds { self.new.bounds ≡ self.old.bounds }
        ensures unchanged { OnErr result (self.new ≡ self.old) }
    {
        let reply = self.held.write_reply(&digest, block.get());
        self.take_write(digest, block, &reply)?;
        Ok(reply)
    }

    /// Takes the step of `Certify` for the certificate, and returns its reply.
    ///
    /// `NoMemory` if allocation fails. Then the store is unchanged.
    pub fn certify(&mut self, certificate: &Shared<Certificate>) -> Result<CertifyReply, NoMemory>
        ensures reply { IfOk result
            (λ r. r ≡ certify_reply self.old.bounds self.old.state certificate.now) }
        ensures state { OnOk result
            (self.new.state ≡ after self.old.bounds self.old.state (Call.Certify certificate.now)) }
        ensures bounds { self.new.bounds ≡ self.old.bounds }
        ensures unchanged { OnErr result (self.new ≡ self.old) }
    {
        let reply = self.held.asked_certify_reply(&certificate.get().subject());
        self.take_certify(certificate, &reply)?;
        Ok(reply)
    }

    /// Takes the step of a collection, and returns its reply. If the round is above the garbage round, it becomes the garbage round, and
    /// everything of lower rounds is dropped.
    ///
    /// `NoMemory` if allocation fails. Then the store is unchanged.
    pub fn collect(&mut self, round: Round) -> Result<CollectReply, NoMemory>
        ensures reply { IfOk result (λ r. r ≡ collect_reply self.old.state round) }
        ensures state { OnOk result
            (self.new.state ≡ after self.old.bounds self.old.state (Call.Collect round)) }
        ensures bounds { self.new.bounds ≡ self.old.bounds }
        ensures unchanged { OnErr result (self.new ≡ self.old) }
    {
        let reply = self.held.collect_reply(round);
        self.take_collect(round, &reply)?;
        Ok(reply)
    }
}
