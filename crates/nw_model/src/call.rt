//! The calls of a store.
ghost use Rattle.std.specs.Prelude.{◌≡◌, ◌↔◌, IfOk, IsTrue};
ghost use Rattle.nw_model.specs.Step.{recorded_call};

use crate::{CertifyReply, Reply, WriteReply};
use nw_codec::{Block, Certificate, Subject};
use nw_digest::{Digest, NoMemory, Round, Shared};

/// One call of a store.
#[derive(Debug, Drop)]
pub enum Call {
    /// Store the block under the digest.
    Write(Digest, Shared<Block>),
    /// Keep the certificate for its digest.
    Certify(Shared<Certificate>),
    /// Find the certificate that is kept for the digest.
    Certificate(Digest),
    /// Find the block that is held under the digest.
    Read(Digest),
    /// List the ancestors of the digest: its block, and all blocks to which satisfied references lead from it.
    Causal(Digest),
    /// Make this the garbage round, and drop everything of lower rounds.
    Collect(Round),
    /// List the wanted parents in their order, at most this many.
    Missing(u16),
    /// List the missing parents of the block that is held under the digest: those that its unsatisfied references name.
    MissingOf(Digest),
    /// Count what is kept and what is wanted.
    Status,
    /// Tell what a write of a block with this subject would get. `Held` if any block is held under the digest.
    AskWrite(Subject),
    /// Tell what a certificate for this subject would get.
    AskCertify(Subject),
}

impl Call {
    /// A copy of the call, which shares its block or certificate. `NoMemory` if that has too many owners.
    pub fn try_clone(&self) -> Result<Call, NoMemory>
        ensures { IfOk result (λ copy. copy ≡ self.now) }
    {
        Ok(match self {
            Call::Write(digest, block) => Call::Write(*digest, block.try_clone()?),
            Call::Certify(certificate) => Call::Certify(certificate.try_clone()?),
            Call::Certificate(digest) => Call::Certificate(*digest),
            Call::Read(digest) => Call::Read(*digest),
            Call::Causal(digest) => Call::Causal(*digest),
            Call::Collect(round) => Call::Collect(*round),
            Call::Missing(most) => Call::Missing(*most),
            Call::MissingOf(digest) => Call::MissingOf(*digest),
            Call::Status => Call::Status,
            Call::AskWrite(subject) => Call::AskWrite(*subject),
            Call::AskCertify(subject) => Call::AskCertify(*subject),
        })
    }

    /// Makes it the call that a history records with the reply. A write or a certificate that changes nothing becomes the question with
    /// its subject, so that the history does not keep the block or the certificate. A write with the reply `Clash` stays.
    pub fn record(&mut self, reply: &Reply)
        ensures { self.new ≡ recorded_call self.old reply.now }
    {
        match (&*self, reply) {
            (Call::Write(..), Reply::Write(WriteReply::Stored { .. } | WriteReply::Clash)) => {}
            (Call::Write(digest, block), Reply::Write(_)) => {
                *self = Call::AskWrite(block.get().subject(*digest));
            }
            (Call::Certify(_), Reply::Certify(CertifyReply::Certified)) => {}
            (Call::Certify(certificate), Reply::Certify(_)) => {
                *self = Call::AskCertify(certificate.get().subject());
            }
            _ => {}
        }
    }

    /// Whether the two calls are equal. Allocates nothing.
    pub fn is_same(&self, other: &Call) -> bool
        ensures { IsTrue result ↔ self.now ≡ other.now }
    {
        match (self, other) {
            (Call::Write(digest, block), Call::Write(of, written)) => {
                is_same_digest(digest, of) && is_same_block(block.get(), written.get())
            }
            (Call::Certify(one), Call::Certify(two)) => is_same_certificate(one.get(), two.get()),
            (Call::Certificate(digest), Call::Certificate(of)) => is_same_digest(digest, of),
            (Call::Read(digest), Call::Read(of)) => is_same_digest(digest, of),
            (Call::Causal(digest), Call::Causal(of)) => is_same_digest(digest, of),
            (Call::Collect(round), Call::Collect(of)) => round == of,
            (Call::Missing(most), Call::Missing(of)) => most == of,
            (Call::MissingOf(digest), Call::MissingOf(of)) => is_same_digest(digest, of),
            (Call::Status, Call::Status) => true,
            (Call::AskWrite(subject), Call::AskWrite(of)) => subject == of,
            (Call::AskCertify(subject), Call::AskCertify(of)) => subject == of,
            _ => false,
        }
    }
}

/// Whether two digests are equal.
fn is_same_digest(one: &Digest, other: &Digest) -> bool
    ensures { IsTrue result ↔ one.now ≡ other.now }
{
    one == other
}

/// Whether two blocks are equal. Allocates nothing.
pub fn is_same_block(one: &Block, other: &Block) -> bool
    ensures { IsTrue result ↔ one.now ≡ other.now }
{
    one == other
}

/// Whether two certificates are equal.
fn is_same_certificate(one: &Certificate, other: &Certificate) -> bool
    ensures { IsTrue result ↔ one.now ≡ other.now }
{
    one == other
}
