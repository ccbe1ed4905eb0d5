//! The replies to writes and certificates.
ghost use Rattle.std.specs.Prelude.{◌≡◌, None, Some, is_some, if◌then◌else◌};
ghost use Rattle.std.specs.Option.{option_and_then, option_copied};
ghost use Rattle.nw_model.specs.declared.reply.WriteReply.TheVariants as write;
ghost use Rattle.nw_model.specs.State.{certificate_slot, subject_slot};
ghost use Rattle.nw_model.specs.Step.{write_reply, asked_write_reply, new_write_reply, asked_certify_reply};
ghost use Rattle.nw_model.specs.Step.{has_other_slot, is_collected, is_digest, is_slot, is_too_far};

use super::StateTables;
use nw_codec::{Block, Certificate, Subject};
use nw_digest::{Digest, Round, Shared};
use nw_model::{CertifyReply, WriteReply};

impl StateTables {
    /// The reply that a write of the block under the digest would get now. Allocates nothing.
    pub fn write_reply(&self, digest: &Digest, block: &Block) -> WriteReply
        ensures { result ≡ write_reply self.now.bounds self.now.state digest.now block.now }
    {
        if let Some(refusal) = self.refusal_of_round(block.round) {
            return refusal;
        }
        match self.block(digest) {
            None => self.new_write_reply(&block.subject(*digest)),
            Some(held) if block == held.get() => WriteReply::Held,
            Some(_) => WriteReply::Clash,
        }
    }

    /// Whether the round is at or above the garbage round plus the window.
    fn is_too_far(&self, round: Round) -> bool
        ensures { result ≡ is_too_far self.now.bounds self.now.state round }
    {
        round.get() >= self.floor.get() + u64::from(self.window)
    }

    /// The reply that a write of this round would get for its round alone, if it is below or above the rounds that are accepted.
    fn refusal_of_round(&self, round: Round) -> Option<WriteReply>
        ensures { result ≡ (if is_collected self.now.state round
            then Some (write.Collected self.now.state.floor)
            else if is_too_far self.now.bounds self.now.state round then Some write.TooFar else None) }
    {
        if round < self.floor {
            return Some(WriteReply::Collected(self.floor));
        }
        if self.is_too_far(round) {
            return Some(WriteReply::TooFar);
        }
        None
    }

    /// The reply that a write with this subject would get now: `Held` if any block is held under its digest. Allocates nothing.
    pub fn asked_write_reply(&self, subject: &Subject) -> WriteReply
        ensures { result ≡ asked_write_reply self.now.bounds self.now.state subject.now }
    {
        if let Some(refusal) = self.refusal_of_round(subject.round) {
            return refusal;
        }
        if self.holds(&subject.digest) {
            return WriteReply::Held;
        }
        self.new_write_reply(subject)
    }

    /// The reply that a write with this subject would get now if its round is accepted and no block is held under its digest.
    fn new_write_reply(&self, subject: &Subject) -> WriteReply
        ensures { result ≡ new_write_reply self.now.bounds self.now.state
            subject.now.digest (subject_slot subject.now) }
    {
        let certificate = self.certificate(&subject.digest);
        if is_misfit(certificate, subject) {
            return WriteReply::Misfit;
        }
        let first = self.first(subject.round, subject.author);
        if let Some(other_first) = other_first(certificate, first, &subject.digest) {
            return WriteReply::Equivocates(other_first);
        }
        if self.blocks() >= self.limit as usize {
            return WriteReply::Full;
        }
        WriteReply::Stored {
            vote: first.is_none(),
        }
    }

    /// The reply that a certificate for this subject would get now. Allocates nothing.
    pub fn asked_certify_reply(&self, subject: &Subject) -> CertifyReply
        ensures { result ≡ asked_certify_reply self.now.bounds self.now.state subject.now }
    {
        if subject.round < self.floor {
            return CertifyReply::Collected(self.floor);
        }
        if self.is_too_far(subject.round) {
            return CertifyReply::TooFar;
        }
        if let Some(held) = self.certificate(&subject.digest) {
            let held = held.get();
            return if is_in_slot(held.round, held.author, subject) {
                CertifyReply::Already
            } else {
                CertifyReply::Misfit
            };
        }
        if let Some(block) = self.block(&subject.digest) {
            let block = block.get();
            if !is_in_slot(block.round, block.author, subject) {
                return CertifyReply::Misfit;
            }
        }
        if let Some(other) = self.certified(subject.round, subject.author) {
            return CertifyReply::Conflict(other);
        }
        if self.certificates() >= self.limit as usize {
            return CertifyReply::Full;
        }
        CertifyReply::Certified
    }
}

/// Whether there is a certificate, and it is for another round or author than the subject's.
fn is_misfit(certificate: Option<&Shared<Certificate>>, subject: &Subject) -> bool
    ensures { result ≡ has_other_slot certificate_slot
        (option_copied certificate.entry) (subject_slot subject.now) }
{
    match certificate {
        None => false,
        Some(certificate) => {
            let certificate = certificate.get();
            !is_in_slot(certificate.round, certificate.author, subject)
        }
    }
}

/// Whether this round and author are the subject's.
fn is_in_slot(round: Round, author: u16, subject: &Subject) -> bool
    ensures { result ≡ is_slot (round, author) (subject_slot subject.now) }
{
    (round, author) == (subject.round, subject.author)
}

/// The first digest of a slot, if it is another digest and this one has no certificate.
fn other_first(
    certificate: Option<&Shared<Certificate>>,
    first: Option<Digest>,
    digest: &Digest,
) -> Option<Digest>
    ensures { result ≡ (if is_some (option_copied certificate.entry)
        then None
        else option_and_then (λ first. if is_digest first digest.now then None else Some first)
        first) }
{
    match (certificate, first) {
        (None, Some(first)) if first != *digest => Some(first),
        _ => None,
    }
}
