//! Encodes certificates and votes.
ghost use Rattle.std.specs.Prelude.{◌≡◌, ◌≤◌, ◌+◌, ◌*◌, ◌++◌, [], ◌∷◌, ℕ, List, length, take, drop, IfOk, OnOk, All};
ghost use Rattle.std.specs.List.{flat_map};
ghost use Rattle.nw_codec.specs.Grammar.{message, subject_bytes, seal_bytes};
ghost use Rattle.nw_codec.specs.Fits.{CertificateFits, certificate_size, vote_size};
ghost use Rattle.nw_codec.specs.Typed.{IsCertificate, IsSubject, IsSeal, IsVote};
ghost use Rattle.nw_codec.specs.Spelled.{Spells};

use super::sink::{Filled, Sink};
use crate::limits::{CERTIFICATE_TAG, VOTE_TAG};
use crate::{Certificate, Message, Seal, Subject, Vote};
use nw_digest::NoMemory;
use std::alloc::Global;

/// Writes the tag and the subject.
fn put_subject<S: Sink>(sink: &mut S, tag: u8, subject: &Subject) -> Result<(), S::Refusal>
    requires { 41 ≤ S.room sink.old }
    ensures text { OnOk result ((before : List ℕ) → S.holds sink.old before []
        → S.holds sink.new before ((tag ∷ []) ++ subject_bytes subject.now)) }
    ensures room { OnOk result (S.room sink.old ≤ S.room sink.new + 41) }
    ensures place { S.place sink.new ≡ S.place sink.old }
    ensures typed { OnOk result (IsSubject subject.now) }
{
    sink.put(&[tag])?;
    sink.put(&subject.bytes())
}

fn put_seals<S: Sink>(sink: &mut S, seals: &[Seal]) -> Result<(), S::Refusal>
    requires { 66 * length seals.now ≤ S.room sink.old }
    ensures text { OnOk result ((before text : List ℕ) → S.holds sink.old before text
        → S.holds sink.new before (text ++ flat_map seal_bytes seals.now)) }
    ensures place { S.place sink.new ≡ S.place sink.old }
    ensures typed { OnOk result (All IsSeal seals.now) }
{
    for seal in seals {
        sink.put(&seal.signer.to_be_bytes())?;
        sink.put(&seal.signature.0)?;
    }
    Ok(())
}

fn put_certificate<S: Sink>(sink: &mut S, certificate: &Certificate) -> Result<(), S::Refusal>
    requires fits { CertificateFits certificate.now }
    requires room { certificate_size certificate.now ≤ S.room sink.old }
    ensures text { OnOk result ((before : List ℕ) → S.holds sink.old before []
        → S.holds sink.new before (message (Message.Certificate certificate.now))) }
    ensures place { S.place sink.new ≡ S.place sink.old }
    ensures typed { OnOk result (IsCertificate certificate.now) }
{
    let seals = certificate.votes.as_slice();
    put_subject(sink, CERTIFICATE_TAG, &certificate.subject())?;
    sink.put(&(seals.len() as u16).to_be_bytes())?;
    put_seals(sink, seals)
}

fn put_vote<S: Sink>(sink: &mut S, vote: &Vote) -> Result<(), S::Refusal>
    requires { vote_size ≤ S.room sink.old }
    ensures text { OnOk result ((before : List ℕ) → S.holds sink.old before []
        → S.holds sink.new before (message (Message.Vote vote.now))) }
    ensures place { S.place sink.new ≡ S.place sink.old }
    ensures typed { OnOk result (IsVote vote.now) }
{
    put_subject(sink, VOTE_TAG, &vote.subject())?;
    sink.put(&vote.signer.to_be_bytes())?;
    sink.put(&vote.signature.0)
}

impl Certificate {
    /// The text of its message. The certificate must fit (`Certificate::fits`). `NoMemory` if the allocation fails.
    pub fn message(&self, alloc: Global) -> Result<Vec<u8>, NoMemory>
        requires { CertificateFits self.now }
        ensures { IfOk result (λ v. Spells v.items (Message.Certificate self.now)) }
    {
        let mut text = Vec::with_capacity(alloc, self.message_size())?;
        put_certificate(&mut text, self)?;
        Ok(text)
    }

    /// Writes the text of its message to the front of the buffer, and leaves the rest as it was. The certificate must fit
    /// (`Certificate::fits`), and the buffer must have at least `Certificate::message_size` bytes. It makes no allocation.
    pub fn write_message(&self, buffer: &mut [u8])
        requires fits { CertificateFits self.now }
        requires room { certificate_size self.now ≤ length buffer.old }
        ensures text { Spells (take (certificate_size self.now) buffer.new) (Message.Certificate self.now) }
        ensures rest { drop (certificate_size self.now) buffer.new ≡ drop (certificate_size self.now) buffer.old }
    {
        let mut buffer = Filled { buffer, filled: 0 };
        let Ok(()) = put_certificate(&mut buffer, self);
    }
}

impl Vote {
    /// The text of its message. `NoMemory` if the allocation fails.
    pub fn message(&self, alloc: Global) -> Result<Vec<u8>, NoMemory>
        ensures { IfOk result (λ v. Spells v.items (Message.Vote self.now)) }
    {
        let mut text = Vec::with_capacity(alloc, self.message_size())?;
        put_vote(&mut text, self)?;
        Ok(text)
    }

    /// Writes the text of its message to the front of the buffer, and leaves the rest as it was. The buffer must have at least
    /// `Vote::message_size` bytes. It makes no allocation.
    pub fn write_message(&self, buffer: &mut [u8])
        requires { vote_size ≤ length buffer.old }
        ensures text { Spells (take vote_size buffer.new) (Message.Vote self.now) }
        ensures rest { drop vote_size buffer.new ≡ drop vote_size buffer.old }
    {
        let mut buffer = Filled { buffer, filled: 0 };
        let Ok(()) = put_vote(&mut buffer, self);
    }
}
