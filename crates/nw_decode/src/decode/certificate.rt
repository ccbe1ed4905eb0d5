//! Decodes certificates and votes. One pass checks the text and keeps its parts, and then the value is built from these parts.
ghost use Rattle.std.specs.Prelude.{◌≡◌, ℕ, ◌*◌, ◌≤◌, ◌∷◌, ◌++◌};
ghost use Rattle.std.specs.Prelude.{length, All, MatchResult, IfOk};
ghost use Rattle.std.specs.List.{flat_map};
ghost use Rattle.nw_codec.specs.declared.certificate.Certificate.{Certificate};
ghost use Rattle.nw_codec.specs.declared.message.Message.TheVariants as messages;
ghost use Rattle.nw_decode.specs.Faults.{OfCertificate, OfVote, AtDigest};
ghost use Rattle.nw_decode.specs.Faults.{FaultFrom};
ghost use Rattle.nw_codec.specs.Grammar.{seal_bytes};
ghost use Rattle.nw_decode.specs.Parts.{AreCertificateParts, Decodes};
ghost use Rattle.nw_codec.specs.Spelled.{Spells};
ghost use Rattle.nw_codec.specs.Typed.{IsSeal};

use super::fields::{
    at_end, field, first, number_of, read_count, read_items, read_last_signature, read_number,
    subject_of,
};
use crate::DecodeError;
use nw_codec::{
    CERTIFICATE_TAG, Certificate, MAX_VOTES, Message, SEAL_BYTES, Seal, Signature, VOTE_TAG, Vote,
};
use nw_digest::{NoMemory, Sequence};
use std::alloc::Global;

/// The checked fields of a certificate's text. They are still encoded.
#[derive(Drop)]
struct CertificateParts<'a> {
    subject: &'a [u8; 40],
    seals: &'a [u8],
}

/// The message of a certificate. The text is given without its tag.
pub(super) fn decode_certificate(alloc: Global, text: &[u8]) -> Result<Message, DecodeError>
    ensures { Decodes (CERTIFICATE_TAG ∷ text.now) result }
{
    let parts = read_certificate(text)?;
    Ok(Message::Certificate(certificate_of(alloc, parts)?))
}

/// The message of a vote. The text is given without its tag. Makes no allocation.
pub(super) fn decode_vote(text: &[u8]) -> Result<Message, DecodeError>
    ensures { MatchResult result (λ m. Spells (VOTE_TAG ∷ text.now) m)
        (λ e. FaultFrom (AtDigest OfVote) text.now e) }
{
    let (subject, rest) = field::<40>(text)?;
    let (signer, rest) = read_number(rest)?;
    let signature = read_last_signature(rest)?;
    let subject = subject_of(subject);
    Ok(Message::Vote(Vote {
        digest: subject.digest,
        round: subject.round,
        author: subject.author,
        signer,
        signature,
    }))
}

/// The parts of a certificate's text without the tag.
fn read_certificate(text: &[u8]) -> Result<CertificateParts<'_>, DecodeError>
    ensures { MatchResult result
        (λ p. (c : Certificate) × Spells (CERTIFICATE_TAG ∷ text.now) (messages.Certificate c)
        × AreCertificateParts c p.subject.now p.seals.now)
        (λ e. FaultFrom (AtDigest OfCertificate) text.now e) }
{
    let (subject, rest) = field::<40>(text)?;
    let (count, rest) = read_count(MAX_VOTES, DecodeError::TooManyVotes, rest)?;
    let (seals, rest) = read_items::<64>(count, DecodeError::VoteOrder, rest)?;
    at_end(rest)?;
    Ok(CertificateParts { subject, seals })
}

/// The certificate with these parts. Fails with `NoMemory` if an allocation fails.
fn certificate_of(alloc: Global, parts: CertificateParts<'_>) -> Result<Certificate, NoMemory>
    requires { (c : Certificate) × AreCertificateParts c parts.subject.now parts.seals.now }
    ensures { (c : Certificate) → AreCertificateParts c parts.entry.subject.now parts.entry.seals.now
        → IfOk result (λ certificate. certificate ≡ c) }
{
    let votes = seals_of(alloc, parts.seals)?;
    let subject = subject_of(parts.subject);
    Ok(Certificate {
        digest: subject.digest,
        round: subject.round,
        author: subject.author,
        votes,
    })
}

/// The seals that the text encodes.
fn seals_of(alloc: Global, text: &[u8]) -> Result<Sequence<Seal>, NoMemory>
    requires { (count : ℕ) × (length text.now ≡ 66 * count) }
    ensures { IfOk result (λ seals. All IsSeal seals × (text.now ≡ flat_map seal_bytes seals)) }
{
    let count = text.len() / SEAL_BYTES;
    let mut seals = Vec::with_capacity(alloc, count)?;
    let mut rest = text;
    for _ in 0..count {
        let (seal, after) = seal_of(rest);
        seals.push(seal)?;
        rest = after;
    }
    Ok(Sequence::new(seals))
}

/// The seal at the front of the text, and the rest.
fn seal_of(text: &[u8]) -> (Seal, &[u8])
    requires { 66 ≤ length text.now }
    ensures { IsSeal result.0 × (text.now ≡ seal_bytes result.0 ++ result.1.now) }
{
    let (signer, rest) = number_of(text);
    let (signature, rest) = first::<64>(rest);
    (
        Seal {
            signer,
            signature: Signature(*signature),
        },
        rest,
    )
}
