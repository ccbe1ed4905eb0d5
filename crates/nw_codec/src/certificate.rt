//! Certificates: a block's digest with the signatures of members that voted for it.
ghost use Rattle.std.specs.Prelude.{◌≡◌, ◌↔◌, ℕ, List, length, IsTrue};
ghost use Rattle.std.specs.List.Sorted.{IsStrictlyIncreasing};
ghost use Rattle.nw_codec.specs.declared.message.Message.TheVariants as messages;
ghost use Rattle.nw_codec.specs.Fits.{CertificateFits, certificate_size, signers};
ghost use Rattle.nw_codec.specs.Spelled.{Spells};
ghost use Rattle.nw_codec.specs.Subject.{certificate_subject};

use crate::Subject;
use crate::limits::{MAX_VOTES, SEAL_BYTES, SUBJECT_BYTES};
use nw_digest::{Digest, InRound, Round, Sequence};

/// A signature of 64 bytes.
#[derive(Clone, Copy, Debug, PartialEq, Eq)]
pub struct Signature(pub [u8; 64]);

/// A member's number and its signature of the vote.
#[derive(Clone, Copy, Debug, PartialEq, Eq)]
pub struct Seal {
    pub signer: u16,
    pub signature: Signature,
}

/// A certificate: the signers confirm that the block with this digest is the author's for this round.
#[derive(Debug, PartialEq, Eq, Drop)]
pub struct Certificate {
    pub digest: Digest,
    pub round: Round,
    pub author: u16,
    /// The seals of the votes, in ascending order of their signers.
    pub votes: Sequence<Seal>,
}

impl Certificate {
    /// Whether the certificate keeps the limits of the format: at most 100 votes with strictly ascending signers.
    pub fn fits(&self) -> bool
        ensures { IsTrue result ↔ CertificateFits self.now }
    {
        let votes = self.votes.as_slice();
        votes.len() <= MAX_VOTES && is_ascending(votes)
    }

    /// Its subject: the block for which it is a certificate.
    pub fn subject(&self) -> Subject
        ensures { result ≡ certificate_subject self.now }
    {
        Subject {
            digest: self.digest,
            round: self.round,
            author: self.author,
        }
    }

    /// The size of its message in bytes: the tag, the subject, the number of votes in two bytes, and the votes. The certificate
    /// must fit (`Certificate::fits`).
    pub fn message_size(&self) -> usize
        requires { CertificateFits self.now }
        ensures size { result ≡ certificate_size self.now }
        ensures spelled { (text : List ℕ) → Spells text (messages.Certificate self.now)
            → length text ≡ result }
    {
        1 + SUBJECT_BYTES + 2 + SEAL_BYTES * self.votes.as_slice().len()
    }
}

impl InRound for Certificate {
    ghost round_of = { λ c. c.round };

    fn round(&self) -> Round {
        self.round
    }
}

/// Whether each signer is greater than the preceding one.
fn is_ascending(votes: &[Seal]) -> bool
    ensures { IsTrue result ↔ IsStrictlyIncreasing (signers votes.now) }
{
    votes.is_sorted_by(|before, next| before.signer < next.signer)
}
