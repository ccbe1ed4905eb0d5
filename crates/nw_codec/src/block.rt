//! Blocks of transactions, and references to blocks.
ghost use Rattle.std.specs.Prelude.{◌≡◌, ◌↔◌, ◌<◌, ◌≤◌, ℕ, List, length, IsTrue};
ghost use Rattle.std.specs.List.Sorted.{IsStrictlyIncreasing};
ghost use Rattle.nw_codec.specs.declared.certificate.Signature.{Signature};
ghost use Rattle.nw_codec.specs.declared.message.Message.TheVariants as messages;
ghost use Rattle.nw_codec.specs.Fits.{Fits, authors, block_size, body_size};
ghost use Rattle.nw_codec.specs.Limits.{longest_body, most_parents};
ghost use Rattle.nw_codec.specs.Spelled.{Spells};
ghost use Rattle.nw_codec.specs.Subject.{block_subject};

use crate::Subject;
use crate::limits::{MAX_BODY, MAX_PARENTS, MAX_TRANSACTIONS, PARENT_BYTES, SIGNATURE_BYTES};
use crate::transactions::Transactions;
use nw_digest::{Digest, InRound, Round, Sequence};

/// A reference to a parent: its author and its digest.
#[derive(Clone, Copy, Debug, PartialEq, Eq)]
pub struct Ref {
    pub author: u16,
    pub digest: Digest,
}

/// A block: transactions, and references to blocks of the preceding round.
#[derive(Debug, PartialEq, Eq, Drop)]
pub struct Block {
    pub author: u16,
    pub round: Round,
    pub parents: Sequence<Ref>,
    pub transactions: Transactions,
}

impl Block {
    /// Whether the block keeps the limits of the format: at most 100 parents with strictly ascending authors, at most
    /// 1,024 transactions of at most 65,536 bytes each, and a body of at most 1,048,576 bytes.
    pub fn fits(&self) -> bool
        ensures { IsTrue result ↔ Fits self.now }
    {
        let parents = self.parents.as_slice();
        parents.len() <= MAX_PARENTS
            && is_ascending(parents)
            && self.transactions.len() <= MAX_TRANSACTIONS
            && self.size() <= MAX_BODY
    }

    /// The subject of the votes and the certificate for the block. `digest` must be its digest.
    pub fn subject(&self, digest: Digest) -> Subject
        ensures { result ≡ block_subject digest self.now }
    {
        Subject {
            digest,
            round: self.round,
            author: self.author,
        }
    }

    /// The size of its body in bytes. The block must fit (`Block::fits`).
    pub fn body_size(&self) -> usize
        requires { Fits self.now }
        ensures size { result ≡ body_size self.now }
        ensures small { result ≤ longest_body }
    {
        self.size()
    }

    /// The size of its message in bytes: the tag, the body and a signature. The block must fit (`Block::fits`).
    pub fn message_size(&self) -> usize
        requires { Fits self.now }
        ensures size { result ≡ block_size self.now }
        ensures spelled { (text : List ℕ) (s : Signature) → Spells text (messages.Block self.now s)
            → length text ≡ result }
    {
        1 + self.body_size() + SIGNATURE_BYTES
    }

    /// The size of its body in bytes. It must have at most 100 parents.
    fn size(&self) -> usize
        requires { length self.now.parents ≤ most_parents }
        ensures { result ≡ body_size self.now }
    {
        13 + PARENT_BYTES * self.parents.as_slice().len() + self.transactions.size()
    }
}

impl InRound for Block {
    ghost round_of = { λ b. b.round };

    fn round(&self) -> Round {
        self.round
    }
}

/// Whether each author is greater than the preceding one.
fn is_ascending(parents: &[Ref]) -> bool
    ensures { IsTrue result ↔ IsStrictlyIncreasing (authors parents.now) }
{
    parents.is_sorted_by(|before, next| before.author < next.author)
}
