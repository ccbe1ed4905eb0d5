//! Votes: one member's signature for a block.
ghost use Rattle.std.specs.Prelude.{◌≡◌, ℕ, List, length};
ghost use Rattle.nw_codec.specs.declared.message.Message.TheVariants as messages;
ghost use Rattle.nw_codec.specs.Fits.{vote_size};
ghost use Rattle.nw_codec.specs.Spelled.{Spells};
ghost use Rattle.nw_codec.specs.Subject.{vote_subject};

use crate::limits::{SEAL_BYTES, SUBJECT_BYTES};
use crate::{Signature, Subject};
use nw_digest::{Digest, Round};

/// A vote: the signer confirms that the block with this digest is the author's for this round.
#[derive(Clone, Copy, Debug, PartialEq, Eq)]
pub struct Vote {
    pub digest: Digest,
    pub round: Round,
    pub author: u16,
    pub signer: u16,
    pub signature: Signature,
}

impl Vote {
    /// Its subject: the block for which it is a vote.
    pub fn subject(&self) -> Subject
        ensures { result ≡ vote_subject self.now }
    {
        Subject {
            digest: self.digest,
            round: self.round,
            author: self.author,
        }
    }

    /// The size of its message in bytes: the tag, the subject and a seal.
    pub fn message_size(&self) -> usize
        ensures size { result ≡ vote_size }
        ensures spelled { (text : List ℕ) → Spells text (messages.Vote self.now) → length text ≡ result }
    {
        1 + SUBJECT_BYTES + SEAL_BYTES
    }
}
