//! Subjects: what votes and certificates name.
ghost use Rattle.std.specs.Prelude.{◌≡◌, ◌++◌, ◌<◌, ◌^◌, length};
ghost use Rattle.std.specs.Int.{to_be_bytes, w16};
ghost use Rattle.nw_codec.specs.Grammar.{round_bytes, subject_bytes};

use nw_digest::{Digest, Round};

/// The subject of a vote or a certificate: the digest, the round and the author of a block.
#[derive(Clone, Copy, Debug, PartialEq, Eq)]
pub struct Subject {
    pub digest: Digest,
    pub round: Round,
    pub author: u16,
}

impl Subject {
    /// Its encoding in messages and in signed texts: the digest, the round in six bytes and the author in two. Both numbers are
    /// big-endian. Makes no allocation.
    pub fn bytes(&self) -> [u8; 40]
        ensures text { result ≡ subject_bytes self.now }
        ensures ranges { (length self.now.digest.0 ≡ 32) × (self.now.round < 2 ^ 48)
            × (self.now.author < 2 ^ 16) }
    {
        let mut bytes = [0; 40];
        bytes[..32].copy_from_slice(&self.digest.0);
        bytes[32..].copy_from_slice(&slot_bytes(self.round, self.author));
        bytes
    }
}

/// The round in six bytes and the author in two, both big-endian.
fn slot_bytes(round: Round, author: u16) -> [u8; 8]
    ensures text { result ≡ round_bytes round ++ to_be_bytes w16 author }
    ensures low { round < 2 ^ 48 }
{
    let mut bytes = [0; 8];
    bytes[..6].copy_from_slice(&round.get().to_be_bytes()[2..]);
    bytes[6..].copy_from_slice(&author.to_be_bytes());
    bytes
}
