//! The texts that are signed. They are arrays, so making them allocates nothing.
ghost use Rattle.std.specs.Prelude.{◌≡◌};
ghost use Rattle.nw_sig.specs.Signed.{text_of_block, text_of_vote};

use nw_codec::Subject;
use nw_digest::Digest;

/// The 36 bytes that the author of a block signs: `NWBK` and the block's digest (docs/FORMATS.md).
pub fn text_of_block(digest: &Digest) -> [u8; 36]
    ensures { result ≡ text_of_block digest.now }
{
    let mut text = [0; 36];
    text[..4].copy_from_slice(b"NWBK");
    text[4..].copy_from_slice(&digest.0);
    text
}

/// The 44 bytes that a member signs to vote for a block: `NWVT`, and the block's digest, its round in six bytes and its author in
/// two (docs/FORMATS.md). Both numbers are big-endian.
pub fn text_of_vote(subject: &Subject) -> [u8; 44]
    ensures { result ≡ text_of_vote subject.now }
{
    let mut text = [0; 44];
    text[..4].copy_from_slice(b"NWVT");
    text[4..].copy_from_slice(&subject.bytes());
    text
}
