//! Digests, and the texts that members sign.
ghost use Rattle.std.specs.Prelude.{◌≡◌, ◌^◌, ◌∷◌, ◌<◌, ◌≤◌, [], pos, take, length};
ghost use Rattle.sha2.specs.Sha256.{sha256};
ghost use Rattle.nw_codec.specs.Spelled.{Spells};
ghost use Rattle.nw_sig.specs.Signed.{text_of_block, text_of_vote};
ghost use Rattle.nw_c.specs.Plain.{IsTooLong, digest_in, subject_in};
ghost use Rattle.nw_c.specs.Votes.{vote_of};
ghost use Rattle.nw_c.specs.Codes.{IsFirstUnmet};
ghost use Rattle.nw_c.specs.declared.codes.TheConstants.{BAD_ROUND, DONE, SMALL};

use crate::codes::{BAD_ROUND, DONE};
use crate::plain::{CDigest, CSignature, CSubject};
use crate::texts::hand_out_vote;
use nw_codec::{Signature, Vote};
use nw_digest::digest_of;
use nw_sig::{text_of_block, text_of_vote};

/// The 36 bytes that the author of a block signs.
#[repr(C)]
#[derive(Clone, Copy)]
pub struct CBlockText {
    pub bytes: [u8; 36],
}

/// The 44 bytes that a member signs to vote for a block.
#[repr(C)]
#[derive(Clone, Copy)]
pub struct CVoteText {
    pub bytes: [u8; 44],
}

/// Writes the SHA-256 digest of the bytes.
#[unsafe(no_mangle)]
pub extern "C" fn nw_digest_of(bytes: &[u8], out: &mut CDigest)
    ensures { out.new.bytes ≡ sha256 bytes.now }
{
    *out = CDigest::of(&digest_of(bytes));
}

/// Writes the text that the author of a block with this digest signs.
#[unsafe(no_mangle)]
pub extern "C" fn nw_text_of_block(digest: &CDigest, out: &mut CBlockText)
    ensures { out.new.bytes ≡ text_of_block (digest_in digest.now) }
{
    *out = CBlockText {
        bytes: text_of_block(&digest.get()),
    };
}

/// Writes the text that a member signs to vote for the block of this digest, round and author. Returns `NW_BAD_ROUND` if the round is not
/// below 2^48.
#[unsafe(no_mangle)]
pub extern "C" fn nw_text_of_vote(subject: &CSubject, out: &mut CVoteText) -> i32
    ensures text { result ≡ pos 0 → out.new.bytes ≡ text_of_vote (subject_in subject.now) }
    ensures unchanged { (result ≡ pos 0 → ⊥) → out.new ≡ out.old }
    ensures code { IsFirstUnmet ((BAD_ROUND, subject.now.round < 2 ^ 48) ∷ []) (DONE ∷ []) result }
{
    let Some(subject) = subject.get() else {
        return BAD_ROUND;
    };
    *out = CVoteText {
        bytes: text_of_vote(&subject),
    };
    DONE
}

/// Writes the message of the signer's vote for the block of this digest, round and author: 107 bytes. Writes this size to `needed`. Returns
/// `NW_BAD_ROUND` if the round is not below 2^48, and `NW_SMALL` if the buffer is smaller. It does not check the signature, and needs no
/// memory.
#[unsafe(no_mangle)]
pub extern "C" fn nw_vote_message(
    subject: &CSubject,
    signer: u16,
    signature: &CSignature,
    buffer: &mut [u8],
    needed: &mut usize,
) -> i32
    ensures message { result ≡ pos 0 → Spells (take needed.new buffer.new)
        (vote_of subject.now signer signature.now) }
    ensures small { result ≡ SMALL
        → IsTooLong (λ text. Spells text (vote_of subject.now signer signature.now)) (length buffer.old) needed.new }
    ensures unchanged { (result ≡ pos 0 → ⊥) → buffer.new ≡ buffer.old }
    ensures needed { (result ≡ pos 0 → ⊥) → (result ≡ SMALL → ⊥) → needed.new ≡ needed.old }
    ensures code { IsFirstUnmet
        ((BAD_ROUND, subject.now.round < 2 ^ 48) ∷ (SMALL, needed.new ≤ length buffer.old) ∷ [])
        (DONE ∷ []) result }
{
    let Some(subject) = subject.get() else {
        return BAD_ROUND;
    };
    let vote = Vote {
        digest: subject.digest,
        round: subject.round,
        author: subject.author,
        signer,
        signature: Signature(signature.bytes),
    };
    hand_out_vote(&vote, buffer, needed)
}
