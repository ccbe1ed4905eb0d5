//! Writing texts to the caller's buffer.
ghost use Rattle.std.specs.Prelude.{◌≡◌, ◌∷◌, ◌<◌, ◌≤◌, [], pos, take, length};
ghost use Rattle.nw_codec.specs.Fits.{CertificateFits, Fits, body_size};
ghost use Rattle.nw_codec.specs.Grammar.{body};
ghost use Rattle.nw_codec.specs.Spelled.{Spells};
ghost use Rattle.nw_codec.specs.declared.message.Message.TheVariants as Message;
ghost use Rattle.nw_c.specs.Codes.{IsFirstUnmet};
ghost use Rattle.nw_c.specs.Plain.{IsTooLong};
ghost use Rattle.nw_c.specs.declared.codes.TheConstants.{DONE, SMALL};

use crate::codes::{DONE, SMALL};
use nw_codec::{Block, Certificate, Signature, Vote};

/// Writes the size of the block's body to `needed`, and the body to the start of the buffer. Returns `SMALL` if the buffer is smaller.
pub(crate) fn hand_out_body(block: &Block, buffer: &mut [u8], needed: &mut usize) -> i32
    requires { Fits block.now }
    ensures written { result ≡ pos 0 → take needed.new buffer.new ≡ body block.now }
    ensures small { result ≡ SMALL → (needed.new ≡ body_size block.now) × (length buffer.old < needed.new) }
    ensures unchanged { (result ≡ pos 0 → ⊥) → buffer.new ≡ buffer.old }
    ensures code { IsFirstUnmet ((SMALL, needed.new ≤ length buffer.old) ∷ []) (DONE ∷ []) result }
{
    *needed = block.body_size();
    if buffer.len() < *needed {
        return SMALL;
    }
    block.write_body(buffer);
    DONE
}

/// Does the same for the message of the block with this signature.
pub(crate) fn hand_out_block(
    block: &Block,
    signature: &Signature,
    buffer: &mut [u8],
    needed: &mut usize,
) -> i32
    requires { Fits block.now }
    ensures written { result ≡ pos 0 → Spells (take needed.new buffer.new) (Message.Block block.now signature.now) }
    ensures small { result ≡ SMALL
        → IsTooLong (λ text. Spells text (Message.Block block.now signature.now)) (length buffer.old) needed.new }
    ensures unchanged { (result ≡ pos 0 → ⊥) → buffer.new ≡ buffer.old }
    ensures code { IsFirstUnmet ((SMALL, needed.new ≤ length buffer.old) ∷ []) (DONE ∷ []) result }
{
    *needed = block.message_size();
    if buffer.len() < *needed {
        return SMALL;
    }
    block.write_message(signature, buffer);
    DONE
}

/// Does the same for the message of the certificate.
pub(crate) fn hand_out_certificate(
    certificate: &Certificate,
    buffer: &mut [u8],
    needed: &mut usize,
) -> i32
    requires { CertificateFits certificate.now }
    ensures written { result ≡ pos 0 → Spells (take needed.new buffer.new) (Message.Certificate certificate.now) }
    ensures small { result ≡ SMALL
        → IsTooLong (λ text. Spells text (Message.Certificate certificate.now)) (length buffer.old) needed.new }
    ensures unchanged { (result ≡ pos 0 → ⊥) → buffer.new ≡ buffer.old }
    ensures code { IsFirstUnmet ((SMALL, needed.new ≤ length buffer.old) ∷ []) (DONE ∷ []) result }
{
    *needed = certificate.message_size();
    if buffer.len() < *needed {
        return SMALL;
    }
    certificate.write_message(buffer);
    DONE
}

/// Does the same for the message of the vote.
pub(crate) fn hand_out_vote(vote: &Vote, buffer: &mut [u8], needed: &mut usize) -> i32
    ensures written { result ≡ pos 0 → Spells (take needed.new buffer.new) (Message.Vote vote.now) }
    ensures small { result ≡ SMALL
        → IsTooLong (λ text. Spells text (Message.Vote vote.now)) (length buffer.old) needed.new }
    ensures unchanged { (result ≡ pos 0 → ⊥) → buffer.new ≡ buffer.old }
    ensures code { IsFirstUnmet ((SMALL, needed.new ≤ length buffer.old) ∷ []) (DONE ∷ []) result }
{
    *needed = vote.message_size();
    if buffer.len() < *needed {
        return SMALL;
    }
    vote.write_message(buffer);
    DONE
}
