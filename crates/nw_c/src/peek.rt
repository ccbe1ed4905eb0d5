//! What the first bytes of a text say.
ghost use Rattle.std.specs.Prelude.{◌≡◌, ◌∷◌, [], pos};
ghost use Rattle.nw_codec.specs.declared.message.Message.{Message};
ghost use Rattle.nw_decode.specs.declared.peek.Peek.{Peek};
ghost use Rattle.nw_decode.specs.Peek.{peek_of, BeginsWith, HasPeek};
ghost use Rattle.nw_codec.specs.Spelled.{Spells};
ghost use Rattle.nw_c.specs.Messages.{IsPeekOf};
ghost use Rattle.nw_c.specs.Codes.{IsFirstUnmet};
ghost use Rattle.nw_c.specs.declared.codes.TheConstants.{ABSENT, DONE};

use crate::codes::{ABSENT, DONE};
use crate::messages::{BLOCK, CERTIFICATE, CMessage, VOTE, about};
use nw_codec::Subject;
use nw_decode::{Peek, peek_message};
use nw_digest::Digest;

/// Writes what the first bytes of the text say: the kind of message, its round and author, the digest of a certificate or vote, and the signer
/// of a vote. A block's digest is not in its text, and is written as 0. Reads at most 43 bytes, and neither hashes nor verifies anything:
/// anybody can write these bytes, and the text may still be no message. If `nw_check` accepts the text, the checked message has the same
/// fields. Returns `NW_ABSENT` if the first byte is not that of a message, the version of a block is not 1, or the text ends before these
/// fields do.
#[unsafe(no_mangle)]
pub extern "C" fn nw_peek(text: &[u8], out: &mut CMessage) -> i32
    ensures known { (m : Message) → Spells text.now m → (result ≡ pos 0) × IsPeekOf (peek_of m) out.new }
    ensures told { result ≡ pos 0 → (p : Peek) × BeginsWith text.now p × IsPeekOf p out.new }
    ensures unchanged { (result ≡ pos 0 → ⊥) → out.new ≡ out.old }
    ensures code { IsFirstUnmet ((ABSENT, HasPeek text.now) ∷ []) (DONE ∷ []) result }
{
    match peek_message(text) {
        Some(peek) => {
            *out = message_of_peek(&peek);
            DONE
        }
        None => ABSENT,
    }
}

/// The kind, subject and signer of the peek. The digest of a block is 0.
fn message_of_peek(peek: &Peek) -> CMessage
    ensures { IsPeekOf peek.now result }
{
    match peek {
        Peek::Block { round, author } => {
            let subject = Subject {
                digest: Digest([0; 32]),
                round: *round,
                author: *author,
            };
            about(BLOCK, 0, &subject)
        }
        Peek::Certificate(subject) => about(CERTIFICATE, 0, subject),
        Peek::Vote { subject, signer } => about(VOTE, *signer, subject),
    }
}
