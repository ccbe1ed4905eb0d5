//! Decodes messages. One pass checks the whole text and keeps its parts, and then the message is built from these parts.
ghost use Rattle.std.specs.Prelude.{◌≡◌, ◌≢◌, ◌↔◌, IfOk, IfErr, IsErrOf};
ghost use Rattle.nw_decode.specs.Faults.{IsFirstFault};
ghost use Rattle.nw_decode.specs.Parts.{Decodes};
ghost use Rattle.nw_codec.specs.Spelled.{Spells, IsSpelled, DecodingAllocates};

mod block;
mod certificate;
mod fields;

use crate::DecodeError;
use block::decode_block;
use certificate::{decode_certificate, decode_vote};
use fields::field;
pub(crate) use fields::{first, number_of, round_of, subject_of};
use nw_codec::{BLOCK_TAG, CERTIFICATE_TAG, Message, VOTE_TAG};
use std::alloc::Global;

/// The message of the text. It checks the whole text before it allocates.
///
/// If the text does not encode a message, it fails with the text's first fault in reading order. It fails with `NoMemory` only
/// for the text of a block or a certificate, so the text of a vote is always decoded. It takes time linear in the length of the
/// text.
pub fn decode_message(alloc: Global, text: &[u8]) -> Result<Message, DecodeError>
    ensures found { IfOk result (λ m. Spells text.now m) }
    ensures fault { (e : DecodeError) → e ≢ DecodeError.NoMemory
        → (IsErrOf result e ↔ IsFirstFault text.now e) }
    ensures memory { IsErrOf result DecodeError.NoMemory → DecodingAllocates text.now }
    ensures succeeds { IsSpelled text.now → IfErr result (λ e. e ≡ DecodeError.NoMemory) }
{
    decode_by_tag(alloc, text)
}

/// The message of the text. Its first byte names the kind of message.
fn decode_by_tag(alloc: Global, text: &[u8]) -> Result<Message, DecodeError>
    ensures { Decodes text.now result }
{
    let (tag, rest) = field::<1>(text)?;
    match tag[0] {
        BLOCK_TAG => decode_block(alloc, rest),
        CERTIFICATE_TAG => decode_certificate(alloc, rest),
        VOTE_TAG => decode_vote(rest),
        _ => Err(DecodeError::Tag),
    }
}
