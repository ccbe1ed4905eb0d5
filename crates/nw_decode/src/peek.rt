//! Reads the fixed fields at the front of a message's text, and nothing after them.
ghost use Rattle.std.specs.Prelude.{◌≡◌, ◌↔◌, ◌∷◌, Some, IfSome, IsSome};
ghost use Rattle.nw_codec.specs.declared.message.Message.{Message};
ghost use Rattle.nw_decode.specs.Peek.{peek_of, BeginsWith, HasPeek, Peeks};
ghost use Rattle.nw_codec.specs.Spelled.{Spells};

use crate::decode::{first, number_of, round_of, subject_of};
use nw_codec::{BLOCK_TAG, CERTIFICATE_TAG, SUBJECT_BYTES, Subject, VERSION, VOTE_TAG};
use nw_digest::Round;

/// What the first bytes of a message's text say: the kind of message, and what it is about.
#[derive(Clone, Copy, Debug, PartialEq, Eq)]
pub enum Peek {
    /// A block of this round and author.
    Block { round: Round, author: u16 },
    /// A certificate for this subject.
    Certificate(Subject),
    /// A vote of this signer for this subject.
    Vote { subject: Subject, signer: u16 },
}

/// What the first bytes of the text say. It reads at most the first 43 bytes, hashes nothing and makes no allocation.
///
/// If the text encodes a message, these are the message's kind and fields. Any other text may also begin with such fields, so the
/// rest of the text and all signatures are still to be checked. Returns `None` exactly when the first byte is no tag of a message,
/// the version of a block is not 1, or the text ends before these fields do.
pub fn peek_message(text: &[u8]) -> Option<Peek>
    ensures known { (m : Message) → Spells text.now m → result ≡ Some (peek_of m) }
    ensures fields { IfSome result (λ p. BeginsWith text.now p) }
    ensures found { IsSome result ↔ HasPeek text.now }
{
    peek_by_tag(text)
}

/// What the first bytes of the text say. Its first byte names the kind of message.
fn peek_by_tag(text: &[u8]) -> Option<Peek>
    ensures { Peeks text.now result }
{
    let (tag, rest) = text.split_first()?;
    match *tag {
        BLOCK_TAG => peek_block(rest),
        CERTIFICATE_TAG => peek_certificate(rest),
        VOTE_TAG => peek_vote(rest),
        _ => None,
    }
}

/// What the first bytes of a block's text say. The text is given without its tag.
fn peek_block(text: &[u8]) -> Option<Peek>
    ensures { Peeks (BLOCK_TAG ∷ text.now) result }
{
    if text.len() < 9 || text[0] != VERSION {
        return None;
    }
    let (author, rest) = number_of(&text[1..]);
    let (round, _) = round_of(rest);
    Some(Peek::Block { round, author })
}

/// What the first bytes of a certificate's text say. The text is given without its tag.
fn peek_certificate(text: &[u8]) -> Option<Peek>
    ensures { Peeks (CERTIFICATE_TAG ∷ text.now) result }
{
    if text.len() < SUBJECT_BYTES {
        return None;
    }
    let (subject, _) = first::<40>(text);
    Some(Peek::Certificate(subject_of(subject)))
}

/// What the first bytes of a vote's text say. The text is given without its tag.
fn peek_vote(text: &[u8]) -> Option<Peek>
    ensures { Peeks (VOTE_TAG ∷ text.now) result }
{
    if text.len() < SUBJECT_BYTES + 2 {
        return None;
    }
    let (subject, rest) = first::<40>(text);
    let (signer, _) = number_of(rest);
    Some(Peek::Vote {
        subject: subject_of(subject),
        signer,
    })
}
