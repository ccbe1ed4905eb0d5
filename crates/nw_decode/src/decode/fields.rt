//! Readers of fields and of lists of items, which blocks, certificates and votes share.
ghost use Rattle.std.specs.Prelude.{◌≡◌, ℕ, suc, ◌+◌, ◌^◌, ◌<◌, ◌≤◌, ◌++◌, [], Option, Some, None};
ghost use Rattle.std.specs.Prelude.{List, length, take, drop, IfOk, MatchResult};
ghost use Rattle.nw_decode.specs.declared.error.DecodeError.TheVariants.{Short};
ghost use Rattle.nw_decode.specs.Faults.{Stage, AtEnd, comes_after, Reaches, FaultFrom};
ghost use Rattle.nw_decode.specs.Parts.{NumberAt, RoundAt, ItemsAt, LastSignature};
ghost use Rattle.nw_decode.specs.Parts.{ReadsCount, AreItems, IsLast};
ghost use Rattle.nw_codec.specs.Grammar.{round_bytes, subject_bytes};
ghost use Rattle.nw_codec.specs.Typed.{IsSubject};

use crate::DecodeError;
use nw_codec::{Signature, Subject};
use nw_digest::{Digest, Round};

/// The field of `N` bytes at the front of the text, and the rest. `Short` if there are fewer bytes.
pub(super) fn field<const N: usize>(text: &[u8]) -> Result<(&[u8; N], &[u8]), DecodeError>
    ensures { MatchResult result
        (λ x. (N ≤ length text.now) × (x.0.now ≡ take N text.now) × (x.1.now ≡ drop N text.now))
        (λ e. (length text.now < N) × (e ≡ Short)) }
{
    text.split_first_chunk::<N>().ok_or(DecodeError::Short)
}

/// The first `N` bytes of the text, and the rest.
pub(crate) fn first<const N: usize>(text: &[u8]) -> (&[u8; N], &[u8])
    requires { N ≤ length text.now }
    ensures front { result.0.now ≡ take N text.now }
    ensures back { result.1.now ≡ drop N text.now }
{
    text.split_first_chunk::<N>().unwrap()
}

/// The number of two bytes at the front of the text, and the rest.
pub(crate) fn number_of(text: &[u8]) -> (u16, &[u8])
    requires { 2 ≤ length text.now }
    ensures { NumberAt text.now result.0 result.1.now }
{
    let (bytes, rest) = first::<2>(text);
    (u16::from_be_bytes(*bytes), rest)
}

/// The number of two bytes at the front of the text, and the rest. `Short` if there are fewer bytes.
pub(super) fn read_number(text: &[u8]) -> Result<(u16, &[u8]), DecodeError>
    ensures { MatchResult result (λ x. NumberAt text.now x.0 x.1.now)
        (λ e. (length text.now < 2) × (e ≡ Short)) }
{
    let (bytes, rest) = field::<2>(text)?;
    Ok((u16::from_be_bytes(*bytes), rest))
}

/// The round that the six bytes encode, as a number.
fn round_number(bytes: &[u8; 6]) -> u64
    ensures low { result < 2 ^ 48 }
    ensures bytes { round_bytes result ≡ bytes.now }
{
    let [a, b, c, d, e, f] = *bytes;
    u64::from_be_bytes([0, 0, a, b, c, d, e, f])
}

/// The round of six bytes at the front of the text, and the rest.
pub(crate) fn round_of(text: &[u8]) -> (Round, &[u8])
    requires { 6 ≤ length text.now }
    ensures { RoundAt text.now result.0 result.1.now }
{
    let (bytes, rest) = first::<6>(text);
    (Round::new(round_number(bytes)).unwrap(), rest)
}

/// The round of six bytes at the front of the text, as a number, and the rest. `Short` if there are fewer bytes.
pub(super) fn read_round(text: &[u8]) -> Result<(u64, &[u8]), DecodeError>
    ensures { MatchResult result (λ x. RoundAt text.now x.0 x.1.now)
        (λ e. (length text.now < 6) × (e ≡ Short)) }
{
    let (bytes, rest) = field::<6>(text)?;
    Ok((round_number(bytes), rest))
}

/// The subject that the text encodes.
pub(crate) fn subject_of(text: &[u8; 40]) -> Subject
    ensures typed { IsSubject result }
    ensures bytes { text.now ≡ subject_bytes result }
{
    let (digest, rest) = first::<32>(text);
    let (round, rest) = round_of(rest);
    let (author, _) = number_of(rest);
    Subject {
        digest: Digest(*digest),
        round,
        author,
    }
}

/// The count at the front of the text, at most `max`, and the rest. `over` is the fault of a greater count.
pub(super) fn read_count(
    max: usize,
    over: DecodeError,
    text: &[u8],
) -> Result<(usize, &[u8]), DecodeError>
    ensures { (stage : Stage) (next : ℕ → Stage) → ReadsCount stage max over next → MatchResult result
        (λ x. (x.0 ≤ max) × NumberAt text.now x.0 x.1.now × Reaches stage text.now (next x.0) x.1.now)
        (λ e. FaultFrom stage text.now e) }
{
    let (count, rest) = read_number(text)?;
    let count = count as usize;
    if count > max {
        return Err(over);
    }
    Ok((count, rest))
}

/// Whether the author or signer is greater than the preceding one, if there is one.
fn is_in_order(before: Option<u16>, author: u16) -> bool
    ensures { result ≡ comes_after before author }
{
    before.is_none_or(|before| before < author)
}

/// The author or signer of the item at the front of the text, and the rest. An item is an author or signer and `N` bytes.
/// `disorder` is the fault if the author or signer is not greater than the preceding one, `before`.
fn read_item<const N: usize>(
    before: Option<u16>,
    disorder: DecodeError,
    text: &[u8],
) -> Result<(u16, &[u8]), DecodeError>
    requires { N ≤ 64 }
    ensures item { IfOk result (λ x. (item : List ℕ) × (length item ≡ 2 + N)
        × (text.now ≡ item ++ x.1.now)) }
    ensures leads { (at : ℕ → Option ℕ → Stage) (inside : ℕ → ℕ → Stage) (more : ℕ)
        → AreItems N disorder at inside → MatchResult result
        (λ x. Reaches (at (suc more) before) text.now (at more (Some x.0)) x.1.now)
        (λ e. FaultFrom (at (suc more) before) text.now e) }
{
    let (author, rest) = read_number(text)?;
    if !is_in_order(before, author) {
        return Err(disorder);
    }
    let (_bytes, rest) = field::<N>(rest)?;
    Ok((author, rest))
}

/// The text of the `count` items at the front of the text, and the rest. An item is an author or signer and `N` bytes.
/// `disorder` is the fault if an author or signer is not greater than the preceding one.
pub(super) fn read_items<const N: usize>(
    count: usize,
    disorder: DecodeError,
    text: &[u8],
) -> Result<(&[u8], &[u8]), DecodeError>
    requires { N ≤ 64 }
    ensures items { IfOk result (λ x. ItemsAt (2 + N) count text.now x.0.now x.1.now) }
    ensures leads { (at : ℕ → Option ℕ → Stage) (inside : ℕ → ℕ → Stage)
        → AreItems N disorder at inside → MatchResult result
        (λ x. Reaches (at count None) text.now (at 0 None) x.1.now)
        (λ e. FaultFrom (at count None) text.now e) }
{
    let mut before = None;
    let mut rest = text;
    for _ in 0..count {
        let (author, after) = read_item::<N>(before, disorder, rest)?;
        before = Some(author);
        rest = after;
    }
    Ok((until(text, rest), rest))
}

/// The part of `text` before `rest`, which must be a suffix of `text`.
pub(super) fn until<'a>(text: &'a [u8], rest: &[u8]) -> &'a [u8]
    requires { (front : List ℕ) × (text.now ≡ front ++ rest.now) }
    ensures { text.now ≡ result.now ++ rest.now }
{
    &text[..text.len() - rest.len()]
}

/// The signature that is the last field of a message. `Short` if there are fewer bytes, `Trailing` if there are more.
pub(super) fn read_last_signature(text: &[u8]) -> Result<Signature, DecodeError>
    ensures { (stage : Stage) → IsLast 64 stage → MatchResult result
        (λ s. LastSignature text.now s) (λ e. FaultFrom stage text.now e) }
{
    let (signature, rest) = field::<64>(text)?;
    at_end(rest)?;
    Ok(Signature(*signature))
}

/// Fails with `Trailing` if the rest after the last field is not empty.
pub(super) fn at_end(rest: &[u8]) -> Result<(), DecodeError>
    ensures { MatchResult result (λ _. rest.now ≡ []) (λ e. FaultFrom AtEnd rest.now e) }
{
    if !rest.is_empty() {
        return Err(DecodeError::Trailing);
    }
    Ok(())
}
