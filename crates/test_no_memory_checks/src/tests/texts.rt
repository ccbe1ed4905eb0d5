//! Messages that are encoded, decoded, and checked.
use super::*;
use nw_check::{BlockFault, CertFault, Checked, check_message};
use nw_codec::{EncodeError, encode_body, encode_message};
use nw_decode::{DecodeError, decode_message};
use nw_sig::DemoScheme;
use samples::fallible::vote;

/// The text of the message.
pub(super) fn text_of(alloc: Global, message: &Message) -> Result<Vec<u8>, EncodeError> {
    retry!(EncodeError::NoMemory, encode_message(alloc, message))
}

/// The length of the encoded message. It must decode to the same message.
fn length_of(alloc: Global, message: &Message) -> Result<usize, Fail> {
    let text = text_of(alloc, message)?;
    let read = retry!(DecodeError::NoMemory, decode_message(alloc, &text));
    let length = text.len();
    drop(text);
    let read = read?;
    let is_same = read == *message;
    drop(read);
    if is_same {
        Ok(length)
    } else {
        Err(Fail::from("read as another message"))
    }
}

#[test]
fn messages_are_encoded_and_decoded(rt: HostRuntime) -> Result<(), Fail> {
    let four = four(rt.alloc())?;
    let lengths = lengths(rt.alloc(), four.get());
    drop(four);
    assert_eq!(rt; lengths?, [83, 241, 107]);
    assert_eq!(rt; length_of_body(rt.alloc())?, 18);
    Ok(())
}

/// The lengths of the encoded messages of a block, a certificate and a vote.
fn lengths(alloc: Global, four: &Committee) -> Result<[usize; 3], Fail> {
    let block = length_of(alloc, &block_message(alloc, four, 0)?)?;
    let three = length_of(alloc, &certificate_message(alloc, four, &[0, 1, 2])?)?;
    let vote = length_of(alloc, &Message::Vote(vote(four, VOTED, SLOT, 1)))?;
    Ok([block, three, vote])
}

/// The length of a block's encoded body.
fn length_of_body(alloc: Global) -> Result<usize, Fail> {
    let unsigned = retry!(NoMemory, unsigned(alloc, SLOT, &[], b"x"))?;
    let body = retry!(EncodeError::NoMemory, encode_body(alloc, &unsigned));
    drop(unsigned);
    Ok(body?.len())
}

/// A word for the result of a check.
pub(super) fn word(checked: &Checked<DemoScheme>) -> &'static str {
    match checked {
        Checked::Block(_) => "block",
        Checked::Cert(_) => "certificate",
        Checked::Vote(_) => "vote",
        Checked::BadText(_) => "bad text",
        Checked::BadBlock(BlockFault::Signature) => "signature",
        Checked::BadBlock(_) => "bad block",
        Checked::BadCert(CertFault::FewVotes) => "few votes",
        Checked::BadCert(_) => "bad certificate",
    }
}

/// The word for the result of checking the message.
fn found(alloc: Global, four: &Shared<Committee>, message: &Message) -> Result<&'static str, Fail> {
    let text = text_of(alloc, message)?;
    let checked = retry!(NoMemory, check_message(alloc, four, &text));
    drop(text);
    let checked = checked?;
    let word = word(&checked);
    drop(checked);
    Ok(word)
}

#[test]
fn texts_are_decoded_and_checked(rt: HostRuntime) -> Result<(), Fail> {
    let four = four(rt.alloc())?;
    let words = words(rt.alloc(), &four);
    drop(four);
    let wanted = ("block", "signature", "certificate", "few votes");
    assert_eq!(rt; words?, wanted);
    Ok(())
}

/// The words for the results of four checks.
type Words = (&'static str, &'static str, &'static str, &'static str);

/// The words for a block, a forged block, a certificate with three votes and one with two.
fn words(alloc: Global, under: &Shared<Committee>) -> Result<Words, Fail> {
    let four = under.get();
    let block = found(alloc, under, &block_message(alloc, four, 0)?)?;
    let forged = found(alloc, under, &block_message(alloc, four, 1)?)?;
    let three = found(alloc, under, &certificate_message(alloc, four, &[0, 1, 2])?)?;
    let two = found(alloc, under, &certificate_message(alloc, four, &[0, 1])?)?;
    Ok((block, forged, three, two))
}
