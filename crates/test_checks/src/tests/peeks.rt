//! What the first bytes of a text say, compared with the decoded and with the checked message.
use super::messages::{of_block, of_certificate, of_vote};
use super::signed::{block, certificate, vote};
use super::*;
use nw_codec::{Block, Message};
use nw_decode::{Peek, decode_message, peek_message};

/// What the peek at the block's text must be.
fn peek_of_block(block: &Block) -> Peek {
    Peek::Block {
        round: block.round,
        author: block.author,
    }
}

/// What the peek at the message's text must be.
fn peek_of(message: &Message) -> Peek {
    match message {
        Message::Block { block, .. } => peek_of_block(block),
        Message::Certificate(certificate) => Peek::Certificate(certificate.subject()),
        Message::Vote(vote) => Peek::Vote {
            subject: vote.subject(),
            signer: vote.signer,
        },
    }
}

/// What the peek at the text must be if the check found this. `None` if it found a fault.
fn peek_of_checked(checked: &Checked<DemoScheme>) -> Option<Peek> {
    match checked {
        Checked::Block(block) => Some(peek_of_block(block.block().get())),
        Checked::Cert(checked) => Some(Peek::Certificate(checked.certificate().get().subject())),
        Checked::Vote(vote) => Some(peek_of(&Message::Vote(*vote))),
        Checked::BadText(_) | Checked::BadBlock(_) | Checked::BadCert(_) => None,
    }
}

/// Whether each text with another byte at the place, if it encodes a message, has that message's peek.
fn agrees_at(alloc: Global, text: &[u8], place: usize) -> Result<bool, Fail> {
    let mut altered = text.to_vec(alloc)?;
    for byte in 0..=255 {
        *altered.get_mut(place).ok_or("the text is shorter")? = byte;
        if let Ok(message) = decode_message(alloc, &altered)
            && peek_message(&altered) != Some(peek_of(&message))
        {
            return Ok(false);
        }
    }
    Ok(true)
}

/// Whether the text's prefixes of `size` bytes and more have the message's peek, and shorter ones have none. Also whether each text with
/// one altered byte has the peek of its message.
fn has_peek(alloc: Global, encoded: (Message, Vec<u8>), size: usize) -> Result<bool, Fail> {
    let (message, text) = encoded;
    let peek = Some(peek_of(&message));
    for length in 0..text.len() {
        let wanted = if length < size { None } else { peek };
        if peek_message(&text[..length]) != wanted || !agrees_at(alloc, &text, length)? {
            return Ok(false);
        }
    }
    Ok(peek_message(&text) == peek)
}

#[test]
fn a_peek_is_that_of_the_decoded_message(rt: HostRuntime) -> Result<(), Fail> {
    let alloc = rt.alloc();
    assert!(rt; has_peek(alloc, of_block(alloc, &[])?, 10)?, "a block");
    assert!(rt;
        has_peek(alloc, of_block(alloc, &[2, 258])?, 10)?,
        "a block over two"
    );
    assert!(rt;
        has_peek(alloc, of_certificate(alloc, [0, 2, 258])?, 41)?,
        "a certificate"
    );
    assert!(rt; has_peek(alloc, of_vote(alloc)?, 43)?, "a vote");
    Ok(())
}

#[test]
fn a_peek_is_that_of_the_checked_message(rt: HostRuntime) -> Result<(), Fail> {
    let four = committee(rt.alloc(), 4)?;
    let block = block(rt.alloc(), four.get(), 0)?;
    let certificate = certificate(rt.alloc(), four.get())?;
    let vote = vote(rt.alloc(), four.get())?;
    for text in [&block, &certificate, &vote] {
        let peek = peek_of_checked(&check_message(rt.alloc(), &four, text)?);
        assert!(rt; peek.is_some() && peek_message(text) == peek);
    }
    Ok(())
}

#[test]
fn texts_of_another_tag_or_version_have_no_peek(rt: HostRuntime) {
    for text in [[0u8; 43], [4; 43], [255; 43]] {
        assert!(rt; peek_message(&text).is_none());
    }
    for version in 0..=255 {
        let mut text = [0u8; 83];
        text[0] = 1;
        text[1] = version;
        assert!(rt; peek_message(&text).is_some() == (version == 1));
    }
}
