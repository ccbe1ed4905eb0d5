//! Messages and their bytes.
use super::signed::BODY;
use nw_codec::{
    Block, Certificate, EncodeError, Message, Ref, Seal, Signature, Transactions, Vote,
    block_digest, encode_body, encode_message,
};
use nw_decode::{DecodeError, decode_message};
use nw_digest::{Digest, Sequence, digest_of};
use samples::round;
use std::alloc::{AllocError, Global};
use std::test::Fail;

/// The digest, round and author in votes and certificates, followed by the number of votes.
const VOTED: [u8; 42] = [
    9, 9, 9, 9, 9, 9, 9, 9, 9, 9, 9, 9, 9, 9, 9, 9, // digest
    9, 9, 9, 9, 9, 9, 9, 9, 9, 9, 9, 9, 9, 9, 9, 9, //
    0, 0, 0, 0, 0, 5, // round
    1, 2, // author
    0, 3, // three votes
];

/// A block of author 0 with parents of these authors and one transaction, the byte `x`. Its round is 1 if it has parents, else 0.
fn block(alloc: Global, parents: &[u16]) -> Result<Block, Fail> {
    let mut refs = Vec::new(alloc);
    for author in parents {
        refs.push(Ref {
            author: *author,
            digest: Digest([9; 32]),
        })?;
    }
    let mut transactions = Transactions::new(alloc);
    transactions.push(b"x")?;
    Ok(Block {
        author: 0,
        round: round(u8::from(!parents.is_empty())),
        parents: Sequence::new(refs),
        transactions,
    })
}

/// The message of that block, and its bytes.
pub(super) fn of_block(alloc: Global, parents: &[u16]) -> Result<(Message, Vec<u8>), Fail> {
    let block = block(alloc, parents)?;
    let mut text = [1, 1, 0, 0, 0, 0, 0, 0, 0].to_vec(alloc)?;
    text.extend_from_slice(&[
        u8::from(!parents.is_empty()),
        0,
        (parents.len() % 256) as u8,
    ])?;
    for author in parents {
        text.extend_from_slice(&author.to_be_bytes())?;
        text.extend_from_slice(&[9; 32])?;
    }
    text.extend_from_slice(&[0, 1, 0, 0, 0, 1, b'x'])?;
    text.extend_from_slice(&[4; 64])?;
    let signature = Signature([4; 64]);
    Ok((Message::Block { block, signature }, text))
}

/// The message of a certificate with votes of these three members, and its bytes.
pub(super) fn of_certificate(alloc: Global, signers: [u16; 3]) -> Result<(Message, Vec<u8>), Fail> {
    let mut votes = Vec::new(alloc);
    let mut text = [2].to_vec(alloc)?;
    text.extend_from_slice(&VOTED)?;
    for signer in signers {
        votes.push(Seal {
            signer,
            signature: Signature([4; 64]),
        })?;
        text.extend_from_slice(&signer.to_be_bytes())?;
        text.extend_from_slice(&[4; 64])?;
    }
    let certificate = Certificate {
        digest: Digest([9; 32]),
        round: round(5),
        author: 258,
        votes: Sequence::new(votes),
    };
    Ok((Message::Certificate(certificate), text))
}

/// The message of a vote of member 7, and its bytes.
pub(super) fn of_vote(alloc: Global) -> Result<(Message, Vec<u8>), Fail> {
    let mut text = [3].to_vec(alloc)?;
    text.extend_from_slice(&VOTED[..40])?;
    text.extend_from_slice(&[0, 7])?;
    text.extend_from_slice(&[4; 64])?;
    let vote = Vote {
        digest: Digest([9; 32]),
        round: round(5),
        author: 258,
        signer: 7,
        signature: Signature([4; 64]),
    };
    Ok((Message::Vote(vote), text))
}

/// Whether each proper prefix of the text is `Short`, and the text with one more byte is `Trailing`.
fn ends_exactly(alloc: Global, text: &[u8]) -> Result<bool, AllocError> {
    for length in 0..text.len() {
        if decode_message(alloc, &text[..length]).err() != Some(DecodeError::Short) {
            return Ok(false);
        }
    }
    let mut longer = text.to_vec(alloc)?;
    longer.push(0)?;
    Ok(decode_message(alloc, &longer).err() == Some(DecodeError::Trailing))
}

/// Whether the message encodes as these bytes, of this length, and decodes from them but not from fewer or more.
fn has_bytes(alloc: Global, encoded: (Message, Vec<u8>), length: usize) -> Result<bool, Fail> {
    let (message, text) = encoded;
    Ok(
        text.len() == length
            && encode_message(alloc, &message)? == text
            && decode_message(alloc, &text)? == message
            && ends_exactly(alloc, &text)?,
    )
}

#[test]
fn a_message_ends_exactly(rt: HostRuntime) -> Result<(), Fail> {
    let alloc = rt.alloc();
    assert!(rt; has_bytes(alloc, of_block(alloc, &[])?, 83)?, "a block");
    assert!(rt;
        has_bytes(alloc, of_block(alloc, &[2, 258])?, 151)?,
        "a block over two"
    );
    assert!(rt;
        has_bytes(alloc, of_certificate(alloc, [0, 2, 258])?, 241)?,
        "a certificate"
    );
    assert!(rt; has_bytes(alloc, of_vote(alloc)?, 107)?, "a vote");
    Ok(())
}

#[test]
fn a_certificate_whose_signers_do_not_ascend_is_refused(rt: HostRuntime) -> Result<(), Fail> {
    for signers in [[0, 2, 2], [0, 2, 1], [2, 0, 3]] {
        let (message, text) = of_certificate(rt.alloc(), signers)?;
        let encode_fault = encode_message(rt.alloc(), &message).err();
        let decode_fault = decode_message(rt.alloc(), &text).err();
        assert!(rt; encode_fault == Some(EncodeError::OverLimit));
        assert!(rt; decode_fault == Some(DecodeError::VoteOrder));
    }
    Ok(())
}

#[test]
fn a_body_byte_by_byte(rt: HostRuntime) -> Result<(), Fail> {
    let of_x = block(rt.alloc(), &[])?;
    let body = encode_body(rt.alloc(), &of_x)?;
    let digest_is_right = of_x.fits() && block_digest(&of_x) == digest_of(&BODY);
    assert!(rt; digest_is_right && body.as_slice() == BODY.as_slice());
    Ok(())
}
