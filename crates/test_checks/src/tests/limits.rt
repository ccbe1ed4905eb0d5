//! Blocks and bodies of the largest size, and larger ones.
use nw_codec::{Block, EncodeError, Ref, Transactions, encode_body};
use nw_decode::{DecodeError, decode_message};
use nw_digest::{Digest, Round, Sequence};
use std::alloc::{AllocError, Global};
use std::test::Fail;

/// A block of author 0 and round 0 with this number of parents, and transactions of these lengths.
fn block(alloc: Global, parents: u16, lengths: &[usize]) -> Result<Block, EncodeError> {
    let mut refs = Vec::new(alloc);
    for author in 0..parents {
        refs.push(Ref {
            author,
            digest: Digest([7; 32]),
        })?;
    }
    let mut transactions = Transactions::new(alloc);
    for length in lengths {
        transactions.push(&vec![in alloc; b'x'; *length]?)?;
    }
    Ok(Block {
        author: 0,
        round: Round::ZERO,
        parents: Sequence::new(refs),
        transactions,
    })
}

/// The number of bytes in the body of such a block.
fn sized(alloc: Global, parents: u16, lengths: &[usize]) -> Result<usize, EncodeError> {
    Ok(encode_body(alloc, &block(alloc, parents, lengths)?)?.len())
}

/// The lengths of the transactions of the largest body, without parents.
const LARGEST: [usize; 16] = [
    65_536, 65_536, 65_536, 65_536, 65_536, 65_536, 65_536, 65_536, //
    65_536, 65_536, 65_536, 65_536, 65_536, 65_536, 65_536, 65_459,
];

/// The result for a block over a limit.
const OVER: Result<usize, EncodeError> = Err(EncodeError::OverLimit);

#[test]
fn sizes_at_the_limit(rt: HostRuntime) -> Result<(), Fail> {
    let mut larger = LARGEST;
    larger[15] = 65_460;
    let cases: [(&str, u16, &[usize], Result<usize, EncodeError>); 8] = [
        ("100 parents", 100, &[], Ok(3_413)),
        ("101 parents", 101, &[], OVER),
        ("1,024 transactions", 0, &[0; 1_024], Ok(4_109)),
        ("1,025 transactions", 0, &[0; 1_025], OVER),
        ("a transaction of 65,536 bytes", 0, &[65_536], Ok(65_553)),
        ("one of 65,537 bytes", 0, &[65_537], OVER),
        ("a body of 1,048,576 bytes", 0, &LARGEST, Ok(1_048_576)),
        ("a body of one byte more", 0, &larger, OVER),
    ];
    for (shows, parents, lengths, size) in cases {
        assert!(rt; sized(rt.alloc(), parents, lengths) == size, "{shows}");
    }
    Ok(())
}

/// The message of a block of author 0 and round 0 without parents, byte by byte. It has 15 transactions of 65,536 bytes and one of
/// `last` bytes.
fn message(alloc: Global, last: u32) -> Result<Vec<u8>, AllocError> {
    let mut text = [1, 1, 0, 0, 0, 0, 0, 0, 0, 0, 0, 0, 0, 16].to_vec(alloc)?;
    for number in 1..=16 {
        let length = if number < 16 { 65_536 } else { last };
        text.extend_from_slice(&length.to_be_bytes())?;
        text.resize(text.len() + length as usize, b'x')?;
    }
    text.extend_from_slice(&[4; 64])?;
    Ok(text)
}

#[test]
fn texts_of_sizes_at_the_limit(rt: HostRuntime) -> Result<(), Fail> {
    let largest = decode_message(rt.alloc(), &message(rt.alloc(), 65_459)?).err();
    let larger = decode_message(rt.alloc(), &message(rt.alloc(), 65_460)?).err();
    assert!(rt; [largest, larger] == [None, Some(DecodeError::BodyTooLong)]);
    Ok(())
}
