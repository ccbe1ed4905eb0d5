//! Signed messages, byte by byte.
use super::*;
use nw_codec::Signature;
use nw_digest::digest_of;
use nw_sig::{DemoSigner, Signer};

/// The body of a block of author 0 and round 0 without parents, with the transaction `x`.
pub(super) const BODY: [u8; 18] = [
    1, // version
    0, 0, // author
    0, 0, 0, 0, 0, 0, // round
    0, 0, // parents
    0, 1, // transactions
    0, 0, 0, 1, 0x78, // `x`, with its length
];

/// What a voter for the block of [`BODY`] signs, without the first four bytes: digest, round and author.
const VOTE: [u8; 40] = [
    0xad, 0x5f, 0x10, 0x50, 0x76, 0xaf, 0xa1, 0x69, // digest
    0xe3, 0x88, 0x7a, 0xcc, 0x36, 0x00, 0x54, 0x05, //
    0xd7, 0x3a, 0x81, 0x68, 0x43, 0xe9, 0x7e, 0x74, //
    0x94, 0x49, 0x38, 0x4f, 0x3c, 0x19, 0xf2, 0x05, //
    0, 0, 0, 0, 0, 0, // round
    0, 0, // author
];

/// The member's signature of these four bytes followed by the text.
fn sign(
    alloc: Global,
    committee: &Committee,
    member: u16,
    front: &[u8; 4],
    text: &[u8],
) -> Result<Signature, Fail> {
    let key = committee.key(member).ok_or("no such member")?;
    let mut signed = front.to_vec(alloc)?;
    signed.extend_from_slice(text)?;
    Ok(DemoSigner::new(*key).sign(&signed))
}

/// The message of the block of [`BODY`], signed by this member.
pub(super) fn block(alloc: Global, committee: &Committee, signer: u16) -> Result<Vec<u8>, Fail> {
    let signature = sign(alloc, committee, signer, b"NWBK", &digest_of(&BODY).0)?;
    let mut text = [1].to_vec(alloc)?;
    text.extend_from_slice(&BODY)?;
    text.extend_from_slice(&signature.0)?;
    Ok(text)
}

/// The votes of these members for the block of [`BODY`]: each member and its signature.
fn votes(alloc: Global, committee: &Committee, members: &[u16]) -> Result<Vec<u8>, Fail> {
    let mut text = Vec::new(alloc);
    for member in members {
        text.extend_from_slice(&member.to_be_bytes())?;
        let signature = sign(alloc, committee, *member, b"NWVT", &VOTE)?;
        text.extend_from_slice(&signature.0)?;
    }
    Ok(text)
}

/// The message of a certificate for the block of [`BODY`], with votes of members 0, 1 and 2.
pub(super) fn certificate(alloc: Global, committee: &Committee) -> Result<Vec<u8>, Fail> {
    let mut text = [2].to_vec(alloc)?;
    text.extend_from_slice(&VOTE)?;
    text.extend_from_slice(&[0, 3])?;
    text.extend_from_slice(&votes(alloc, committee, &[0, 1, 2])?)?;
    Ok(text)
}

/// The message of the vote of member 1 for the block of [`BODY`].
pub(super) fn vote(alloc: Global, committee: &Committee) -> Result<Vec<u8>, Fail> {
    let mut text = [3].to_vec(alloc)?;
    text.extend_from_slice(&VOTE)?;
    text.extend_from_slice(&votes(alloc, committee, &[1])?)?;
    Ok(text)
}
