//! Committees whose members sign with the demonstration scheme, and their checked blocks and certificates.
ghost use Rattle.std.specs.Prelude.{◌≡◌, IfOk, length};

use crate::signing::{seal, signature};
use nw_check::{CheckedBlock, CheckedCert, check_block, check_cert};
use nw_codec::{Block, Certificate, Ref, Transactions};
use nw_committee::{Committee, Key, Member};
use nw_digest::{Digest, Round, Sequence, Shared};
use nw_sig::DemoScheme;
use std::alloc::Global;
use std::test::Fail;

/// The key of the member: 30 zero bytes, followed by its number in two bytes.
pub fn key(member: u16) -> Key {
    let mut bytes = [0; 32];
    bytes[30..].copy_from_slice(&member.to_be_bytes());
    Key(bytes)
}

/// The round with this number.
fn round_of(number: u64) -> Result<Round, Fail>
    ensures { IfOk result (λ round. round ≡ number) }
{
    Ok(Round::new(number).ok_or("a round has 48 bits")?)
}

/// A committee of this many members of weight 1. `members` must be 1, 4, 7, .. or 100.
pub fn committee(alloc: Global, members: u16) -> Result<Shared<Committee>, Fail>
    ensures { IfOk result (λ committee. length committee ≡ members) }
{
    let mut keys = Vec::new(alloc);
    for member in 0..members {
        keys.push(key(member))?;
    }
    Ok(Shared::new(alloc, Committee::new(alloc, keys)?)?)
}

/// A committee of four members of weight 1, made with or without given weights.
pub fn four(alloc: Global, is_weighted: bool) -> Result<Shared<Committee>, Fail> {
    let equal = committee(alloc, 4)?;
    if !is_weighted {
        return Ok(equal);
    }
    let mut members = Vec::new(alloc);
    for number in 0..4 {
        members.push(Member {
            key: key(number),
            weight: 1,
        })?;
    }
    Ok(Shared::new(alloc, Committee::weighted(members)?)?)
}

/// A checked block without transactions. These digests are its parents, which are by authors 0, 1, 2, ..
pub fn block(
    alloc: Global,
    committee: &Shared<Committee>,
    author: u16,
    round: u64,
    parents: &[Digest],
) -> Result<CheckedBlock<DemoScheme>, Fail>
    ensures { IfOk result
        (λ b. (b.committee ≡ committee.now) × (b.block.author ≡ author) × (b.block.round ≡ round)) }
{
    let transactions = Transactions::new(alloc);
    checked(alloc, committee, author, round, parents, transactions)
}

/// A checked block of round 0 by member 0, with this transaction and no other.
pub fn block_with(
    alloc: Global,
    committee: &Shared<Committee>,
    transaction: &[u8],
) -> Result<CheckedBlock<DemoScheme>, Fail>
    ensures { IfOk result
        (λ b. (b.committee ≡ committee.now) × (b.block.author ≡ 0) × (b.block.round ≡ 0)) }
{
    let mut transactions = Transactions::new(alloc);
    transactions.push(transaction)?;
    checked(alloc, committee, 0, 0, &[], transactions)
}

/// A block with these fields, signed by its author and checked.
fn checked(
    alloc: Global,
    committee: &Shared<Committee>,
    author: u16,
    round: u64,
    parents: &[Digest],
    transactions: Transactions,
) -> Result<CheckedBlock<DemoScheme>, Fail>
    ensures { IfOk result
        (λ b. (b.committee ≡ committee.now) × (b.block.author ≡ author) × (b.block.round ≡ round)) }
{
    let mut references = Vec::new(alloc);
    for (author, digest) in (0u16..).zip(parents) {
        references.push(Ref {
            author,
            digest: *digest,
        })?;
    }
    let block = Block {
        author,
        round: round_of(round)?,
        parents: Sequence::new(references),
        transactions,
    };
    let Some(signature) = signature(committee.get(), &block, author) else {
        return Err(Fail::from("the block breaks a limit"));
    };
    Ok(check_block(alloc, committee, block, signature)?)
}

/// A checked certificate for the digest, author and round, with the votes of the first members, as many as the quorum. Each member must
/// have weight 1.
pub fn certificate(
    alloc: Global,
    committee: &Shared<Committee>,
    author: u16,
    round: u64,
    digest: Digest,
) -> Result<CheckedCert<DemoScheme>, Fail>
    ensures { IfOk result (λ c. (c.committee ≡ committee.now) × (c.certificate.digest ≡ digest)
        × (c.certificate.author ≡ author) × (c.certificate.round ≡ round)) }
{
    let round = round_of(round)?;
    let mut votes = Vec::new(alloc);
    for signer in 0..u16::try_from(committee.get().quorum())? {
        votes.push(seal(committee.get(), digest, round, author, signer))?;
    }
    let certificate = Certificate {
        digest,
        round,
        author,
        votes: Sequence::new(votes),
    };
    if !certificate.fits() {
        return Err(Fail::from("the certificate breaks a limit"));
    }
    Ok(check_cert(alloc, committee, certificate)?)
}
