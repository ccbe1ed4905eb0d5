//! The members of a script's committee and what they sign. Member i has the demonstration key of its number.
ghost use Rattle.std.specs.Prelude.{◌≡◌, IfOk, List, length, map, min};
ghost use Rattle.nw_codec.specs.Fits.{Fits};
ghost use Rattle.nw_committee.specs.Committee.{equal_members};
ghost use Rattle.nw_committee.specs.declared.member.Key.{Key};
ghost use Rattle.nw_interpreter.specs.Members.{AreMembersOf};

use crate::fault::LineFault;
use nw_codec::{Block, Certificate, Seal, Signature, Vote};
use nw_committee::{Committee, Key, MAX_MEMBERS, Member};
use nw_digest::{Digest, NoMemory, Sequence};
use nw_script::CommitteeLine;
use nw_sig::{DemoSigner, Signer, text_of_block, text_of_vote};
use std::alloc::Global;

/// The committee of the line. `Bad` if there is no such committee, `NoMemory` if an allocation fails.
pub fn committee(alloc: Global, line: &CommitteeLine) -> Result<Committee, LineFault>
    ensures members { IfOk result (AreMembersOf line.now) }
{
    match line {
        CommitteeLine::Equal { members } => equal(alloc, *members),
        CommitteeLine::Weighted { weights } => weighted(alloc, weights),
    }
}

fn equal(alloc: Global, count: u32) -> Result<Committee, LineFault>
    ensures { IfOk result (λ members.
        (keys : List Key) × (members ≡ equal_members keys) × (length keys ≡ count)) }
{
    let keys = keys(alloc, count)?;
    Ok(Committee::new(alloc, keys)?)
}

fn weighted(alloc: Global, weights: &[u32]) -> Result<Committee, LineFault>
    ensures { IfOk result (λ members. map (λ m. m.weight) members ≡ weights.now) }
{
    let members = members(alloc, weights)?;
    Ok(Committee::weighted(members)?)
}

fn keys(alloc: Global, count: u32) -> Result<Vec<Key>, LineFault>
    ensures { IfOk result (λ keys. length keys.items ≡ min count 101) }
{
    let mut keys = Vec::new(alloc);
    for number in 0..count.min(MAX_MEMBERS as u32 + 1) {
        keys.push(key(number as u16))?;
    }
    Ok(keys)
}

fn members(alloc: Global, weights: &[u32]) -> Result<Vec<Member>, LineFault>
    ensures { IfOk result (λ members. map (λ m. m.weight) members.items ≡ weights.now) }
{
    let mut members = Vec::new(alloc);
    for (number, weight) in weights.iter().enumerate() {
        let Ok(number) = u16::try_from(number) else {
            return Err(LineFault::Bad);
        };
        members.push(Member {
            key: key(number),
            weight: *weight,
        })?;
    }
    Ok(members)
}

// The key of the member: 30 zero bytes and its number in two bytes.
fn key(number: u16) -> Key {
    let mut bytes = [0; 32];
    bytes[30..].copy_from_slice(&number.to_be_bytes());
    Key(bytes)
}

/// The encoded message of the block with this digest, signed by the member as its author. The block must fit (docs/FORMATS.md).
/// `NoMemory` if an allocation fails.
pub fn block_message(
    alloc: Global,
    member: u16,
    digest: &Digest,
    block: &Block,
) -> Result<Vec<u8>, NoMemory>
    requires { Fits block.now }
{
    block.message(alloc, &signature(member, &text_of_block(digest)))
}

/// The encoded message of the member's vote for the block with this digest. `NoMemory` if an allocation fails.
pub fn vote_message(
    alloc: Global,
    member: u16,
    digest: Digest,
    block: &Block,
) -> Result<Vec<u8>, NoMemory> {
    vote(member, digest, block).message(alloc)
}

/// The member's vote for the block with this digest.
pub(crate) fn vote(member: u16, digest: Digest, block: &Block) -> Vote {
    Vote {
        digest,
        round: block.round,
        author: block.author,
        signer: member,
        signature: signature(member, &text_of_vote(&block.subject(digest))),
    }
}

/// A certificate for the block with this digest, with the members' votes in the given order. It may be invalid.
pub(crate) fn certificate(
    alloc: Global,
    members: &[u16],
    digest: Digest,
    block: &Block,
) -> Result<Certificate, LineFault> {
    let mut votes = Vec::with_capacity(alloc, members.len())?;
    for member in members {
        votes.push(seal(*member, digest, block))?;
    }
    Ok(Certificate {
        digest,
        round: block.round,
        author: block.author,
        votes: Sequence::new(votes),
    })
}

fn seal(member: u16, digest: Digest, block: &Block) -> Seal {
    Seal {
        signer: member,
        signature: vote(member, digest, block).signature,
    }
}

fn signature(member: u16, text: &[u8]) -> Signature {
    DemoSigner::new(key(member)).sign(text)
}
