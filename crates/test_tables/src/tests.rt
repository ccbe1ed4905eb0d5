use nw_causal::walk;
use nw_codec::{Block, Certificate, Ref, Transactions};
use nw_dag::{Dag, DagLimits};
use nw_digest::{Digest, NoMemory, Round, Sequence, Shared};
use nw_generation::View;
use std::alloc::Global;

mod both;
mod crowds;
mod examples;
mod floods;
mod grids;
mod random;
mod words;

/// A round and an author.
type Slot = (u64, u16);

/// The name of a block: its round, its author, and a number for the author's blocks of this round.
type Name = (u64, u16, u8);

/// The round with this number. Fails if the number is 2^48 or more.
fn round(number: u64) -> Result<Round, NoMemory> {
    Round::new(number).ok_or(NoMemory)
}

/// A digest for the block with this name. The digests are not in the order of the rounds.
fn digest_of(name: Name) -> Digest {
    let mut bytes = [name.2; 32];
    bytes[..2].copy_from_slice(&name.1.to_be_bytes());
    bytes[24..].copy_from_slice(&name.0.to_be_bytes());
    Digest(bytes)
}

/// References to the named blocks. If `author` is given, each reference names it instead of the block's own author.
fn references(alloc: Global, names: &[Name], author: Option<u16>) -> Result<Vec<Ref>, NoMemory> {
    let mut references = Vec::new(alloc);
    for name in names {
        references.push(Ref {
            author: author.unwrap_or(name.1),
            digest: digest_of(*name),
        })?;
    }
    Ok(references)
}

/// A block for the slot, with these parents and this one transaction.
fn block_of(
    alloc: Global,
    slot: Slot,
    parents: Vec<Ref>,
    text: &[u8],
) -> Result<Shared<Block>, NoMemory> {
    let mut transactions = Transactions::new(alloc);
    transactions.push(text).map_err(|_| NoMemory)?;
    let block = Block {
        author: slot.1,
        round: round(slot.0)?,
        parents: Sequence::new(parents),
        transactions,
    };
    Shared::new(alloc, block)
}

/// A certificate for the digest and the slot, without votes.
fn certificate(alloc: Global, digest: Digest, slot: Slot) -> Result<Shared<Certificate>, NoMemory> {
    let certificate = Certificate {
        digest,
        round: round(slot.0)?,
        author: slot.1,
        votes: Sequence::new(Vec::new(alloc)),
    };
    Shared::new(alloc, certificate)
}

/// Writes the named block with these parents.
fn write(dag: &mut Dag, alloc: Global, name: Name, parents: &[Name]) -> Result<(), NoMemory> {
    let references = references(alloc, parents, None)?;
    let block = block_of(alloc, (name.0, name.1), references, b"")?;
    dag.write(digest_of(name), &block)?;
    Ok(())
}

/// Certifies the named block.
fn certify(dag: &mut Dag, alloc: Global, name: Name) -> Result<(), NoMemory> {
    let certificate = certificate(alloc, digest_of(name), (name.0, name.1))?;
    dag.certify(&certificate)?;
    Ok(())
}

/// The walk of a view from the digest. Fails if the view lacks the block or has it below its floor.
fn walked(alloc: Global, view: &View, digest: Digest) -> Result<Vec<Shared<Block>>, NoMemory> {
    let start = view.get(&digest).ok_or(NoMemory)?.get();
    if start.round.get() < view.floor().get() {
        return Err(NoMemory);
    }
    walk(alloc, view, digest)
}

/// Whether the blocks have these slots, in order.
fn have_slots(blocks: &[Shared<Block>], slots: &[Slot]) -> bool {
    for (block, slot) in blocks.iter().zip(slots) {
        let block = block.get();
        if (block.round.get(), block.author) != *slot {
            return false;
        }
    }
    blocks.len() == slots.len()
}
