//! Examples of calls on a `Dag`.
use super::tables::wanted;
use super::*;
use nw_codec::{Certificate, Ref, block_digest};
use nw_dag::{Dag, DagLimits};
use nw_digest::Sequence;
use nw_model::{CausalReply, CertifyReply, CollectReply, Counts, Look, Wanted, WriteReply};
use samples::fallible::unsigned;
use std::alloc::AllocError;

/// Bounds for 64 blocks and 64 rounds.
pub(super) const ROOM: DagLimits = DagLimits {
    blocks: 64,
    window: 64,
};

/// A block, and the digest under which it is written.
#[derive(Drop)]
pub(super) struct Own {
    pub(super) digest: Digest,
    pub(super) block: Shared<Block>,
}

/// The block of the slot with these parents and without transactions, and the digest of its body. `NoMemory` also if it does not fit.
pub(super) fn own_block(
    alloc: Global,
    slot: (Round, u16),
    parents: &[Ref],
) -> Result<Own, NoMemory> {
    let block = unsigned(alloc, slot, parents, b"")?;
    if !block.fits() {
        return Err(NoMemory);
    }
    let digest = block_digest(&block);
    Ok(Own {
        digest,
        block: Shared::new(alloc, block)?,
    })
}

/// A certificate for the digest and the slot, without votes.
pub(super) fn certificate_of(
    alloc: Global,
    digest: Digest,
    slot: (Round, u16),
) -> Result<Shared<Certificate>, NoMemory> {
    let certificate = Certificate {
        digest,
        round: slot.0,
        author: slot.1,
        votes: Sequence::new(Vec::new(alloc)),
    };
    Shared::new(alloc, certificate)
}

/// Writes and certifies a block of author 0 with these parents, under the digest. Returns whether both were stored.
fn extend(
    dag: &mut Dag,
    alloc: Global,
    digest: Digest,
    round: Round,
    parents: &[Ref],
) -> Result<bool, NoMemory> {
    let mut own = retry!(NoMemory, own_block(alloc, (round, 0), parents))?;
    own.digest = digest;
    is_stored(dag, alloc, &own)
}

/// Writes and certifies the block. Returns whether both were stored.
pub(super) fn is_stored(dag: &mut Dag, alloc: Global, own: &Own) -> Result<bool, NoMemory> {
    let slot = (own.block.get().round, own.block.get().author);
    let certificate = retry!(NoMemory, certificate_of(alloc, own.digest, slot))?;
    let written = retry!(NoMemory, dag.write(own.digest, &own.block))?;
    let certified = retry!(NoMemory, dag.certify(&certificate))?;
    Ok(written == WriteReply::Stored { vote: true } && certified == CertifyReply::Certified)
}

/// The number of parts of the view for the digest, or the reply if there is no view.
pub(super) fn parts_of(
    dag: &mut Dag,
    alloc: Global,
    digest: Digest,
) -> Result<Result<usize, CausalReply>, NoMemory> {
    Ok(retry!(NoMemory, dag.freeze_for(alloc, digest))?.map(|view| view.parts()))
}

/// Whether `wanted` is the only missing parent of the block, and the block is seen in round 1 as it is.
fn is_missing(
    dag: &mut Dag,
    alloc: Global,
    block: Digest,
    wanted: Wanted,
) -> Result<bool, NoMemory> {
    let missing = retry!(NoMemory, dag.missing_of(alloc, &block))?;
    let looks = retry!(NoMemory, dag.look_round(alloc, round(1)))?;
    let look = Look {
        floor: Round::ZERO,
        newest: round(1),
        first: Some(block),
        missing: 1,
        certified: Some(block),
        stands: true,
        complete: false,
    };
    let is_only = missing.is_some_and(|missing| missing.as_slice() == [wanted].as_slice());
    Ok(is_only && looks.as_slice() == [(0, look)].as_slice())
}

/// Whether `wanted` is the first missing parent, and a collection to round 1 then drops one block.
fn is_collected(dag: &mut Dag, alloc: Global, wanted: Wanted) -> Result<bool, NoMemory> {
    let missing = retry!(NoMemory, dag.missing(alloc, 1))?;
    let collected = retry!(NoMemory, dag.collect(round(1)))?;
    Ok(
        missing.as_slice() == [wanted].as_slice()
            && collected == CollectReply::Raised { dropped: 1 },
    )
}

/// Whether a block of round 1, whose reference names a wrong author, is incomplete until round 1 is the garbage round.
fn needs_no_parents(dag: &mut Dag, alloc: Global) -> Result<bool, NoMemory> {
    let (p, q) = (digest(1, 0), digest(2, 0));
    let parent = Ref {
        author: 1,
        digest: p,
    };
    let wanted = wanted(1, 1);
    Ok(
        extend(dag, alloc, p, Round::ZERO, &[])?
            && extend(dag, alloc, q, round(1), &[parent])?
            && parts_of(dag, alloc, q)? == Err(CausalReply::Incomplete)
            && is_missing(dag, alloc, q, wanted)?
            && is_collected(dag, alloc, wanted)?
            && parts_of(dag, alloc, q)? == Ok(1)
            && retry!(NoMemory, dag.read(&q))?.is_some()
            && retry!(NoMemory, dag.certificate(&q))?.is_some(),
    )
}

#[test]
fn a_collection_completes_a_block(rt: HostRuntime) {
    let dag = &mut Dag::new(rt.alloc(), ROOM);
    assert_eq!(rt; needs_no_parents(dag, rt.alloc()), Ok(true));
    let counts = Counts {
        floor: round(1),
        blocks: 1,
        certificates: 1,
        complete: 1,
        wanted: 0,
    };
    assert!(rt; dag.status() == counts && dag.is_complete(&digest(2, 0)));
}

/// The block of author 0 and this round of a chain, over the chain's last block if there is one.
fn next_link(alloc: Global, number: u8, last: Option<Digest>) -> Result<Own, NoMemory> {
    let slot = (round(number), 0);
    match last {
        None => own_block(alloc, slot, &[]),
        Some(digest) => own_block(alloc, slot, &[Ref { author: 0, digest }]),
    }
}

/// Adds the next block of the chain, and its digest to `chain`. Returns the number of parts of its view, and the number of the chain's
/// blocks in the view.
fn next_seen(
    dag: &mut Dag,
    alloc: Global,
    number: u8,
    chain: &mut Vec<Digest>,
) -> Result<(usize, usize), NoMemory> {
    let link = retry!(NoMemory, next_link(alloc, number, chain.last().copied()))?;
    if !is_stored(dag, alloc, &link)? {
        return Ok((0, 0));
    }
    chain.push(link.digest)?;
    match retry!(NoMemory, dag.freeze_for(alloc, link.digest))? {
        Ok(view) => {
            let seen = chain.iter().filter(|digest| view.get(digest).is_some());
            Ok((view.parts(), seen.count()))
        }
        Err(_refusal) => Ok((0, 0)),
    }
}

/// Whether the views of a chain of 17 blocks have 1 to 16 parts and then 2, and 1 after `compact`. Each has all blocks of the chain.
fn are_shared(dag: &mut Dag, alloc: Global) -> Result<bool, NoMemory> {
    let mut chain = retry!(AllocError, Vec::with_capacity(alloc, 17))?;
    for number in 0..17u8 {
        let count = usize::from(number) + 1;
        let parts = if number < 16 { count } else { 2 };
        if next_seen(dag, alloc, number, &mut chain)? != (parts, count) {
            return Ok(false);
        }
    }
    retry!(NoMemory, dag.compact(alloc))?;
    match chain.last() {
        Some(last) => Ok(parts_of(dag, alloc, *last)? == Ok(1)),
        None => Ok(false),
    }
}

#[test]
fn views_share_what_was_frozen(rt: HostRuntime) {
    let dag = &mut Dag::new(rt.alloc(), ROOM);
    assert_eq!(rt; are_shared(dag, rt.alloc()), Ok(true));
}

/// What the last view of a chain shows: its parts, and the chain's blocks in it. The garbage round is raised to `floor` before the last
/// block is written.
fn last_seen(alloc: Global, length: u8, floor: u8) -> Result<(usize, usize), NoMemory> {
    let mut dag = Dag::new(alloc, ROOM);
    let mut chain = retry!(AllocError, Vec::with_capacity(alloc, 64))?;
    let mut seen = (0, 0);
    for number in 0..length {
        if number.saturating_add(1) == length {
            retry!(NoMemory, dag.collect(round(floor)))?;
        }
        seen = next_seen(&mut dag, alloc, number, &mut chain)?;
    }
    Ok(seen)
}

// At the 17th block all 16 generations are joined: each has one block. The joined one has no collected block. At the 32nd, the oldest
// generation has 16 blocks and the others have 15, so only these are joined.
#[test]
fn full_generations_are_joined_without_collected_blocks(rt: HostRuntime) {
    for (length, floor, parts, count) in [(17, 0, 2, 17), (17, 8, 2, 9), (32, 0, 3, 32)] {
        let seen = last_seen(rt.alloc(), length, floor);
        assert_eq!(rt; seen, Ok((parts, count)), "{length} {floor}");
    }
}
