//! Generations, views of them, walks, and the agreement of two walks.
use super::*;
use nw_causal::{Agreement, agree, walk};
use nw_generation::{Generation, freeze};
use samples::{Blocks, older, view_of_both, view_of_one};

/// Freezes the blocks, and returns one more owner of their generation. If the freeze runs out of memory, it returns the blocks.
pub(super) fn frozen(alloc: Global, trie: Blocks) -> Result<Generation, NoMemory> {
    let generation = match retry!((NoMemory, trie), freeze(alloc, trie)) {
        Ok(generation) => generation,
        Err((refused, _trie)) => return Err(refused),
    };
    retry!(NoMemory, generation.try_clone())
}

#[test]
fn a_refused_freeze_hands_its_blocks_back(rt: HostRuntime) {
    let trie = retry!(NoMemory, older(rt.alloc(), 3, b"x")).expect(&rt, "allocation succeeds");
    let generation = frozen(rt.alloc(), trie).expect(&rt, "allocation succeeds");
    let found = [name(0, 2), name(1, 0)].map(|digest: Digest| generation
        .get(None, &digest)
        .is_some());
    assert_eq!(rt; found, [true, false]);
}

/// Whether these are the view's blocks under the digests, in order.
fn are_under(view: &View, blocks: &[Shared<Block>], digests: &[Digest]) -> bool {
    for (block, digest) in blocks.iter().zip(digests) {
        match view.get(digest) {
            Some(found) if found.get() == block.get() => {}
            _ => return false,
        }
    }
    blocks.len() == digests.len()
}

/// Whether the walk from the digest lists the view's blocks under these digests. Fails if the view lacks the block or has it below its floor.
pub(super) fn walks(
    alloc: Global,
    view: &View,
    digest: Digest,
    digests: &[Digest],
) -> Result<bool, NoMemory> {
    let start = view.get(&digest).ok_or(NoMemory)?.get();
    if start.round.get() < view.floor().get() {
        return Err(NoMemory);
    }
    let blocks = retry!(NoMemory, walk(alloc, view, digest))?;
    Ok(are_under(view, &blocks, digests))
}

/// Whether a walk from the later generation's block lists the blocks under these digests, in a view of two generations with this floor.
fn lists(alloc: Global, floor: u8, digests: &[Digest]) -> Result<bool, NoMemory> {
    let view = retry!(NoMemory, view_of_both(alloc, b"x", round(floor)))?;
    let listed = walks(alloc, &view, name(1, 0), digests)?;
    Ok(listed && view.parts() == 2)
}

#[test]
fn a_walk_over_two_generations(rt: HostRuntime) {
    let four = [name(0, 0), name(0, 1), name(0, 2), name(1, 0)];
    assert_eq!(rt; lists(rt.alloc(), 0, &four), Ok(true));
    assert_eq!(rt; lists(rt.alloc(), 1, &four[3..]), Ok(true));
}

/// The block's first transaction, or an empty text if it has none.
fn text_of(block: &Block) -> &[u8] {
    block.transactions.iter().next().unwrap_or(&[])
}

/// Whether the walks from the digest agree. If not, the colliding blocks must have the transactions "x" and `text`. Fails if the floors
/// differ, or if a view lacks the block or has it below its floor.
fn is_same(
    alloc: Global,
    one: &View,
    other: &View,
    digest: Digest,
    text: &[u8],
) -> Result<bool, NoMemory> {
    let first = one.get(&digest).ok_or(NoMemory)?.get();
    let second = other.get(&digest).ok_or(NoMemory)?.get();
    let floor = one.floor().get();
    if other.floor().get() != floor || first.round.get() < floor || second.round.get() < floor {
        return Err(NoMemory);
    }
    match retry!(NoMemory, agree(alloc, one, other, digest))? {
        Agreement::Same => Ok(true),
        Agreement::Collision { one, other }
            if text_of(one.get()) == b"x".as_slice() && text_of(other.get()) == text => {
            Ok(false)
        }
        _ => Err(NoMemory),
    }
}

/// Whether the walks agree in two views of two generations with this floor. The blocks of the older generation have "x" in one view, and
/// `text` in the other.
fn agree_in_both(alloc: Global, floor: u8, digest: Digest, text: &[u8]) -> Result<bool, NoMemory> {
    let one = retry!(NoMemory, view_of_both(alloc, b"x", round(floor)))?;
    let other = retry!(NoMemory, view_of_both(alloc, text, round(floor)))?;
    is_same(alloc, &one, &other, digest, text)
}

#[test]
fn walks_agree_or_two_blocks_collide(rt: HostRuntime) {
    for (floor, digest, text, same) in [
        (0, name(0, 0), b"x", true),
        (0, name(0, 0), b"y", false),
        (0, name(1, 0), b"x", true),
        (0, name(1, 0), b"y", false),
        (1, name(1, 0), b"y", true),
    ] {
        assert_eq!(rt; agree_in_both(rt.alloc(), floor, digest, text), Ok(same));
    }
}

/// Whether the walks agree in two views of one generation with one block. It has "x" in one view, and `text` in the other.
fn agree_in_one(alloc: Global, text: &[u8]) -> Result<bool, NoMemory> {
    let one = retry!(NoMemory, view_of_one(alloc, b"x", Round::ZERO))?;
    let other = retry!(NoMemory, view_of_one(alloc, text, Round::ZERO))?;
    is_same(alloc, &one, &other, name(0, 0), text)
}

#[test]
fn two_blocks_of_one_digest_are_shown(rt: HostRuntime) {
    assert_eq!(rt; agree_in_one(rt.alloc(), b"y"), Ok(false));
    assert_eq!(rt; agree_in_one(rt.alloc(), b"x"), Ok(true));
}
