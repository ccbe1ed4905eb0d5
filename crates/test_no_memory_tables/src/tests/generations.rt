//! Two generations: three blocks without parents, and one over them. They are frozen directly, and by a `Dag`.
use super::dags::{Own, ROOM, is_stored, own_block, parts_of};
use super::views::{frozen, walks};
use super::*;
use nw_codec::Ref;
use nw_dag::Dag;
use nw_model::CollectReply;
use nw_trie::Trie;
use samples::Blocks;

/// The blocks of a committee of four: three of round 0, and one over them. None has transactions.
fn four_owns(alloc: Global) -> Result<Vec<Own>, NoMemory> {
    let mut owns = Vec::with_capacity(alloc, 4)?;
    let mut parents = Vec::with_capacity(alloc, 3)?;
    for author in 0..3u16 {
        let own = own_block(alloc, (Round::ZERO, author), &[])?;
        let digest = own.digest;
        parents.push(Ref { author, digest })?;
        owns.push(own)?;
    }
    owns.push(own_block(alloc, (round(1), 0), &parents)?)?;
    Ok(owns)
}

/// A trie of the blocks, under their digests.
fn trie_of(alloc: Global, owns: &[&Own]) -> Result<Blocks, NoMemory> {
    let mut trie = Trie::new_in(alloc);
    for own in owns {
        trie.put(own.digest, own.block.try_clone()?)?;
    }
    Ok(trie)
}

/// Whether a generation of these blocks, frozen directly, has each of them under its digest.
fn are_frozen(alloc: Global, owns: &[&Own]) -> Result<bool, NoMemory> {
    let generation = frozen(alloc, retry!(NoMemory, trie_of(alloc, owns))?)?;
    Ok(
        owns.iter().all(|own| match generation.get(None, &own.digest) {
            Some(block) => block.get() == own.block.get(),
            None => false,
        }),
    )
}

/// Whether the view for the digest has two parts and this floor, and a walk from the digest lists the blocks under these digests.
fn walks_over_two(
    dag: &mut Dag,
    alloc: Global,
    floor: u8,
    digest: Digest,
    digests: &[Digest],
) -> Result<bool, NoMemory> {
    let view = match retry!(NoMemory, dag.freeze_for(alloc, digest))? {
        Ok(view) => view,
        Err(_refusal) => return Ok(false),
    };
    let is_listed = walks(alloc, &view, digest, digests)?;
    Ok(is_listed && (view.parts(), view.floor()) == (2, round(floor)))
}

/// Whether a walk from the last of the four blocks, in a view of two generations, lists all of them, and only itself after a collection.
fn walks_over_both(dag: &mut Dag, alloc: Global) -> Result<bool, NoMemory> {
    let owns = retry!(NoMemory, four_owns(alloc))?;
    let [a0, a1, a2, b] = owns.as_slice() else {
        return Ok(false);
    };
    for it in [a0, a1, a2] {
        if !is_stored(dag, alloc, it)? {
            return Ok(false);
        }
    }
    let digests = [a0.digest, a1.digest, a2.digest, b.digest];
    let directly = are_frozen(alloc, &[a0, a1, a2])? && are_frozen(alloc, &[b])?;
    let all = parts_of(dag, alloc, a2.digest)? == Ok(1)
        && is_stored(dag, alloc, b)?
        && walks_over_two(dag, alloc, 0, b.digest, &digests)?;
    let collected = retry!(NoMemory, dag.collect(round(1)))?;
    let only = collected == CollectReply::Raised { dropped: 3 }
        && walks_over_two(dag, alloc, 1, b.digest, &digests[3..])?;
    Ok(directly && all && only)
}

#[test]
fn a_walk_over_two_generations_of_a_dag(rt: HostRuntime) {
    let dag = &mut Dag::new(rt.alloc(), ROOM);
    assert_eq!(rt; walks_over_both(dag, rt.alloc()), Ok(true));
}
