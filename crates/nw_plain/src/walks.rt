//! Walks: the ancestors of a block in a view.
ghost use Rattle.std.specs.Prelude.{IfOk, All, []};
ghost use Rattle.std.specs.FinMap as map;
ghost use Rattle.nw_model.specs.View.{HasBlock, IsWalk};
ghost use Rattle.nw_model.specs.Search.{AreUnderSlots, AreAbove, IsNamed, IsParentOfAny, Finds, FindsAncestors};

use crate::view::View;
use nw_codec::Block;
use nw_digest::{Digest, NoMemory, Round, Shared};
use std::alloc::Global;
use std::collections::BTreeMap;

/// The blocks of the ancestors of the digest in the view, strictly ascending by round and author.
///
/// The walk goes round by round, from the block's own down to the floor. It looks a block up again for each reference to it.
pub(crate) fn walk(
    alloc: Global,
    view: &View,
    digest: Digest,
) -> Result<Vec<Shared<Block>>, NoMemory>
    requires { (b : Block) × HasBlock view.now digest b }
    ensures { IfOk result (λ blocks. IsWalk view.now digest blocks.items) }
{
    let found = ancestors(alloc, view, digest)?;
    let mut blocks = Vec::with_capacity(alloc, found.len())?;
    for digest in found.values() {
        if let Some(block) = view.get(digest) {
            blocks.push(block.try_clone()?)?;
        }
    }
    Ok(blocks)
}

/// The ancestors of the digest, by round and author.
fn ancestors(
    alloc: Global,
    view: &View,
    digest: Digest,
) -> Result<BTreeMap<(Round, u16), Digest>, NoMemory>
    requires { (b : Block) × HasBlock view.now digest b }
    ensures { IfOk result (λ found. FindsAncestors view.now digest (map.from_entries found.entries)) }
{
    let mut found = BTreeMap::new(alloc);
    let mut frontier = Vec::new(alloc);
    if let Some(block) = view.get(&digest) {
        let block = block.get();
        found.insert((block.round, block.author), digest)?;
        frontier.push(digest)?;
        for _ in view.floor().get()..block.round.get() {
            if frontier.is_empty() {
                break;
            }
            frontier = parents_of_all(alloc, view, &frontier, &mut found)?;
        }
    }
    Ok(found)
}

/// The parents of the frontier's blocks, without those that were found before. Adds them to `found`.
fn parents_of_all(
    alloc: Global,
    view: &View,
    frontier: &[Digest],
    found: &mut BTreeMap<(Round, u16), Digest>,
) -> Result<Vec<Digest>, NoMemory>
    requires above { AreAbove view.now frontier.now }
    requires under { AreUnderSlots view.now (map.from_entries found.old.entries) }
    ensures { IfOk result (λ parents. Finds view.now (IsParentOfAny view.now frontier.now)
        (map.from_entries found.old.entries) (map.from_entries found.new.entries)
        [] parents.items) }
{
    let mut parents = Vec::new(alloc);
    for digest in frontier {
        if let Some(block) = view.get(digest) {
            find_parents(view, block.get(), found, &mut parents)?;
        }
    }
    Ok(parents)
}

/// Adds the parents of the block that were not found before to `found` and to `parents`.
fn find_parents(
    view: &View,
    block: &Block,
    found: &mut BTreeMap<(Round, u16), Digest>,
    parents: &mut Vec<Digest>,
) -> Result<(), NoMemory>
    requires there { All (λ r. (b : Block) × HasBlock view.now r.digest b) block.now.parents }
    requires under { AreUnderSlots view.now (map.from_entries found.old.entries) }
    ensures { IfOk result (λ _. Finds view.now (IsNamed block.now.parents)
        (map.from_entries found.old.entries) (map.from_entries found.new.entries)
        parents.old.items parents.new.items) }
{
    for reference in block.parents.as_slice() {
        if let Some(parent) = view.get(&reference.digest) {
            let parent = parent.get();
            let slot = (parent.round, parent.author);
            if !found.contains_key(&slot) {
                found.insert(slot, reference.digest)?;
                parents.push(reference.digest)?;
            }
        }
    }
    Ok(())
}
