//! Walks: lists of the ancestors of a digest in a view.
ghost use Rattle.std.specs.Prelude.{◌≡◌, ◌+◌, ◌≤◌, IfOk, OnOk, [], All, length};
ghost use Rattle.std.specs.List.Sorted.{IsBinarySearchResult, IsSearchInRange};
ghost use Rattle.std.specs.Ordering.{nat_cmp};
ghost use Rattle.nw_model.specs.View.{HasParent, IsClosed, HasBlock, IsWalk};
ghost use Rattle.nw_model.specs.Search.{IsNamed, IsParentOfAny};
ghost use Rattle.nw_generation.specs.Seen.{HasUpTo};
ghost use Rattle.nw_causal.specs.declared.ancestor.Ancestor.{Ancestor};
ghost use Rattle.nw_causal.specs.Looked.{AreFound, AreUnderTheirDigests, Gains, IsLevel};
ghost use Rattle.nw_causal.specs.Looked.{blocks, digests};

use crate::ancestor::Ancestor;
use nw_codec::{Block, Ref};
use nw_digest::{Digest, NoMemory, Round, Shared};
use nw_generation::{Descent, View};
use std::alloc::Global;
use std::mem::swap;

/// The walk of the digest: its block and all ancestors in the view, strictly ascending by round and author.
///
/// It visits the rounds from the block's own down to the floor. Each block is looked up once, even if many blocks refer to it.
///
/// `NoMemory`: an allocation failed.
pub fn walk(alloc: Global, view: &View, digest: Digest) -> Result<Vec<Shared<Block>>, NoMemory>
    requires { (b : Block) × HasBlock view.now.frozen digest b }
    ensures { IfOk result (λ blocks. IsWalk view.now.frozen digest blocks.items) }
{
    let lent = walk_lent(alloc, view, &digest)?;
    let mut blocks = Vec::with_capacity(alloc, lent.len())?;
    for ancestor in lent {
        blocks.push(ancestor.block.try_clone()?)?;
    }
    Ok(blocks)
}

/// The same walk, with the digest of each block. The view lends both, so it takes no owner of a block.
///
/// `NoMemory`: an allocation failed.
pub fn walk_lent<'a>(
    alloc: Global,
    view: &'a View,
    digest: &'a Digest,
) -> Result<Vec<Ancestor<'a>>, NoMemory>
    requires { (b : Block) × HasBlock view.now.frozen digest.now b }
    ensures walk { IfOk result
        (λ walked. IsWalk view.now.frozen digest.now (blocks walked.items)) }
    ensures digests { IfOk result (λ walked. AreUnderTheirDigests view.now.frozen walked.items) }
{
    let mut found = ancestors(alloc, view, digest)?;
    found.reverse();
    Ok(found)
}

/// The ancestors of the digest, strictly descending by round and author.
pub(crate) fn ancestors<'a>(
    alloc: Global,
    view: &'a View,
    digest: &'a Digest,
) -> Result<Vec<Ancestor<'a>>, NoMemory>
    requires { (b : Block) × HasBlock view.now.frozen digest.now b }
    ensures found { IfOk result (λ found. AreFound view.now.frozen digest.now found.items) }
    ensures closed { OnOk result (IsClosed view.now.frozen) }
{
    let floor = view.floor().get();
    let mut descent = view.descent();
    let first = Ancestor::look_up(&descent, None, digest);
    let mut round = first.block.get().round;
    let (mut found, mut level, mut parents) = (Vec::new(alloc), Vec::new(alloc), Vec::new(alloc));
    level.push(first)?;
    while floor < round.get() && !level.is_empty() {
        round = round.before().unwrap();
        descent.descend_to(round);
        find_parents_of_all(view, &descent, round, &level, &mut parents)?;
        found.append(&mut level)?;
        swap(&mut level, &mut parents);
    }
    found.append(&mut level)?;
    Ok(found)
}

/// Finds the parents of all blocks of a level, which has the ancestors of one round. The parents are of this round, and the level is of
/// the following one.
fn find_parents_of_all<'a>(
    view: &'a View,
    descent: &Descent<'a>,
    round: Round,
    level: &[Ancestor<'a>],
    parents: &mut Vec<Ancestor<'a>>,
) -> Result<(), NoMemory>
    requires closed { IsClosed view.now.frozen }
    requires floor { view.now.frozen.floor ≤ round }
    requires descent { HasUpTo view.now.frozen.blocks round descent.now }
    requires level { IsLevel view.now.frozen (round + 1) level.now }
    requires empty { parents.old.items ≡ [] }
    ensures level { OnOk result (IsLevel view.now.frozen round parents.new.items) }
    ensures gains { OnOk result (Gains (IsParentOfAny view.now.frozen (digests level.now))
        parents.old.items parents.new.items) }
{
    for child in level {
        let references = child.block.get().parents.as_slice();
        find_parents(view, descent, round, references, parents)?;
    }
    Ok(())
}

/// Adds the referenced blocks of the round to the parents, which descend by author.
///
/// A reference names the author, so each block is looked up only once. References ascend by author, so the place of the next author
/// is usually just before the last place.
fn find_parents<'a>(
    view: &'a View,
    descent: &Descent<'a>,
    round: Round,
    references: &'a [Ref],
    parents: &mut Vec<Ancestor<'a>>,
) -> Result<(), NoMemory>
    requires closed { IsClosed view.now.frozen }
    requires floor { view.now.frozen.floor ≤ round }
    requires descent { HasUpTo view.now.frozen.blocks round descent.now }
    requires there { All (HasParent view.now.frozen.blocks (round + 1)) references.now }
    requires level { IsLevel view.now.frozen round parents.old.items }
    ensures level { OnOk result (IsLevel view.now.frozen round parents.new.items) }
    ensures gains { OnOk result
        (Gains (IsNamed references.now) parents.old.items parents.new.items) }
{
    let mut last = parents.len();
    for reference in references {
        match place_of(parents, reference.author, last.saturating_sub(1)) {
            Ok(place) => last = place,
            Err(place) => {
                let parent = Ancestor::look_up(
                    descent,
                    Some((round, reference.author)),
                    &reference.digest,
                );
                parents.insert(place, parent)?;
                last = place;
            }
        }
    }
    Ok(())
}

/// Searches for the author's block in a level, which descends by author. `Ok` has the place of the block, and `Err` the place at which
/// to insert it. The guessed place is tested first.
fn place_of(level: &[Ancestor<'_>], author: u16, guess: usize) -> Result<usize, usize>
    ensures bound { IsSearchInRange result (length level.now) }
    ensures position { IsBinarySearchResult
        (λ (a : Ancestor). nat_cmp author a.block.now.author) level.now result }
{
    match level.get(guess) {
        Some(other) if other.block.get().author == author => Ok(guess),
        _ => level.binary_search_by(|other| author.cmp(&other.block.get().author)),
    }
}
