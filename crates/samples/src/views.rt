//! Views of frozen blocks.
ghost use Rattle.std.specs.Prelude.{◌≡◌, IfOk};
ghost use Rattle.std.specs.FinMap as map;

use crate::{Blocks, allow_allocations, fail_allocations, newer, older};
use nw_digest::{NoMemory, Round};
use nw_generation::{Generation, View, freeze};
use std::alloc::Global;

/// A view of one generation with one block: round 0, author 0, and this transaction. The view is made while all allocations fail.
pub fn view_of_one(alloc: Global, text: &[u8], floor: Round) -> Result<View, NoMemory>
    ensures { IfOk result (λ view. view.frozen.floor ≡ floor) }
{
    let view = starved_view_of_one(alloc, text, floor)?;
    allow_allocations(alloc);
    Ok(view)
}

/// A view of two generations. The older one has blocks of round 0 of authors 0, 1 and 2, each with this transaction. The later one has
/// one block of round 1, whose parents are those three blocks. The view is made while all allocations fail.
pub fn view_of_both(alloc: Global, text: &[u8], floor: Round) -> Result<View, NoMemory>
    ensures { IfOk result (λ view. view.frozen.floor ≡ floor) }
{
    let view = starved_view_of_both(alloc, text, floor)?;
    allow_allocations(alloc);
    Ok(view)
}

/// The view that `view_of_one` returns. If there is one, all allocations fail from now on.
fn starved_view_of_one(alloc: Global, text: &[u8], floor: Round) -> Result<View, NoMemory>
    ensures { IfOk result (λ view. view.frozen.floor ≡ floor) }
{
    let mut generations = Vec::new(alloc);
    generations.push(frozen(alloc, older(alloc, 1, text)?)?)?;
    fail_allocations(alloc);
    Ok(View::new(generations, floor))
}

/// The view that `view_of_both` returns. If there is one, all allocations fail from now on.
fn starved_view_of_both(alloc: Global, text: &[u8], floor: Round) -> Result<View, NoMemory>
    ensures { IfOk result (λ view. view.frozen.floor ≡ floor) }
{
    let mut generations = Vec::new(alloc);
    generations.push(frozen(alloc, older(alloc, 3, text)?)?)?;
    generations.push(frozen(alloc, newer(alloc)?)?)?;
    fail_allocations(alloc);
    Ok(View::new(generations, floor))
}

/// The generation of these blocks.
fn frozen(alloc: Global, trie: Blocks) -> Result<Generation, NoMemory>
    ensures { IfOk result (λ generation. generation ≡ map.from_entries trie) }
{
    match freeze(alloc, trie) {
        Ok(generation) => Ok(generation),
        Err((refused, _trie)) => Err(refused),
    }
}
