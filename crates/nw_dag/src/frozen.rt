//! Frozen blocks: generations of complete blocks, which views share.
ghost use Rattle.std.specs.Prelude.{◌≡◌, ◌<◌, ◌≤◌, IfOk, OnOk, OnErr};
ghost use Rattle.std.specs.List.Sorted.{IsStrictlySortedBy};
ghost use Rattle.nw_digest.specs.Order.{digest_cmp};
ghost use Rattle.nw_model.specs.Step.{from_round};
ghost use Rattle.nw_dag.specs.Frozen.{AreFrozen, AreFrozenExcept, AreAllOrFrom, AreHeldUnder};

use crate::waits::Waits;
use nw_codec::Block;
use nw_digest::{Digest, NoMemory, Round, Shared};
use nw_generation::{Generation, Generations};
use nw_state::StateTables;
use std::alloc::Global;

/// The maximum number of generations. A view searches each of them.
const MAX_GENERATIONS: usize = 16;

/// Freezes the blocks that became complete since the last freeze as one more generation, and empties their list. If there are no
/// such blocks, it adds no generation. If there are `MAX_GENERATIONS` generations already, it first joins some of them into
/// one.
///
/// `NoMemory` if allocation fails. Then the generations are unchanged. The list may be sorted, without collected blocks and repetitions.
pub(crate) fn freeze(
    generations: &mut Generations,
    alloc: Global,
    held: &StateTables,
    waits: &mut Waits,
) -> Result<(), NoMemory>
    requires { AreFrozenExcept held.now.state waits.old.missing.lacking waits.old.completions.fresh.items
        generations.old.blocks }
    ensures all { OnOk result
        (AreFrozen held.now.state waits.old.missing.lacking generations.new.blocks) }
    ensures frozen { AreFrozenExcept held.now.state waits.old.missing.lacking
        waits.new.completions.fresh.items generations.new.blocks }
    ensures unmet { waits.new.missing.unmet ≡ waits.old.missing.unmet }
    ensures lacking { waits.new.missing.lacking ≡ waits.old.missing.lacking }
    ensures pending { waits.new.completions.pending ≡ waits.old.completions.pending }
    ensures unchanged { OnErr result (generations.new ≡ generations.old) }
{
    waits.completions.drop_stale(held, &waits.missing);
    if waits.completions.listed() == 0 {
        return Ok(());
    }
    waits.completions.sort();
    let fresh = freeze_held(alloc, held, waits.completions.fresh.as_slice())?;
    if generations.parts() == MAX_GENERATIONS {
        let mut all = fewer(generations, alloc, held.floor())?;
        all.push(fresh)?;
        *generations = all;
    } else {
        generations.push(fresh)?;
    }
    waits.completions.clear();
    Ok(())
}

/// The blocks of the generations, in fewer generations. If all are joined into one, blocks below the round are left out.
fn fewer(generations: &Generations, alloc: Global, round: Round) -> Result<Generations, NoMemory>
    requires { 2 ≤ generations.now.parts }
    ensures blocks { IfOk result
        (λ fewer. AreAllOrFrom round generations.now.blocks fewer.blocks) }
    ensures parts { IfOk result (λ fewer. fewer.parts < generations.now.parts) }
{
    match generations.join_start() {
        0 => as_one(generations, alloc, round),
        first => generations.joined_from(alloc, first),
    }
}

/// The blocks of the generations from this round on, as one generation. The cost depends only on the number of frozen blocks.
pub(crate) fn as_one(
    generations: &Generations,
    alloc: Global,
    round: Round,
) -> Result<Generations, NoMemory>
    ensures blocks { IfOk result (λ joined. joined.blocks
        ≡ from_round (λ (b : Block). b.round) round generations.now.blocks) }
    ensures parts { IfOk result (λ joined. joined.parts ≡ 1) }
{
    let mut one = Generations::new(alloc);
    one.push(generations.joined(alloc, round)?)?;
    Ok(one)
}

/// A generation of the blocks held under these digests, which must ascend strictly.
fn freeze_held(
    alloc: Global,
    held: &StateTables,
    digests: &[Digest],
) -> Result<Generation, NoMemory>
    requires { IsStrictlySortedBy digest_cmp digests.now }
    ensures { IfOk result (AreHeldUnder held.now.state digests.now) }
{
    let mut entries = Vec::with_capacity(alloc, digests.len())?;
    for digest in digests {
        if let Some(block) = held.block(digest) {
            entries.push((*digest, block.try_clone()?))?;
        }
    }
    Generation::of(alloc, entries)
}
