//! The generations of a store. Its views are made from them.
ghost use Rattle.std.specs.Prelude.{◌≡◌, ◌+◌, ◌<◌, ◌≤◌, IfOk, OnOk, OnErr};
ghost use Rattle.std.specs.FinMap as map;
ghost use Rattle.nw_model.specs.Step.{from_round};
ghost use Rattle.nw_model.specs.View.{IsClosed};
ghost use Rattle.nw_generation.specs.Entries.{Ascend};
ghost use Rattle.nw_generation.specs.Seen.{IsOverlay, most_generations, union};

use crate::entries::{EntryRef, merged, owned};
use crate::{Generation, View};
use nw_digest::{NoMemory, Round};
use std::alloc::Global;
use std::marker::Model;

/// At most 16 generations. Freezing blocks adds one. Contracts see the number of generations and the union of their blocks.
/// If generations have different blocks under one digest, the latest one counts.
#[derive(Drop)]
pub struct Generations {
    /// From the oldest to the latest.
    list: Vec<Generation>,
}

impl Model for Generations {
    ghost use Rattle.std.specs.Prelude.{◌≤◌, length};
    ghost use Rattle.nw_generation.specs.Seen.{Joined, coded_joined, joined, most_generations};

    ghost Value = { Joined };

    ghost coded = { coded_joined };

    ghost view = { λ g. joined g.list.items };

    ghost invariant = { λ g. length g.list.items ≤ most_generations };
}

impl Generations {
    /// No generations. Allocates no memory.
    pub fn new(alloc: Global) -> Generations
        ensures { result ≡ record { blocks = map.empty; parts = 0 } }
    {
        Generations {
            list: Vec::new(alloc),
        }
    }

    /// The number of generations.
    pub fn parts(&self) -> usize
        ensures parts { result ≡ self.now.parts }
        ensures few { result ≤ most_generations }
    {
        self.list.len()
    }

    /// Adds a generation as the latest one.
    ///
    /// `NoMemory`: an allocation failed. Nothing changed.
    pub fn push(&mut self, generation: Generation) -> Result<(), NoMemory>
        requires room { self.old.parts < most_generations }
        ensures blocks { OnOk result (IsOverlay generation self.old.blocks self.new.blocks) }
        ensures parts { OnOk result (self.new.parts ≡ self.old.parts + 1) }
        ensures unchanged { OnErr result (self.new ≡ self.old) }
    {
        self.list.push(generation)?;
        Ok(())
    }

    /// One generation with all blocks at or above the round. It shares them.
    ///
    /// `NoMemory`: an allocation failed.
    pub fn joined(&self, alloc: Global, round: Round) -> Result<Generation, NoMemory>
        ensures { IfOk result
            (λ generation. generation ≡ from_round (λ b. b.round) round self.now.blocks) }
    {
        let lent = joined_entries(alloc, self.list.as_slice())?;
        let entries = owned(alloc, &lent, round)?;
        Generation::of(alloc, entries)
    }

    /// The index of the first generation to join with all later ones.
    ///
    /// This is the oldest generation with at most half as many blocks as all later ones together, or the very oldest if it has at most as
    /// many. So each block is joined only a few times, and collected blocks, which leave only when all are joined, do not stay for long.
    /// At least the last two generations are joined.
    pub fn join_start(&self) -> usize
        requires several { 2 ≤ self.now.parts }
        ensures { result + 2 ≤ self.now.parts }
    {
        let last = self.list.len() - 2;
        let (mut first, mut later) = (last, 0usize);
        let mut left = self.list.as_slice();
        while let Some((generation, older)) = left.split_last() {
            let most = if older.is_empty() { later } else { later / 2 };
            if generation.len() <= most {
                first = older.len();
            }
            later = later.saturating_add(generation.len());
            left = older;
        }
        first.min(last)
    }

    /// The same blocks in `first` + 1 generations: the first ones stay, and the others are joined into one. The blocks are shared.
    ///
    /// `NoMemory`: an allocation failed.
    pub fn joined_from(&self, alloc: Global, first: usize) -> Result<Generations, NoMemory>
        requires within { first < self.now.parts }
        ensures blocks { IfOk result (λ joined. joined.blocks ≡ self.now.blocks) }
        ensures parts { IfOk result (λ joined. joined.parts ≡ first + 1) }
    {
        let (older, later) = self.list.as_slice().split_at(first);
        let lent = joined_entries(alloc, later)?;
        let entries = owned(alloc, &lent, Round::ZERO)?;
        let mut list = shared(alloc, older)?;
        list.push(Generation::of(alloc, entries)?)?;
        Ok(Generations { list })
    }

    /// A view of all blocks. It shares the generations.
    ///
    /// `NoMemory`: an allocation failed.
    pub fn view(&self, alloc: Global, floor: Round) -> Result<View, NoMemory>
        requires closed { IsClosed (record { blocks = self.now.blocks; floor = floor }) }
        ensures { IfOk result (λ view. view ≡ record {
          frozen = record { blocks = self.now.blocks; floor = floor };
          parts = self.now.parts;
        }) }
    {
        Ok(View::new(shared(alloc, self.list.as_slice())?, floor))
    }
}

/// The entries of these generations, joined: one for each digest, the latest generation's.
fn joined_entries<'a>(
    alloc: Global,
    generations: &'a [Generation],
) -> Result<Vec<EntryRef<'a>>, NoMemory>
    ensures ascend { IfOk result (λ entries. Ascend entries.items) }
    ensures union { IfOk result
        (λ entries. map.from_entries entries.items ≡ union generations.now) }
{
    let mut entries = Vec::new(alloc);
    let mut left = generations;
    while let Some((generation, older)) = left.split_last() {
        entries = merged(alloc, &entries, generation.entries())?;
        left = older;
    }
    Ok(entries)
}

/// A clone of each generation.
fn shared(alloc: Global, generations: &[Generation]) -> Result<Vec<Generation>, NoMemory>
    ensures { IfOk result (λ list. list.items ≡ generations.now) }
{
    let mut list = Vec::with_capacity(alloc, generations.len())?;
    for generation in generations {
        list.push(generation.try_clone()?)?;
    }
    Ok(list)
}
