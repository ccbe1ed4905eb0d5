//! Views: the blocks of a few generations, and a floor.
ghost use Rattle.std.specs.Prelude.{◌≡◌, ◌≤◌, length};
ghost use Rattle.std.specs.Option.{option_copied};
ghost use Rattle.std.specs.FinMap as map;
ghost use Rattle.nw_model.specs.View.{IsClosed};
ghost use Rattle.nw_generation.specs.Seen.{most_generations, seen_of};

use crate::{Descent, Generation};
use nw_codec::Block;
use nw_digest::{Digest, Round, Shared};
use std::marker::Model;

/// The blocks of at most 16 generations, and a floor. If generations have different blocks under one digest, the latest
/// one counts.
///
/// A view is closed: each parent of a block above the floor is in the view, with the named author and the preceding round. No two
/// blocks at or above the floor share a slot.
#[derive(Drop)]
pub struct View {
    /// From the oldest to the latest.
    generations: Vec<Generation>,
    floor: Round,
}

impl Model for View {
    ghost use Rattle.nw_generation.specs.Seen.{Seen, IsView, coded_seen, seen_of};

    ghost Value = { Seen };

    ghost coded = { coded_seen };

    ghost view = { λ v. seen_of v.generations.items v.floor };

    ghost invariant = { λ v. IsView (seen_of v.generations.items v.floor) };
}

impl View {
    /// The view of these generations, from the oldest to the latest. Allocates no memory.
    pub fn new(generations: Vec<Generation>, floor: Round) -> View
        requires closed { IsClosed (seen_of generations.items floor).frozen }
        requires few { length generations.items ≤ most_generations }
        ensures { result ≡ seen_of generations.items floor }
    {
        View { generations, floor }
    }

    /// The block under the digest, or `None` if there is no such block. Searches each generation at most once, the latest first.
    pub fn get(&self, digest: &Digest) -> Option<&Shared<Block>>
        ensures block { option_copied result ≡ map.get self.now.frozen.blocks digest.now }
        ensures closed { IsClosed self.now.frozen }
    {
        self.descent().get(None, digest)
    }

    /// A search of all generations.
    pub fn descent(&self) -> Descent<'_>
        ensures blocks { result ≡ self.now.frozen.blocks }
        ensures closed { IsClosed self.now.frozen }
    {
        Descent::new(self.generations.as_slice())
    }

    /// The floor. Walks visit no blocks of rounds below it.
    pub fn floor(&self) -> Round
        ensures floor { result ≡ self.now.frozen.floor }
        ensures closed { IsClosed self.now.frozen }
    {
        self.floor
    }

    /// The number of generations.
    pub fn parts(&self) -> usize
        ensures parts { result ≡ self.now.parts }
        ensures few { result ≤ most_generations }
    {
        self.generations.len()
    }
}
