//! Searches of a view by descending rounds.
ghost use Rattle.std.specs.Prelude.{◌≡◌};
ghost use Rattle.std.specs.Option.{option_copied};
ghost use Rattle.std.specs.FinMap as map;
ghost use Rattle.nw_generation.specs.Seen.{HasUpTo, IsOfRound, union};

use crate::Generation;
use nw_codec::Block;
use nw_digest::{Digest, Round, Shared};
use std::marker::Model;

/// The generations of a view in which a search may still find blocks. A walk visits rounds in descending order, so it can leave out each
/// generation that has only blocks of higher rounds. Contracts see the blocks of the generations: if generations have different blocks
/// under one digest, the latest one counts.
#[derive(Drop)]
pub struct Descent<'a> {
    /// From the oldest to the latest.
    generations: &'a [Generation],
}

impl<'a> Model for Descent<'a> {
    ghost use Rattle.std.specs.FinMap as map;
    ghost use Rattle.nw_codec.specs.declared.block.Block.{Block};
    ghost use Rattle.nw_digest.specs.Codes.{coded_digest};
    ghost use Rattle.nw_digest.specs.Order.{digest_cmp};
    ghost use Rattle.nw_model.specs.State.{coded_block};
    ghost use Rattle.nw_generation.specs.Seen.{union};

    ghost Value = { map.FinMap digest_cmp Block };

    ghost coded = { map.code coded_digest coded_block };

    ghost view = { λ d. union d.generations.now };
}

impl<'a> Descent<'a> {
    /// A search of these generations.
    pub(crate) fn new(generations: &'a [Generation]) -> Descent<'a>
        ensures { result ≡ union generations.now }
    {
        Descent { generations }
    }

    /// Leaves out the latest generations, as long as they have only blocks of higher rounds than this one.
    pub fn descend_to(&mut self, round: Round)
        ensures { HasUpTo self.old round self.new }
    {
        while let Some((generation, older)) = self.generations.split_last() {
            if !generation.is_above(round) {
                break;
            }
            self.generations = older;
        }
    }

    /// The block under the digest, or `None` if there is no such block. Searches each generation at most once, the latest first.
    ///
    /// `slot` makes the search fast. Its round must be that of the block, if there is one. Its author is only a guess. Only generations
    /// whose range of rounds includes this round are searched.
    pub fn get(&self, slot: Option<(Round, u16)>, digest: &Digest) -> Option<&'a Shared<Block>>
        requires { IsOfRound slot (map.get self.now digest.now) }
        ensures { option_copied result ≡ map.get self.now digest.now }
    {
        // Rattle's borrow checker does not allow a copy of the argument itself in a loop.
        let named = &slot;
        let mut left = self.generations;
        while let Some((generation, older)) = left.split_last() {
            if let Some(block) = generation.get(*named, digest) {
                return Some(block);
            }
            left = older;
        }
        None
    }
}
