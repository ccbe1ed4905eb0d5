//! Generations: blocks that were frozen at one moment.
ghost use Rattle.std.specs.Prelude.{◌≡◌, ◌<◌, IfOk, IfErr, IsTrue, Some};
ghost use Rattle.std.specs.Option.{option_copied};
ghost use Rattle.std.specs.FinMap as map;
ghost use Rattle.nw_generation.specs.Entries.{Ascend};
ghost use Rattle.nw_generation.specs.Seen.{IsOfRound};

use crate::entries::{Entry, of_trie};
use crate::index::Index;
use nw_codec::Block;
use nw_digest::{Digest, NoMemory, Round, Shared};
use nw_trie::Trie;
use std::alloc::{Allocator, Global};
use std::marker::Model;

/// Blocks under their digests, which never change. Clones share them. Contracts see a finite map from digests to blocks.
#[derive(Drop)]
pub struct Generation {
    index: Shared<Index>,
}

impl Model for Generation {
    ghost use Rattle.std.specs.FinMap as map;
    ghost use Rattle.nw_codec.specs.declared.block.Block.{Block};
    ghost use Rattle.nw_digest.specs.Codes.{coded_digest};
    ghost use Rattle.nw_digest.specs.Order.{digest_cmp};
    ghost use Rattle.nw_model.specs.State.{coded_block};

    ghost Value = { map.FinMap digest_cmp Block };

    ghost coded = { map.code coded_digest coded_block };

    ghost view = { λ g. map.from_entries g.index };
}

/// Freezes the blocks of the trie into a generation, which shares them.
///
/// `NoMemory`: an allocation failed. The error returns the trie unchanged.
pub fn freeze<A: Allocator>(
    alloc: Global,
    trie: Trie<Shared<Block>, A>,
) -> Result<Generation, (NoMemory, Trie<Shared<Block>, A>)>
    ensures frozen { IfOk result (λ generation. generation ≡ map.from_entries trie) }
    ensures handed_back { IfErr result (λ refused. refused.1 ≡ trie) }
{
    match frozen(alloc, &trie) {
        Ok(generation) => Ok(generation),
        Err(refused) => Err((refused, trie)),
    }
}

/// The generation of the trie's blocks.
fn frozen<A: Allocator>(
    alloc: Global,
    trie: &Trie<Shared<Block>, A>,
) -> Result<Generation, NoMemory>
    ensures { IfOk result (λ generation. generation ≡ map.from_entries trie.now) }
{
    let entries = of_trie(alloc, trie)?;
    Generation::of(alloc, entries)
}

impl Generation {
    /// Freezes these entries, each a digest and an owner of its block, into a generation. The digests must ascend strictly.
    ///
    /// `NoMemory`: an allocation failed. The entries are dropped.
    pub fn of(alloc: Global, entries: Vec<Entry>) -> Result<Generation, NoMemory>
        requires { Ascend entries.items }
        ensures { IfOk result (λ generation. generation ≡ map.from_entries entries.items) }
    {
        let index = Index::of(alloc, entries)?;
        Ok(Generation {
            index: Shared::new(alloc, index)?,
        })
    }

    /// A clone, which shares the blocks.
    pub fn try_clone(&self) -> Result<Generation, NoMemory>
        ensures { IfOk result (λ generation. generation ≡ self.now) }
    {
        Ok(Generation {
            index: self.index.try_clone()?,
        })
    }

    /// The number of blocks.
    pub(crate) fn len(&self) -> usize {
        self.entries().len()
    }

    /// Its entries, ascending.
    pub(crate) fn entries(&self) -> &[Entry]
        ensures entries { map.from_entries result.now ≡ self.now }
        ensures ascend { Ascend result.now }
    {
        self.index.get().entries()
    }

    /// The block under the digest, or `None` if there is no such block.
    ///
    /// `slot` makes the search fast. Its round must be that of the block, if the generation has the block. Its author is only a
    /// guess. If the round is outside the range of the generation's rounds, nothing is searched.
    pub fn get(&self, slot: Option<(Round, u16)>, digest: &Digest) -> Option<&Shared<Block>>
        requires { IsOfRound slot (map.get self.now digest.now) }
        ensures { option_copied result ≡ map.get self.now digest.now }
    {
        self.index.get().get(&slot, digest)
    }

    /// Whether all blocks are of higher rounds than this one.
    pub(crate) fn is_above(&self, round: Round) -> bool
        ensures { IsTrue result → (d : Digest) (b : Block) → map.get self.now d ≡ Some b → round < b.round }
    {
        self.index.get().is_above(round)
    }
}
