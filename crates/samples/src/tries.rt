//! Tries of blocks for tests to freeze.
ghost use Rattle.std.specs.Prelude.{IfOk};
ghost use Rattle.std.specs.FinMap as map;
ghost use Rattle.samples.specs.Sample.{AreBases, AreNext};

use crate::{name, references, round, shared_block};
use nw_codec::Block;
use nw_digest::{NoMemory, Round, Shared};
use nw_trie::Trie;
use std::alloc::Global;

/// Blocks under their digests.
pub type Blocks = Trie<Shared<Block>, Global>;

/// Blocks of round 0, one of each author below `authors`, with this transaction.
pub fn older(alloc: Global, authors: u8, text: &[u8]) -> Result<Blocks, NoMemory>
    ensures { IfOk result (λ trie. AreBases authors (map.from_entries trie)) }
{
    let mut trie = Trie::new_in(alloc);
    for author in 0..authors {
        let slot = (Round::ZERO, author as u16);
        let base = shared_block(alloc, slot, Vec::new(alloc), text)?;
        trie.put(name(0, author), base)?;
    }
    Ok(trie)
}

/// One block of round 1, by author 0. Its parents are the blocks of round 0 of authors 0, 1 and 2.
pub fn newer(alloc: Global) -> Result<Blocks, NoMemory>
    ensures { IfOk result (λ trie. AreNext 3 (map.from_entries trie)) }
{
    let mut trie = Trie::new_in(alloc);
    let next = shared_block(alloc, (round(1), 0), references(alloc)?, b"next")?;
    trie.put(name(1, 0), next)?;
    Ok(trie)
}
