//! Entries: blocks under their digests, ascending.
ghost use Rattle.std.specs.Prelude.{◌≡◌, ◌≤◌, IfOk, IfSome, [], drop, filter, length, nat_le};
ghost use Rattle.std.specs.Option.{MatchOption};
ghost use Rattle.std.specs.FinMap as map;
ghost use Rattle.nw_generation.specs.Entries.{Ascend, IsNext};
ghost use Rattle.nw_generation.specs.Seen.{IsOverlay};

use nw_codec::Block;
use nw_digest::{Digest, InRound, NoMemory, Round, Shared};
use nw_trie::Trie;
use std::alloc::{Allocator, Global};
use std::cmp::Ordering;
use std::marker::Model;

/// A block under its digest, with shared ownership.
pub type Entry = (Digest, Shared<Block>);

/// A borrowed entry. Contracts see the entry.
#[derive(Drop)]
pub(crate) struct EntryRef<'a> {
    entry: &'a Entry,
}

impl<'a> Model for EntryRef<'a> {
    ghost use Rattle.nw_codec.specs.declared.block.Block.{Block};
    ghost use Rattle.nw_digest.specs.declared.digest.Digest.{Digest};

    ghost Value = { Digest × Block };

    ghost view = { λ l. l.entry.now };
}

/// One entry for each block of the trie. The blocks are shared.
pub(crate) fn of_trie<A: Allocator>(
    alloc: Global,
    trie: &Trie<Shared<Block>, A>,
) -> Result<Vec<Entry>, NoMemory>
    ensures { IfOk result (λ entries. (entries.items ≡ trie.now) × Ascend entries.items) }
{
    let mut entries = Vec::with_capacity(alloc, trie.len())?;
    for (digest, block) in trie.iter() {
        entries.push((*digest, block.try_clone()?))?;
    }
    Ok(entries)
}

/// The entries of both lists, ascending. If both lists have a digest, the newer list's entry is taken.
pub(crate) fn merged<'a>(
    alloc: Global,
    newer: &[EntryRef<'a>],
    older: &'a [Entry],
) -> Result<Vec<EntryRef<'a>>, NoMemory>
    requires newer { Ascend newer.now }
    requires older { Ascend older.now }
    ensures { IfOk result (λ both. Ascend both.items × IsOverlay (map.from_entries newer.now)
        (map.from_entries older.now) (map.from_entries both.items)) }
{
    let most = newer.len().saturating_add(older.len());
    let mut both = Vec::with_capacity(alloc, most)?;
    let (mut newer, mut older) = (newer, older);
    while let Some((entry, of_newer, of_older)) = first_of_both(newer, older) {
        both.push(EntryRef { entry })?;
        newer = &newer[of_newer..];
        older = &older[of_older..];
    }
    Ok(both)
}

/// The first entry of both lists, and for each list the number of entries with its digest: 0 or 1. If both lists have the digest, the
/// newer list's entry is taken.
fn first_of_both<'a>(
    newer: &[EntryRef<'a>],
    older: &'a [Entry],
) -> Option<(&'a Entry, usize, usize)>
    requires newer { Ascend newer.now }
    requires older { Ascend older.now }
    ensures next { MatchOption result ((newer.now ≡ []) × (older.now ≡ []))
        (λ next. IsNext newer.now older.now next.0.now (drop next.1 newer.now)
        (drop next.2 older.now)) }
    ensures within { IfSome result
        (λ next. (next.1 ≤ length newer.now) × (next.2 ≤ length older.now)) }
    ensures one { IfSome result (λ next. (next.1 ≤ 1) × (next.2 ≤ 1)) }
{
    match (newer.split_first(), older.split_first()) {
        (None, None) => None,
        (Some((one, _left)), None) => Some((one.entry, 1, 0)),
        (None, Some((two, _left))) => Some((two, 0, 1)),
        (Some((one, _newer_left)), Some((two, _older_left))) => {
            let one = one.entry;
            Some(match one.0.cmp(&two.0) {
                Ordering::Less => (one, 1, 0),
                Ordering::Equal => (one, 1, 1),
                Ordering::Greater => (two, 0, 1),
            })
        }
    }
}

/// Each entry whose block is at or above the round. The blocks are shared.
pub(crate) fn owned(
    alloc: Global,
    entries: &[EntryRef],
    round: Round,
) -> Result<Vec<Entry>, NoMemory>
    ensures { IfOk result
        (λ kept. kept.items ≡ filter (λ e. nat_le round e.1.round) entries.now) }
{
    let mut kept = Vec::with_capacity(alloc, entries.len())?;
    for lent in entries {
        let (digest, block) = lent.entry;
        if round <= block.round() {
            kept.push((*digest, block.try_clone()?))?;
        }
    }
    kept.shrink_to_fit();
    Ok(kept)
}
