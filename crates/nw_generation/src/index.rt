//! Searches blocks by their digests.
ghost use Rattle.std.specs.Prelude.{◌≡◌, ◌<◌, ◌++◌, ◌∷◌, IfOk, IsTrue, Some, None, length};
ghost use Rattle.std.specs.Option.{option_copied};
ghost use Rattle.nw_digest.specs.Order.{digest_cmp};
ghost use Rattle.nw_generation.specs.Entries.{AreHeads, Ascend, IsHead, under};
ghost use Rattle.nw_generation.specs.Seen.{IsOfRound};

use crate::entries::Entry;
use crate::slots::Slots;
use crate::span::{is_within, rounds_of};
use nw_codec::Block;
use nw_digest::{Digest, NoMemory, Round, Shared};
use std::alloc::Global;
use std::cmp::Ordering;
use std::marker::Model;

/// Blocks under their digests, ascending. Contracts see the list of entries.
#[derive(Drop)]
pub(crate) struct Index {
    /// The head of each digest: its first two bytes. Heads are small and adjacent in memory, so that a search reads little memory.
    heads: Vec<u16>,
    entries: Vec<Entry>,
    /// The same blocks by round and author, if there are more than eight.
    slots: Slots,
    /// The lowest and the highest round of the blocks.
    rounds: Option<(Round, Round)>,
}

impl Model for Index {
    ghost use Rattle.std.specs.Prelude.{List};
    ghost use Rattle.nw_codec.specs.declared.block.Block.{Block};
    ghost use Rattle.nw_digest.specs.declared.digest.Digest.{Digest};

    ghost Value = { List (Digest × Block) };

    ghost view = { λ i. i.entries.items };

    ghost use Rattle.nw_generation.specs.Entries.{AreHeads, Ascend};
    ghost use Rattle.nw_generation.specs.Slots.{AreSlotsOf};
    ghost use Rattle.std.specs.Prelude.{All};
    ghost use Rattle.nw_generation.specs.Seen.{IsWithin};

    ghost invariant = { λ i. AreHeads i.heads.items i.entries.items × Ascend i.entries.items
        × AreSlotsOf i.slots.slots.items i.entries.items
        × All (λ e. IsWithin i.rounds e.1.round) i.entries.items };
}

impl Index {
    /// The index of these entries.
    pub(crate) fn of(alloc: Global, entries: Vec<Entry>) -> Result<Index, NoMemory>
        requires { Ascend entries.items }
        ensures { IfOk result (λ index. index ≡ entries.items) }
    {
        Ok(Index {
            heads: heads_of(alloc, &entries)?,
            slots: Slots::of(alloc, &entries)?,
            rounds: rounds_of(&entries),
            entries,
        })
    }

    /// Its entries, ascending.
    pub(crate) fn entries(&self) -> &[Entry]
        ensures entries { result.now ≡ self.now }
        ensures ascend { Ascend result.now }
    {
        self.entries.as_slice()
    }

    /// The block under the digest, or `None` if there is no such block.
    ///
    /// `slot` makes the search fast. Its round must be that of the block, if there is one. Its author is only a guess. If no block can
    /// be of that round, nothing is searched.
    pub(crate) fn get(&self, slot: &Option<(Round, u16)>, digest: &Digest) -> Option<&Shared<Block>>
        requires { IsOfRound slot.now (under self.now digest.now) }
        ensures { option_copied result ≡ under self.now digest.now }
    {
        if self.excludes(slot) {
            return None;
        }
        if let Some((round, author)) = slot
            && let Some(block) = self.slots.get(*round, *author, digest)
        {
            return Some(block);
        }
        find(self.heads.as_slice(), self.entries.as_slice(), digest)
    }

    /// Whether all blocks are of higher rounds than this one.
    pub(crate) fn is_above(&self, round: Round) -> bool
        ensures { IsTrue result → (d : Digest) (b : Block) → under self.now d ≡ Some b → round < b.round }
    {
        match self.rounds {
            Some((least, _greatest)) => round < least,
            None => true,
        }
    }

    /// Whether a slot is given whose round is outside the range of the rounds.
    fn excludes(&self, slot: &Option<(Round, u16)>) -> bool
        ensures { IsTrue result → (d : Digest) → IsOfRound slot.now (under self.now d)
            → under self.now d ≡ None }
    {
        match slot {
            Some((round, _author)) if !is_within(self.rounds, *round) => true,
            _ => false,
        }
    }
}

/// The block under the digest, or `None` if there is no such block.
///
/// Digests are spread evenly, so a head tells roughly where its digest is. The search compares heads, which are adjacent in memory.
/// It looks at an entry only if the heads are equal. If many digests are close together, guesses are poor; so every eighth look halves
/// the rest.
fn find<'a>(heads: &[u16], entries: &'a [Entry], digest: &Digest) -> Option<&'a Shared<Block>>
    requires heads { AreHeads heads.now entries.now }
    requires ascend { Ascend entries.now }
    ensures { option_copied result ≡ under entries.now digest.now }
{
    let (all, head) = (entries.len(), head_of(digest));
    let (mut heads, mut left, mut looks) = (heads, entries, 0u32);
    let (mut low, mut high) = (0, u16::MAX);
    while !left.is_empty() {
        let place = next_place(looks, left.len(), all, low, head, high);
        let (heads_before, other, heads_after) = split_around(heads, place);
        let (before, entry, after) = split_around(left, place);
        match order(head, digest, *other, entry) {
            Ordering::Less => (heads, left, high) = (heads_before, before, *other),
            Ordering::Equal => return Some(&entry.1),
            Ordering::Greater => (heads, left, low) = (heads_after, after, *other),
        }
        looks = looks.wrapping_add(1);
    }
    None
}

/// The items before the place, the item at the place, and the items after it.
fn split_around<T>(items: &[T], place: usize) -> (&[T], &T, &[T])
    requires { place < length items.now }
    ensures parts { result.0.now ++ result.1.now ∷ result.2.now ≡ items.now }
    ensures place { length result.0.now ≡ place }
{
    let (before, rest) = items.split_at(place);
    let Some((item, after)) = rest.split_first() else {
        unreachable!()
    };
    (before, item, after)
}

/// Compares the digest with the entry's digest. `head` is the head of the digest, and `other` that of the entry's digest.
fn order(head: u16, digest: &Digest, other: u16, entry: &Entry) -> Ordering
    requires head { IsHead head digest.now }
    requires other { IsHead other entry.now.0 }
    ensures { result ≡ digest_cmp digest.now entry.now.0 }
{
    if head != other {
        return head.cmp(&other);
    }
    let key = &entry.0;
    // Two digests with the same head are usually equal, and equality is faster to test than order.
    if digest == key {
        Ordering::Equal
    } else {
        digest.cmp(key)
    }
}

/// The next place to look for `head` among the remaining entries, whose heads are between `low` and `high`.
///
/// `looks` is the number of looks so far, and `all` the number of entries of the index. The place is estimated from the nearer end,
/// as if all heads were spread evenly. Every eighth look takes the middle.
fn next_place(looks: u32, entries: usize, all: usize, low: u16, head: u16, high: u16) -> usize
    requires { 0 < entries }
    ensures { result < entries }
{
    let (above, below) = (head.saturating_sub(low), high.saturating_sub(head));
    let last = entries - 1;
    if looks % 8 == 7 {
        entries / 2
    } else if above < below {
        last.min(expected(all, above))
    } else {
        last.saturating_sub(expected(all, below))
    }
}

/// The number of heads that lie in a range of this width, if all heads are spread evenly.
fn expected(all: usize, width: u16) -> usize {
    (u64::from(width).saturating_mul(all as u64) >> 16) as usize
}

/// The first two bytes of the digest, as a number.
fn head_of(digest: &Digest) -> u16
    ensures { IsHead result digest.now }
{
    u16::from(digest.0[0]) * 256 + u16::from(digest.0[1])
}

/// The heads of the entries, in order.
fn heads_of(alloc: Global, entries: &[Entry]) -> Result<Vec<u16>, NoMemory>
    ensures { IfOk result (λ heads. AreHeads heads.items entries.now) }
{
    let mut heads = Vec::with_capacity(alloc, entries.len())?;
    for entry in entries {
        heads.push(head_of(&entry.0))?;
    }
    Ok(heads)
}
