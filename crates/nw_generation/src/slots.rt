//! Blocks by round and author.
ghost use Rattle.std.specs.Prelude.{◌≡◌, IfOk, IfSome, List, Some};
ghost use Rattle.nw_digest.specs.declared.digest.Digest.{Digest};
ghost use Rattle.nw_codec.specs.declared.block.Block.{Block};
ghost use Rattle.nw_generation.specs.Entries.{Ascend, under};
ghost use Rattle.nw_generation.specs.Slots.{AreSlotsOf};

use crate::entries::Entry;
use nw_codec::Block;
use nw_digest::{Digest, NoMemory, Round, Shared};
use std::alloc::Global;

/// The least number of blocks that are listed by round and author. Fewer are found as fast by their digests.
const FEWEST: usize = 9;

/// A block under its digest, with its round and author.
#[derive(Drop)]
pub(crate) struct SlottedBlock {
    round: Round,
    author: u16,
    digest: Digest,
    block: Shared<Block>,
}

impl SlottedBlock {
    /// The round and author in one number, which is ordered as they are. A round is below 2^48.
    fn key(&self) -> u64 {
        self.round.get() << 16 | u64::from(self.author)
    }
}

/// The blocks of an index by round and author, or none if there are few. They are adjacent in memory, so that a walk follows few pointers.
#[derive(Drop)]
pub(crate) struct Slots {
    /// Ascending by round and author.
    pub(crate) slots: Vec<SlottedBlock>,
    /// For each round from the first one on, the number of slots of earlier rounds.
    starts: Vec<u32>,
}

impl Slots {
    /// The slots of these entries, or none if there are fewer than `FEWEST`.
    pub(crate) fn of(alloc: Global, entries: &[Entry]) -> Result<Slots, NoMemory>
        requires { Ascend entries.now }
        ensures { IfOk result (λ made. AreSlotsOf made.slots.items entries.now) }
    {
        if entries.len() < FEWEST {
            return Ok(Slots {
                slots: Vec::new(alloc),
                starts: Vec::new(alloc),
            });
        }
        let mut slots = slots_of(alloc, entries)?;
        slots.sort_by(|one: &SlottedBlock, other: &SlottedBlock| one.key().cmp(&other.key()))?;
        let starts = starts_of(alloc, slots.as_slice())?;
        Ok(Slots { slots, starts })
    }

    /// The block under the digest, if it is at the place where the round and author are expected.
    pub(crate) fn get(&self, round: Round, author: u16, digest: &Digest) -> Option<&Shared<Block>>
        ensures { (entries : List (Digest × Block)) → AreSlotsOf self.now.slots.items entries
            → IfSome result (λ block. under entries digest.now ≡ Some block.now) }
    {
        let place = self.place(round, author)?;
        let slot = self.slots.get(place)?;
        if *digest == slot.digest {
            Some(&slot.block)
        } else {
            None
        }
    }

    /// The place where a block of the round and author is expected. It is a guess, and has no contract.
    fn place(&self, round: Round, author: u16) -> Option<usize> {
        let (begin, row) = self.row(round)?;
        let mut last = 0;
        // In a row of one block, the place does not depend on the author. So the processor need not wait until the author is loaded.
        if row.len() > 1 {
            last = row.len().min(author as usize + 1) - 1;
            while last > 0 && is_after(row, last, author) {
                last -= 1;
            }
        }
        begin.checked_add(last)
    }

    /// The number of slots before those of the round, and the slots of the round, by author. `None` if `starts` does not list the round.
    fn row(&self, round: Round) -> Option<(usize, &[SlottedBlock])> {
        let first = self.slots.first()?.round;
        let number = round.get().checked_sub(first.get())? as usize;
        let begin = *self.starts.get(number)? as usize;
        let end = match self.starts.get(number + 1) {
            Some(end) => *end as usize,
            None => self.slots.len(),
        };
        Some((begin, self.slots.get(begin..end)?))
    }
}

/// Whether the slot at the place has a higher author.
fn is_after(row: &[SlottedBlock], place: usize, author: u16) -> bool {
    match row.get(place) {
        Some(slot) => slot.author > author,
        None => false,
    }
}

/// One slot for each entry.
fn slots_of(alloc: Global, entries: &[Entry]) -> Result<Vec<SlottedBlock>, NoMemory>
    requires { Ascend entries.now }
    ensures { IfOk result (λ slots. AreSlotsOf slots.items entries.now) }
{
    let mut slots = Vec::with_capacity(alloc, entries.len())?;
    for entry in entries {
        let (digest, block) = entry;
        slots.push(SlottedBlock {
            round: block.get().round,
            author: block.get().author,
            digest: *digest,
            block: block.try_clone()?,
        })?;
    }
    Ok(slots)
}

/// For each round from the first one on, the number of slots of earlier rounds. It lists at most four times as many rounds as there are
/// slots; blocks of later rounds are found only by their digests.
fn starts_of(alloc: Global, slots: &[SlottedBlock]) -> Result<Vec<u32>, NoMemory> {
    let mut starts = Vec::new(alloc);
    let Some(first) = slots.first() else {
        return Ok(starts);
    };
    for (place, slot) in slots.iter().enumerate() {
        let number = slot.round.get().saturating_sub(first.round.get()) as usize;
        if number < slots.len().saturating_mul(4) {
            starts.resize(number + 1, u32::try_from(place).unwrap_or(u32::MAX))?;
        }
    }
    Ok(starts)
}
