//! Slots and their digests.
use super::*;
use nw_rounds::Rounds;
use std::collections::{BTreeMap, BTreeSet};

/// Digests by round, author, and whether they are certified or first digests.
type Slots = BTreeMap<(u64, u16, bool), Digest>;

/// Whether the table lists the map's authors of the round, ascending and each once.
fn are_listed(
    alloc: Global,
    rounds: &Rounds<Global>,
    slots: &Slots,
    round: Round,
) -> Result<bool, NoMemory> {
    let mut found = BTreeSet::new(alloc);
    for (slot, _digest) in slots {
        if slot.0 == round.get() {
            found.insert(slot.1)?;
        }
    }
    let expected: Vec<u16> = found.into_iter().collect(alloc)?;
    Ok(rounds.authors(alloc, round)?.as_slice() == expected.as_slice())
}

/// Takes the step that the word selects, on one of 64 slots with one of 8 digests. Returns whether the answers are equal.
fn step(
    alloc: Global,
    rounds: &mut Rounds<Global>,
    slots: &mut Slots,
    word: u32,
) -> Result<bool, NoMemory> {
    let (number, author) = (u64::from(word % 16), (word / 16 % 4) as u16);
    let slot = (round(number)?, author);
    let digest = digest((word / 64 % 8) as u8, 0);
    match word / 512 % 64 {
        0 => {
            rounds.drop_below(slot.0);
            slots.retain(|key, _digest| key.0 >= number);
        }
        1..24 => {
            if rounds.first(slot.0, author).is_none() {
                rounds.put_first(slot.0, author, digest)?;
                slots.insert((number, author, false), digest)?;
            }
        }
        24..48 => {
            if rounds.certified(slot.0, author).is_none() {
                rounds.put_certified(slot.0, author, digest)?;
                slots.insert((number, author, true), digest)?;
            }
        }
        _ => return are_listed(alloc, rounds, slots, slot.0),
    }
    Ok(
        rounds.first(slot.0, author) == slots.get(&(number, author, false)).copied()
            && rounds.certified(slot.0, author) == slots.get(&(number, author, true)).copied(),
    )
}

#[test]
fn slots_match_an_ordered_map_over_random_steps(rt: HostRuntime) {
    let mut rounds = Rounds::new_in(rt.alloc());
    let mut slots = BTreeMap::new(rt.alloc());
    let mut random = Pcg32::new(1, 1);
    for _ in 0..10_000 {
        let word = random.next_word();
        let same = step(rt.alloc(), &mut rounds, &mut slots, word);
        assert!(rt; matches!(same, Ok(true)));
    }
}
