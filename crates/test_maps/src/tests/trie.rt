//! Tries.
use super::*;
use linked_list_allocator::LocalHeap;
use nw_digest::InRound;
use nw_trie::Trie;
use std::collections::BTreeMap;

/// The entries of a trie with any allocator.
fn entries<A: Allocator>(
    alloc: Global,
    trie: &Trie<u64, A>,
) -> Result<Vec<(Digest, u64)>, NoMemory> {
    let mut seen = Vec::new(alloc);
    for (key, value) in trie.iter() {
        seen.push((*key, *value))?;
    }
    Ok(seen)
}

/// Whether one of three inserts runs out of memory in this heap. If so, it must return its value and leave the entries unchanged.
fn is_refused(rt: &impl Abort, alloc: Global, heap: &LocalHeap) -> Result<bool, NoMemory> {
    let all = [(digest(0, 0), 1), (digest(0, 1), 2), (digest(128, 0), 3)];
    let mut trie = Trie::new_in(heap);
    for (place, (key, value)) in all.into_iter().enumerate() {
        match trie.insert(key, value) {
            Ok(old) => assert_eq!(rt; old, None),
            Err((_, returned)) => {
                assert_eq!(rt; returned, value);
                assert!(rt; Some(entries(alloc, &trie)?.as_slice()) == all.get(..place));
                return Ok(true);
            }
        }
    }
    Ok(false)
}

#[test]
fn a_trie_of_three_keys_in_small_regions(rt: HostRuntime) {
    for step in 1..=64usize {
        let heap = LocalHeap::new(rt.alloc(), 64 * step).expect(&rt, "allocation succeeds");
        let refused = is_refused(&rt, rt.alloc(), &heap).expect(&rt, "allocation succeeds");
        assert!(rt; refused || step > 1, "refused in 64 bytes");
        assert!(rt; !refused || step < 64, "taken in 4,096 bytes");
    }
}

/// One of 1,024 digests, many of which share their first or their last bytes.
fn random_digest(word: u32) -> Digest {
    let mut key = digest((word % 4) as u8, (word / 64 % 16) as u8);
    key.0[1] = (word / 4 % 16) as u8;
    key
}

/// Takes the step that the word selects, with this value. Returns whether the answers are equal.
fn step(
    trie: &mut Trie<u64, Global>,
    map: &mut BTreeMap<Digest, u64>,
    word: u32,
    value: u64,
) -> Result<bool, NoMemory> {
    let key = random_digest(word);
    let same = match word / 1024 % 4 {
        0 => trie.get(&key) == map.get(&key),
        1 => trie.remove(&key) == map.remove(&key),
        _ => trie.insert(key, value) == Ok(map.insert(key, value)?),
    };
    Ok(same && trie.len() == map.len())
}

#[test]
fn a_trie_matches_an_ordered_map_over_random_steps(rt: HostRuntime) {
    let mut trie = Trie::new_in(rt.alloc());
    let mut map = BTreeMap::new(rt.alloc());
    let mut random = Pcg32::new(1, 1);
    for number in 0..20_000u64 {
        let same = step(&mut trie, &mut map, random.next_word(), number);
        assert!(rt; matches!(same, Ok(true)));
    }
    let in_order = entries(rt.alloc(), &trie).expect(&rt, "allocation succeeds");
    for (entry, (key, value)) in in_order.iter().zip(&map) {
        assert!(rt; *entry == (*key, *value));
    }
    assert_eq!(rt; in_order.len(), map.len());
}

/// The digest with only this bit set.
fn one_bit(bit: u8) -> Digest {
    let mut bytes = [0; 32];
    bytes[(bit / 8) as usize] = 128 >> (bit % 8);
    Digest(bytes)
}

#[test]
fn a_value_below_256_forks_is_changed(rt: HostRuntime) {
    let mut trie = Trie::new_in(rt.alloc());
    assert!(rt; trie.insert(digest(0, 0), 1u64) == Ok(None));
    for bit in 0..=255u8 {
        assert!(rt; trie.insert(one_bit(bit), 2) == Ok(None));
    }
    for key in [digest(0, 0), one_bit(0), one_bit(255)] {
        if let Some(value) = trie.get_mut(&key) {
            *value = 3;
        }
        assert_eq!(rt; trie.get(&key).copied(), Some(3));
    }
    assert_eq!(rt; trie.get(&one_bit(254)).copied(), Some(2));
    assert!(rt; trie.get_mut(&digest(0, 3)).is_none());
}

/// A value that belongs to a round.
#[derive(Clone, Copy, Debug, PartialEq, Eq)]
struct OfRound(Round);

impl InRound for OfRound {
    ghost round_of = { λ value. value.0 };

    fn round(&self) -> Round {
        self.0
    }
}

#[test]
fn values_of_lower_rounds_are_dropped_and_counted(rt: HostRuntime) {
    let rounds = [0, 3, 1, 2].map(|number| OfRound(Round::new(number).unwrap_or(Round::ZERO)));
    let mut trie = Trie::new_in(rt.alloc());
    for (first, value) in rounds.iter().enumerate() {
        assert!(rt; trie.insert(digest(first as u8, 0), *value) == Ok(None));
    }
    assert_eq!(rt; trie.retain_rounds(rounds[3].0), 2);
    assert_eq!(rt; trie.len(), 2);
    assert_eq!(rt; trie.get(&digest(1, 0)), Some(&rounds[1]));
    assert_eq!(rt; trie.get(&digest(3, 0)), Some(&rounds[3]));
}
