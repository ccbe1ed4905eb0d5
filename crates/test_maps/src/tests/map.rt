//! Maps from digests.
use super::*;
use linked_list_allocator::LocalHeap;
use nw_digest::digest_of;
use nw_trie::DigestMap;
use std::collections::BTreeMap;

/// One of 512 digests. Half of them have a first byte below 4, so that they are close together; the others are spread evenly.
fn key_of(word: u32) -> Digest {
    let mut key = digest((word % 4) as u8, (word / 4 % 64) as u8);
    if word / 256 % 2 == 1 {
        key = digest_of(&key.0);
    }
    key
}

/// Takes the step that the word selects, with this value. Returns whether the answers are equal.
fn step(
    table: &mut DigestMap<u64, Global>,
    map: &mut BTreeMap<Digest, u64>,
    word: u32,
    value: u64,
) -> Result<bool, NoMemory> {
    let key = key_of(word);
    let same = match word / 1024 % 4 {
        0 => table.get(&key) == map.get(&key),
        1 => table.remove(&key) == map.remove(&key),
        _ => {
            table.put(key, value)?;
            map.insert(key, value)?;
            table.get(&key) == Some(&value)
        }
    };
    Ok(same && table.len() == map.len())
}

#[test]
fn a_digest_map_matches_an_ordered_map_over_random_steps(rt: HostRuntime) {
    let mut table = DigestMap::new_in(rt.alloc());
    let mut map = BTreeMap::new(rt.alloc());
    let mut random = Pcg32::new(1, 2);
    for number in 0..20_000u64 {
        let same = step(&mut table, &mut map, random.next_word(), number);
        assert!(rt; matches!(same, Ok(true)));
    }
    for word in 0..512 {
        let key = key_of(word);
        assert_eq!(rt; table.get(&key), map.get(&key));
    }
}

/// How many of 64 keys a map in this heap takes before it runs out of memory. It must have exactly these then. A larger heap may take
/// fewer keys, since more of it may go to a longer list of trees.
fn taken(rt: &impl Abort, heap: &LocalHeap) -> usize {
    let mut table = DigestMap::new_in(heap);
    for number in 0..64u32 {
        if table.put(key_of(256 + number), number).is_err() {
            break;
        }
    }
    let count = table.len();
    for number in 0..64u32 {
        let kept = ((number as usize) < count).then_some(number);
        assert_eq!(rt; table.get(&key_of(256 + number)).copied(), kept);
    }
    count
}

#[test]
fn a_digest_map_in_small_regions(rt: HostRuntime) {
    let (mut fewest, mut most) = (64, 0);
    for step in 1..=192usize {
        let heap = LocalHeap::new(rt.alloc(), 64 * step).expect(&rt, "allocation succeeds");
        let count = taken(&rt, &heap);
        fewest = count.min(fewest);
        most = count.max(most);
    }
    assert_eq!(rt; (fewest, most), (0, 64));
}
