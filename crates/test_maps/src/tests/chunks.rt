//! Lists in chunks, which share their earlier items.
use super::*;
use nw_digest::Shared;
use nw_shared_list::SharedList;

/// The list of the numbers below `count`, added one by one, with `count` as its head.
fn numbers(alloc: Global, count: u32) -> Result<SharedList<u32, u32>, NoMemory> {
    let mut list = SharedList::new(alloc, Shared::new(alloc, count)?)?;
    for number in 0..count {
        if list.len() >= 1 << 32 {
            return Err(NoMemory);
        }
        list = list.with(alloc, number)?;
    }
    Ok(list)
}

/// Whether the list has exactly the numbers below `count`, and `count` as its head.
fn has_numbers(list: &SharedList<u32, u32>, count: u32) -> bool {
    for index in [0, 1, 254, 255, 256, 257, 511, 512, 513] {
        let expected = if index < count { Some(index) } else { None };
        if list.get(index as usize).copied() != expected {
            return false;
        }
    }
    let (length, last) = (list.len(), list.last().copied());
    *list.head() == count
        && length == count as usize
        && list.is_empty() == (count == 0)
        && last == count.checked_sub(1)
}

#[test]
fn lists_around_full_chunks_have_their_items_and_few_parts(rt: HostRuntime) {
    for (count, parts) in [(0, 0), (255, 255), (256, 1), (257, 2), (513, 3)] {
        let list = numbers(rt.alloc(), count).expect(&rt, "allocation succeeds");
        let copy = list.try_clone().expect(&rt, "allocation succeeds");
        drop(list);
        assert!(rt;
            has_numbers(&copy, count) && copy.parts() == parts,
            "{count}"
        );
    }
}

#[test]
fn a_list_of_65536_items_is_dropped_chunk_by_chunk(rt: HostRuntime) {
    let list = numbers(rt.alloc(), 65_536).expect(&rt, "allocation succeeds");
    assert_eq!(rt; list.parts(), 256);
    drop(list);
}
