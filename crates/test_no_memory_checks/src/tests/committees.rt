//! Good and bad committees.
use super::*;
use nw_committee::{CommitteeFault, Member};
use samples::fallible::keys;
use samples::key;

/// The quorum of a committee of members of weight 1 with the keys of these numbers.
fn quorum(alloc: Global, numbers: &[u8]) -> Result<u32, CommitteeFault> {
    let Ok(keys) = keys(alloc, numbers) else {
        return Err(CommitteeFault::NoMemory);
    };
    let made = Committee::new(alloc, keys)?;
    let quorum = made.quorum();
    drop(made);
    Ok(quorum)
}

/// The fault of the committee with the keys of these numbers, made while all allocations fail.
fn fault_of(alloc: Global, numbers: &[u8]) -> Result<Option<CommitteeFault>, NoMemory> {
    let keys = retry!(NoMemory, keys(alloc, numbers))?;
    fail_allocations(alloc);
    let fault = Committee::new(alloc, keys).err();
    allow_allocations(alloc);
    Ok(fault)
}

#[test]
fn bad_committees(rt: HostRuntime) -> Result<(), Fail> {
    let four = retry!(CommitteeFault::NoMemory, quorum(rt.alloc(), &[0, 1, 2, 3]))?;
    let size = fault_of(rt.alloc(), &[0, 1, 2])?;
    let repeated = fault_of(rt.alloc(), &[0, 1, 2, 1])?;
    let wanted = [CommitteeFault::BadSize, CommitteeFault::RepeatedKey];
    assert!(rt; four == 3 && [size, repeated] == wanted.map(Some));
    Ok(())
}

/// Members with these weights. Each has the key of its number, which counts from 0, or of `last`, if that is less.
pub(super) fn members(alloc: Global, weights: &[u32], last: u16) -> Result<Vec<Member>, NoMemory> {
    let mut members = Vec::new(alloc);
    for (number, weight) in (0u16..).zip(weights) {
        members.push(Member {
            key: key(number.min(last)),
            weight: *weight,
        })?;
    }
    Ok(members)
}

/// The quorum of a committee of the members that `members` returns, made while all allocations fail.
fn weighted(
    alloc: Global,
    weights: &[u32],
    last: u16,
) -> Result<Result<u32, CommitteeFault>, NoMemory> {
    let members = retry!(NoMemory, members(alloc, weights, last))?;
    fail_allocations(alloc);
    let quorum = Committee::weighted(members).map(|made| made.quorum());
    allow_allocations(alloc);
    Ok(quorum)
}

#[test]
fn bad_weights(rt: HostRuntime) -> Result<(), Fail> {
    let cases: [(&[u32], u16, Result<u32, CommitteeFault>); 9] = [
        (&[3, 1, 1, 1], 100, Ok(5)),
        (&[7, 2], 100, Ok(7)),
        (&[1_000_000; 100], 100, Ok(66_666_667)),
        (&[], 100, Err(CommitteeFault::BadSize)),
        (&[1; 101], 100, Err(CommitteeFault::BadSize)),
        (&[1_000_001], 100, Err(CommitteeFault::BadWeight)),
        (&[1, 0], 100, Err(CommitteeFault::BadWeight)),
        // A repeated key is refused before a bad weight.
        (&[1, 2], 0, Err(CommitteeFault::RepeatedKey)),
        (&[0, 1_000_001], 0, Err(CommitteeFault::RepeatedKey)),
    ];
    for (weights, last, wanted) in cases {
        assert_eq!(rt; weighted(rt.alloc(), weights, last)?, wanted);
    }
    Ok(())
}
