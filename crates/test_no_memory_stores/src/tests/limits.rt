//! Limits out of their ranges.
ghost use Rattle.std.specs.Prelude.{◌≡◌};
ghost use Rattle.nw_history.specs.Story.{first_origin};
ghost use Rattle.nw_store.specs.Lock.{parts_of_a_ledger};

use super::*;
use nw_store::{Home, Opening, Store};
use samples::fallible::committee;
use std::marker::Brand;

/// Limits of blocks, events, rounds and sessions, of which one is out of its range.
const BAD: [(u32, u32, u32, u32); 8] = [
    (0, 1, 1, 1),
    (65_537, 1, 1, 1),
    (1, 0, 1, 1),
    (1, 65_537, 1, 1),
    (1, 1, 0, 1),
    (1, 1, 4_097, 1),
    (1, 1, 1, 0),
    (1, 1, 1, 257),
];

/// The error of a new store with these limits, if there is one.
fn fault_of<L: Home>(
    alloc: Global,
    opening: Opening<DemoScheme>,
    committee: Shared<Committee>,
    limits: Limits,
) -> Option<BookError>
    requires log { opening.log ≡ L.log }
    requires ledger { (opening.ledger ≡ L.name) × (L.parts ≡ parts_of_a_ledger) }
    requires origin { first_origin committee limits ≡ L.origin }
{
    Store::<DemoScheme, L>::new(alloc, opening, committee, limits).err()
}

/// The errors of a new book and of a new store with these limits, while all allocations fail.
fn faults_of(
    alloc: Global,
    committee: &Shared<Committee>,
    limits: Limits,
) -> Result<[Option<BookError>; 2], NoMemory> {
    let one = retry!(NoMemory, committee.try_clone())?;
    let committee = retry!(NoMemory, committee.try_clone())?;
    let opening = retry!(NoMemory, Opening::new(alloc))?;
    fail_allocations(alloc);
    let book = Book::<DemoScheme>::new(alloc, one, limits).err();
    let store = fault_of::<Brand>(alloc, opening, committee, limits);
    allow_allocations(alloc);
    Ok([book, store])
}

#[test]
fn bad_limits(rt: HostRuntime) -> Result<(), Fail> {
    let committee = retry!(NoMemory, committee(rt.alloc(), &[0]))?;
    for (blocks, events, window, sessions) in BAD {
        let limits = Limits {
            blocks,
            events,
            window,
            sessions,
        };
        let faults = faults_of(rt.alloc(), &committee, limits)?;
        assert_eq!(rt; faults, [Some(BookError::BadLimits); 2], "{limits:?}");
    }
    Ok(())
}
