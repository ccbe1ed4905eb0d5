//! The end of a store: its sessions are settled while all allocations fail, and its book is reopened.
use super::*;
use nw_store::{Home, Session, Settled, Store, settle};

/// The number of calls of the session, if the store made one with this id.
fn calls<L: Home>(settled: &Settled<DemoScheme, L>, session: u16) -> Option<usize> {
    match settled.journal(session) {
        Some(entries) => Some(entries.len()),
        None => None,
    }
}

/// The number of events if the first of two sessions made all their calls, and otherwise 0. Reads them while all allocations fail.
fn events<L: Home>(alloc: Global, settled: &Settled<DemoScheme, L>) -> usize {
    fail_allocations(alloc);
    let events = settled.history().len();
    let is_first = calls(settled, 0) == Some(events) && calls(settled, 1) == Some(0);
    let are_two = calls(settled, 2).is_none();
    allow_allocations(alloc);
    if is_first && are_two { events } else { 0 }
}

/// The reopened book. If an allocation fails, reopening is repeated once.
fn reopened<L: Home>(
    alloc: Global,
    settled: Settled<DemoScheme, L>,
) -> Result<Book<DemoScheme>, NoMemory> {
    match settled.reopen(alloc) {
        Ok(book) => Ok(book),
        Err((NoMemory, settled)) => match settled.reopen(alloc) {
            Ok(book) => Ok(book),
            Err((refused, settled)) => {
                drop(settled);
                Err(refused)
            }
        },
    }
}

/// The number of events, and the reopened book.
fn events_and_book<L: Home>(
    alloc: Global,
    settled: Settled<DemoScheme, L>,
) -> Result<(usize, Book<DemoScheme>), Fail> {
    let events = events(alloc, &settled);
    Ok((events, reopened(alloc, settled)?))
}

/// Settles the sessions, which are all that the store made. Returns the number of events and the reopened book.
pub(super) fn ended<L: Home>(
    alloc: Global,
    store: Store<DemoScheme, L>,
    sessions: Vec<Session<DemoScheme, L>>,
) -> Result<(usize, Book<DemoScheme>), Fail> {
    fail_allocations(alloc);
    let settled = settle(store, sessions);
    allow_allocations(alloc);
    match settled {
        Ok(settled) => events_and_book(alloc, settled),
        Err(refused) => {
            drop(refused);
            Err(Fail::from("all sessions are given and do not settle"))
        }
    }
}
