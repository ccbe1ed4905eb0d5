//! Worked examples, played on stores.
use super::asking::{Ask, Row};
use super::fixture::{FOUR, Fixture, Sketch, TWO};
use super::stores::{LIMITS, played, played_anew};
use super::*;
use nw_store::Agreement;
use std::sync::Wait;

pub(super) const STORED: &str = "Write(Stored { vote: true })";

pub(super) const CERTIFIED: &str = "Certify(Certified)";

const ALL: &str = "List([0, 1, 2, 3])";

const COUNTS: &str =
    "Status(Counts { floor: Round { number: 0 }, blocks: 3, certificates: 4, complete: 2, wanted: 1 })";

/// A block is incomplete until the last of its three parents is written.
const WAITING: [Row; 13] = [
    Row(0, Ask::Write, STORED),
    Row(1, Ask::Write, STORED),
    Row(3, Ask::Write, STORED),
    Row(0, Ask::Certify, CERTIFIED),
    Row(1, Ask::Certify, CERTIFIED),
    Row(2, Ask::Certify, CERTIFIED),
    Row(3, Ask::Certify, CERTIFIED),
    Row(3, Ask::Open, "Causal(Incomplete)"),
    Row(0, Ask::Missing, "Missing(0.2.2)"),
    Row(0, Ask::Status, COUNTS),
    Row(2, Ask::Write, STORED),
    Row(3, Ask::Open, "Ready(1)"),
    Row(0, Ask::Walk(0), ALL),
];

/// A ticket is walked after its blocks were collected.
pub(super) const COLLECTED: [Row; 13] = [
    Row(0, Ask::Write, STORED),
    Row(1, Ask::Write, STORED),
    Row(2, Ask::Write, STORED),
    Row(3, Ask::Write, STORED),
    Row(0, Ask::Certify, CERTIFIED),
    Row(1, Ask::Certify, CERTIFIED),
    Row(2, Ask::Certify, CERTIFIED),
    Row(3, Ask::Certify, CERTIFIED),
    Row(3, Ask::Open, "Ready(1)"),
    Row(0, Ask::Collect(2), "Collect(Raised { dropped: 4 })"),
    Row(0, Ask::Walk(0), ALL),
    Row(3, Ask::Read, "Read(None)"),
    Row(3, Ask::Open, "Causal(Unknown)"),
];

/// A block and its certificate are each handed in twice, kept once, and read.
const KEPT: [Row; 6] = [
    Row(0, Ask::Write, STORED),
    Row(0, Ask::Write, "Write(Held)"),
    Row(0, Ask::Read, "Read(0)"),
    Row(0, Ask::Certify, CERTIFIED),
    Row(0, Ask::Certify, "Certify(Already)"),
    Row(0, Ask::Certificate, "Certificate(0 by [0, 1, 2])"),
];

/// The number of rows before the first one for which a new store gives another reply, and the number of events. The committee has members
/// with these numbers.
pub(super) fn seen<R: Wait>(
    rt: &R,
    alloc: Global,
    members: &[u8],
    sketches: &[Sketch],
    rows: &[Row],
) -> Result<(usize, usize), Fail> {
    let fixture = Fixture::new(alloc, members, sketches)?;
    let mut tickets = retry!(AllocError, Vec::with_capacity(alloc, 18))?;
    let outcome = played_anew(rt, alloc, &fixture, rows, &mut tickets)?;
    let seen = (outcome.answered, outcome.events);
    drop(outcome);
    Ok(seen)
}

#[test]
fn a_missing_parent_makes_a_block_incomplete(rt: HostRuntime) -> Result<(), Fail> {
    let seen = seen(&rt, rt.alloc(), &[0, 1, 2, 3], &FOUR, &WAITING)?;
    assert_eq!(rt; seen, (13, 12));
    Ok(())
}

#[test]
fn a_ticket_is_walked_after_its_blocks_were_collected(rt: HostRuntime) -> Result<(), Fail> {
    let seen = seen(&rt, rt.alloc(), &[0, 1, 2, 3], &FOUR, &COLLECTED)?;
    assert_eq!(rt; seen, (13, 12));
    Ok(())
}

#[test]
fn a_block_and_its_certificate_are_kept_once(rt: HostRuntime) -> Result<(), Fail> {
    let seen = seen(&rt, rt.alloc(), &[0, 1, 2, 3], &FOUR, &KEPT)?;
    assert_eq!(rt; seen, (6, 6));
    Ok(())
}

/// A new book of the fixture's committee.
pub(super) fn new_book(alloc: Global, fixture: &Fixture) -> Result<Book<DemoScheme>, BookError> {
    Book::new(alloc, fixture.committee.try_clone()?, LIMITS)
}

/// The rows for a store of one member. `SECOND` is for a store over its reopened book, and `THIRD` for one over that store's reopened
/// book.
const FIRST: [Row; 3] = [
    Row(0, Ask::Write, STORED),
    Row(0, Ask::Certify, CERTIFIED),
    Row(0, Ask::Open, "Ready(1)"),
];

const SECOND: [Row; 5] = [
    Row(1, Ask::Write, "Equivocates(0)"),
    Row(0, Ask::Write, "Write(Held)"),
    Row(0, Ask::Open, "Ready(1)"),
    Row(0, Ask::Collect(1), "Collect(Raised { dropped: 1 })"),
    Row(0, Ask::Walk(0), "List([0])"),
];

const THIRD: [Row; 1] = [Row(1, Ask::Write, "Write(Collected(Round { number: 1 }))")];

/// The reopened book, if a store over this book gives all expected replies and its history has this many events.
fn reopened_after<R: Wait>(
    rt: &R,
    alloc: Global,
    book: Book<DemoScheme>,
    fixture: &Fixture,
    rows: &[Row],
    events: usize,
    tickets: &mut Vec<Ticket<DemoScheme>>,
) -> Result<Book<DemoScheme>, Fail> {
    let outcome = played(rt, alloc, book, fixture, rows, tickets)?;
    if (outcome.answered, outcome.events) == (rows.len(), events) {
        return Ok(outcome.book);
    }
    drop(outcome);
    Err(Fail::from("a store gave another reply"))
}

#[test]
fn a_reopened_store_votes_once(rt: HostRuntime) -> Result<(), Fail> {
    let alloc = rt.alloc();
    let fixture = Fixture::new(alloc, &[0], &TWO)?;
    let mut tickets = retry!(AllocError, Vec::with_capacity(alloc, 2))?;
    let first = retry!(BookError::NoMemory, new_book(alloc, &fixture))?;
    let second = reopened_after(&rt, alloc, first, &fixture, &FIRST, 3, &mut tickets)?;
    let third = reopened_after(&rt, alloc, second, &fixture, &SECOND, 4, &mut tickets)?;
    reopened_after(&rt, alloc, third, &fixture, &THIRD, 1, &mut tickets)?;
    Ok(())
}

/// Whether both tickets are for one digest and list the same blocks.
fn agree(
    alloc: Global,
    one: &Ticket<DemoScheme>,
    other: &Ticket<DemoScheme>,
) -> Result<bool, NoMemory> {
    if one.digest() != other.digest() || one.view().floor() != other.view().floor() {
        return Ok(false);
    }
    Ok(matches!(retry!(NoMemory, one.agree(alloc, other))?, Agreement::Same))
}

/// The tickets of two new stores, each for the last block of the example.
fn two_tickets<R: Wait>(
    rt: &R,
    alloc: Global,
    fixture: &Fixture,
) -> Result<Vec<Ticket<DemoScheme>>, Fail> {
    let mut tickets = retry!(AllocError, Vec::with_capacity(alloc, 2))?;
    for _ in 0..2 {
        let outcome = played_anew(rt, alloc, fixture, &COLLECTED[..9], &mut tickets)?;
        if (outcome.answered, outcome.events) != (9, 9) {
            drop(outcome);
            return Err(Fail::from("a store gave another reply"));
        }
        drop(outcome);
    }
    Ok(tickets)
}

#[test]
fn two_stores_agree(rt: HostRuntime) -> Result<(), Fail> {
    let fixture = Fixture::new(rt.alloc(), &[0, 1, 2, 3], &FOUR)?;
    let tickets = two_tickets(&rt, rt.alloc(), &fixture)?;
    match tickets.as_slice() {
        [one, other] => assert!(rt; agree(rt.alloc(), one, other)?),
        _ => return Err(Fail::from("each store gives one ticket")),
    }
    Ok(())
}
