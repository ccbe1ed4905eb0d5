//! Calls that allocate nothing, made while all allocations fail.
ghost use Rattle.std.specs.Prelude.{◌≡◌};
ghost use Rattle.nw_store.specs.Journal.{origin_of};
ghost use Rattle.nw_store.specs.Lock.{parts_of_a_ledger};

use super::examples::COLLECTED;
use super::fixture::{FOUR, Fixture, TWO};
use super::stores::played_anew;
use super::*;
use nw_store::{
    CheckedBlock, CheckedCert, Done, Home, Opening, Session, Settled, Store, TooMany, Unsettled,
    session_locked, settle, settle_locked,
};
use std::marker::Brand;
use std::sync::Wait;

/// Limits of a book with two sessions, whose history is full after two events.
const NARROW: Limits = Limits {
    blocks: 16,
    events: 2,
    window: 4,
    sessions: 2,
};

/// A book with those limits, but this many sessions.
fn narrow_book(
    alloc: Global,
    fixture: &Fixture,
    sessions: u16,
) -> Result<Book<DemoScheme>, BookError> {
    let limits = Limits {
        sessions: u32::from(sessions),
        ..NARROW
    };
    Book::new(alloc, fixture.committee.try_clone()?, limits)
}

/// Fills the history of the book with this call, made twice, and returns the first answer.
fn fill(
    alloc: Global,
    book: &mut Book<DemoScheme>,
    call: &Command<DemoScheme>,
) -> Result<Done<DemoScheme>, NoStep> {
    let first = retry!(NoStep::NoMemory, book.step(alloc, 0, 1, call))?;
    match retry!(NoStep::NoMemory, book.step(alloc, 0, 2, call)) {
        Ok(second) => {
            drop(second);
            Ok(first)
        }
        Err(refusal) => {
            drop(first);
            Err(refusal)
        }
    }
}

/// The refusals of a full book: for three calls out of turn, for a block that was checked under another committee, and for two further
/// calls.
fn refusals_of(
    alloc: Global,
    book: &mut Book<DemoScheme>,
    own: &Command<DemoScheme>,
    foreign: &Command<DemoScheme>,
) -> [Option<NoStep>; 6] {
    let digest = Digest([7; 32]);
    [
        book.step(alloc, 0, 4, foreign).err(),
        book.step(alloc, 2, 1, own).err(),
        book.open(alloc, 0, 2, digest).err(),
        book.step(alloc, 0, 3, foreign).err(),
        book.step(alloc, 0, 3, own).err(),
        book.open(alloc, 0, 3, digest).err(),
    ]
}

const REFUSALS: [NoStep; 6] = [
    NoStep::OutOfTurn,
    NoStep::OutOfTurn,
    NoStep::OutOfTurn,
    NoStep::OtherCommittee,
    NoStep::HistoryFull,
    NoStep::HistoryFull,
];

/// Whether the history of the full book and the front of its first answer can be read, and are the expected ones.
fn are_read(book: &Book<DemoScheme>, fixture: &Fixture, first: &Done<DemoScheme>) -> bool {
    let (history, front) = (book.history(), first.front());
    let lengths = (history.len(), history.parts(), front.len(), front.parts()) == (2, 2, 1, 1);
    let events = history.event(1).is_some()
        && history.event(2).is_none()
        && front.event(0).is_some()
        && front.event(1).is_none();
    let origins = history.committee().get() == fixture.committee.get()
        && history.limits() == NARROW
        && history.base().is_none()
        && front.committee().get() == fixture.committee.get()
        && front.limits() == NARROW;
    let begins = front.is_prefix_of(history) && !history.is_prefix_of(front);
    lengths && events && origins && begins
}

/// A fixture for members with these numbers, and its block, which it no longer has.
fn block_under(alloc: Global, members: &[u8]) -> Result<(Fixture, CheckedBlock<DemoScheme>), Fail> {
    let mut fixture = Fixture::new(alloc, members, &TWO[..1])?;
    let link = fixture.links.pop().ok_or("an example has blocks")?;
    Ok((fixture, link.block))
}

/// Whether books refuse calls, and histories and fronts can be read, without an allocation.
fn of_books(alloc: Global) -> Result<bool, Fail> {
    let (fixture, own) = block_under(alloc, &[0])?;
    let (other, foreign) = block_under(alloc, &[1])?;
    drop(other);
    let mut book = retry!(BookError::NoMemory, narrow_book(alloc, &fixture, 2))?;
    let first = fill(alloc, &mut book, &Command::Status)?;
    fail_allocations(alloc);
    // The prover finds the types that a command may borrow only in the function that makes the command.
    let _certificate: Option<&CheckedCert<DemoScheme>> = None;
    let (own, foreign) = (Command::Write(&own), Command::Write(&foreign));
    let refusals = refusals_of(alloc, &mut book, &own, &foreign);
    let are_read = are_read(&book, &fixture, &first);
    allow_allocations(alloc);
    Ok(refusals == REFUSALS.map(Some) && are_read)
}

/// The place of the ticket's block, the number of events of its front and the number of parts of its view, read while all
/// allocations fail.
fn read_of(alloc: Global, fixture: &Fixture, ticket: &Ticket<DemoScheme>) -> (usize, usize, usize) {
    fail_allocations(alloc);
    let (front, view) = (ticket.front().len(), ticket.view().parts());
    let place = fixture.place_under(&ticket.digest());
    allow_allocations(alloc);
    (place, front, view)
}

/// Whether tickets can be read without an allocation.
fn of_tickets<R: Wait>(rt: &R, alloc: Global) -> Result<bool, Fail> {
    let fixture = Fixture::new(alloc, &[0, 1, 2, 3], &FOUR)?;
    let mut tickets = retry!(AllocError, Vec::with_capacity(alloc, 1))?;
    drop(played_anew(rt, alloc, &fixture, &COLLECTED[..9], &mut tickets)?);
    match tickets.first() {
        Some(ticket) => Ok(read_of(alloc, &fixture, ticket) == (3, 9, 1)),
        None => Ok(false),
    }
}

/// Tries to settle the given sessions, which must fail because the first is missing. Then settles them together with the first and with
/// one more, unless the store has made as many sessions as its limit allows.
fn settled_later<L: Home>(
    alloc: Global,
    store: Store<DemoScheme, L>,
    first: Session<DemoScheme, L>,
    given: Vec<Session<DemoScheme, L>>,
) -> Option<Settled<DemoScheme, L>> {
    let Err(unsettled) = settle(store, given) else {
        return None;
    };
    let Unsettled {
        mut locked,
        mut sessions,
        ..
    } = unsettled;
    let more = session_locked(&mut locked, alloc);
    sessions.push(first).ok()?;
    if let Ok(more) = more {
        sessions.push(more).ok()?;
    }
    settle_locked(locked, sessions).ok()
}

/// Whether the first of two or three sessions made the one call of the history, and the others made none.
fn has_all<L: Home>(settled: &Settled<DemoScheme, L>, sessions: u16) -> bool {
    let of = |session: u16| settled.journal(session).map(|journal| journal.len());
    let third = if sessions > 2 { Some(0) } else { None };
    settled.history().len() == 1 && (of(0), of(1), of(2), of(3)) == (Some(1), Some(0), third, None)
}

/// Makes sessions of the store, makes one call in the first, and settles them. All but that call runs while all allocations fail. The limit
/// of the store is two or three sessions. A third or a fourth one is refused.
fn of_sessions<L: Home, R: Wait>(
    rt: &R,
    alloc: Global,
    store: Store<DemoScheme, L>,
    sessions: u16,
) -> Result<bool, Fail> {
    let mut given = retry!(AllocError, Vec::with_capacity(alloc, 3))?;
    fail_allocations(alloc);
    let made = (store.session(rt, alloc), store.session(rt, alloc));
    let is_refused = sessions > 2 || matches!(store.session(rt, alloc), Err(TooMany));
    allow_allocations(alloc);
    let (mut first, second) = (made.0?, made.1?);
    let done = retry!(NoStep::NoMemory, store.status(rt, alloc, &mut first))?;
    drop(done);
    fail_allocations(alloc);
    let are_counted = (first.id(), first.calls(), second.id(), second.calls()) == (0, 1, 1, 0);
    let is_given = given.push(second).is_ok();
    let settled = settled_later(alloc, store, first, given);
    let has_all = settled.is_some_and(|settled| has_all(&settled, sessions));
    allow_allocations(alloc);
    Ok(is_refused && are_counted && is_given && has_all)
}

/// Does what `of_sessions` does, on a store over the book.
fn of_a_store<L: Home, R: Wait>(
    rt: &R,
    alloc: Global,
    opening: Opening<DemoScheme>,
    book: Book<DemoScheme>,
    sessions: u16,
) -> Result<bool, Fail>
    requires log { opening.log ≡ L.log }
    requires ledger { (opening.ledger ≡ L.name) × (L.parts ≡ parts_of_a_ledger) }
    requires origin { origin_of book ≡ L.origin }
{
    match Store::<DemoScheme, L>::over(opening, book) {
        Ok(store) => of_sessions(rt, alloc, store, sessions),
        Err(book) => {
            drop(book);
            Ok(false)
        }
    }
}

/// Whether sessions of a store with this limit on sessions are made, refused, read and settled without an allocation.
fn of_stores<R: Wait>(rt: &R, alloc: Global, sessions: u16) -> Result<bool, Fail> {
    let fixture = Fixture::new(alloc, &[0], &[])?;
    let opening = retry!(NoMemory, Opening::new(alloc))?;
    let book = retry!(BookError::NoMemory, narrow_book(alloc, &fixture, sessions))?;
    of_a_store::<Brand, R>(rt, alloc, opening, book, sessions)
}

#[test]
fn calls_without_allocation(rt: HostRuntime) -> Result<(), Fail> {
    let alloc = rt.alloc();
    assert!(rt; of_books(alloc)?, "books");
    assert!(rt; of_tickets(&rt, alloc)?, "tickets");
    assert!(rt; of_stores(&rt, alloc, 2)?, "stores of two sessions");
    assert!(rt; of_stores(&rt, alloc, 3)?, "stores of three sessions");
    Ok(())
}
