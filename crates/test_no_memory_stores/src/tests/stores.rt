//! Stores, from `new` or `over` to the settlement of their sessions.
ghost use Rattle.std.specs.Prelude.{◌≡◌};
ghost use Rattle.nw_history.specs.Story.{first_origin};
ghost use Rattle.nw_store.specs.Journal.{origin_of};
ghost use Rattle.nw_store.specs.Lock.{parts_of_a_ledger};

use super::asking::{Row, answered};
use super::endings::ended;
use super::fixture::Fixture;
use super::*;
use nw_store::{Home, Opening, Session, Store};
use std::marker::Brand;
use std::sync::Wait;

/// The limits of a new store.
pub(super) const LIMITS: Limits = Limits {
    blocks: 64,
    events: 64,
    window: 64,
    sessions: 3,
};

/// What a store leaves after its sessions are settled.
#[derive(Drop)]
pub(super) struct Outcome {
    /// The number of rows before the first one with another reply.
    pub(super) answered: usize,
    /// The number of events.
    pub(super) events: usize,
    /// The reopened book.
    pub(super) book: Book<DemoScheme>,
}

/// Makes two sessions, and asks the rows in the first. Returns the number of rows before the first one with another reply.
fn asked<L: Home, R: Wait>(
    rt: &R,
    alloc: Global,
    store: &Store<DemoScheme, L>,
    sessions: &mut Vec<Session<DemoScheme, L>>,
    fixture: &Fixture,
    rows: &[Row],
    tickets: &mut Vec<Ticket<DemoScheme>>,
) -> Result<usize, Fail> {
    retry!(AllocError, sessions.reserve(2))?;
    sessions.push(store.session(rt, alloc)?)?;
    sessions.push(store.session(rt, alloc)?)?;
    let first = sessions.first_mut().ok_or("there are two sessions")?;
    answered(rt, alloc, store, first, tickets, fixture, rows)
}

/// Asks the rows on the store, and settles its sessions.
fn play<L: Home, R: Wait>(
    rt: &R,
    alloc: Global,
    store: Store<DemoScheme, L>,
    fixture: &Fixture,
    rows: &[Row],
    tickets: &mut Vec<Ticket<DemoScheme>>,
) -> Result<Outcome, Fail> {
    let mut sessions = Vec::new(alloc);
    match asked(rt, alloc, &store, &mut sessions, fixture, rows, tickets) {
        Ok(answered) => {
            let (events, book) = ended(alloc, store, sessions)?;
            Ok(Outcome {
                answered,
                events,
                book,
            })
        }
        Err(fail) => {
            drop(sessions);
            drop(store);
            Err(fail)
        }
    }
}

/// Asks the rows on a store over the book.
fn play_over<L: Home, R: Wait>(
    rt: &R,
    alloc: Global,
    opening: Opening<DemoScheme>,
    book: Book<DemoScheme>,
    fixture: &Fixture,
    rows: &[Row],
    tickets: &mut Vec<Ticket<DemoScheme>>,
) -> Result<Outcome, Fail>
    requires log { opening.log ≡ L.log }
    requires ledger { (opening.ledger ≡ L.name) × (L.parts ≡ parts_of_a_ledger) }
    requires origin { origin_of book ≡ L.origin }
{
    match Store::<DemoScheme, L>::over(opening, book) {
        Ok(store) => play(rt, alloc, store, fixture, rows, tickets),
        Err(book) => {
            drop(book);
            Err(Fail::from("the book has events"))
        }
    }
}

/// Asks the rows on a new store. The inner error says why there is no store.
fn play_new<L: Home, R: Wait>(
    rt: &R,
    alloc: Global,
    opening: Opening<DemoScheme>,
    committee: Shared<Committee>,
    limits: Limits,
    fixture: &Fixture,
    rows: &[Row],
    tickets: &mut Vec<Ticket<DemoScheme>>,
) -> Result<Result<Outcome, BookError>, Fail>
    requires log { opening.log ≡ L.log }
    requires ledger { (opening.ledger ≡ L.name) × (L.parts ≡ parts_of_a_ledger) }
    requires origin { first_origin committee limits ≡ L.origin }
{
    match Store::<DemoScheme, L>::new(alloc, opening, committee, limits) {
        Ok(store) => Ok(Ok(play(rt, alloc, store, fixture, rows, tickets)?)),
        Err(error) => Ok(Err(error)),
    }
}

/// Does what `play_new` does, with a new opening.
fn play_anew<R: Wait>(
    rt: &R,
    alloc: Global,
    fixture: &Fixture,
    rows: &[Row],
    tickets: &mut Vec<Ticket<DemoScheme>>,
) -> Result<Result<Outcome, BookError>, Fail> {
    let opening = retry!(NoMemory, Opening::new(alloc))?;
    match retry!(NoMemory, fixture.committee.try_clone()) {
        Ok(committee) => play_new::<Brand, R>(
            rt, alloc, opening, committee, LIMITS, fixture, rows, tickets,
        ),
        Err(refused) => {
            drop(opening);
            Err(Fail::from(refused))
        }
    }
}

/// The outcome of the rows on a new store. If an allocation fails while the store is made, it is made again with another opening.
pub(super) fn played_anew<R: Wait>(
    rt: &R,
    alloc: Global,
    fixture: &Fixture,
    rows: &[Row],
    tickets: &mut Vec<Ticket<DemoScheme>>,
) -> Result<Outcome, Fail> {
    match play_anew(rt, alloc, fixture, rows, tickets)? {
        Err(BookError::NoMemory) => Ok(play_anew(rt, alloc, fixture, rows, tickets)??),
        played => Ok(played?),
    }
}

/// The outcome of the rows on a store over the book.
pub(super) fn played<R: Wait>(
    rt: &R,
    alloc: Global,
    book: Book<DemoScheme>,
    fixture: &Fixture,
    rows: &[Row],
    tickets: &mut Vec<Ticket<DemoScheme>>,
) -> Result<Outcome, Fail> {
    match retry!(NoMemory, Opening::new(alloc)) {
        Ok(opening) => play_over::<Brand, R>(rt, alloc, opening, book, fixture, rows, tickets),
        Err(refused) => {
            drop(book);
            Err(Fail::from(refused))
        }
    }
}
