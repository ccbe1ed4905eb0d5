//! A session that asks the rows of an example, and repeats a row at once if an allocation fails.
use super::fixture::{Fixture, Link};
use super::*;
use nw_digest::Sequence;
use nw_store::{Done, Home, Session, Store};
use std::sync::Wait;

/// What a session asks of its store, about one block and its certificate.
#[derive(Clone, Copy)]
pub(super) enum Ask {
    Write,
    Certify,
    Certificate,
    Read,
    Open,
    /// Walk the ticket with this number. This is not a call.
    Walk(usize),
    /// Raise the garbage round to this one.
    Collect(u64),
    Missing,
    Status,
    /// Compact the store. This is not a call.
    Compact,
}

/// The place of a block, what the session asks, and the text of the expected reply. `Ready` has the number of generations of the last
/// ticket's view.
pub(super) struct Row(pub(super) usize, pub(super) Ask, pub(super) &'static str);

/// Makes a call that is not a causal read.
fn call<L: Home, R: Wait>(
    rt: &R,
    alloc: Global,
    store: &Store<DemoScheme, L>,
    session: &mut Session<DemoScheme, L>,
    link: &Link,
    asked: &Ask,
) -> Result<Done<DemoScheme>, NoStep> {
    match asked {
        Ask::Write => store.write(rt, alloc, session, &link.block),
        Ask::Certify => store.certify(rt, alloc, session, &link.certificate),
        Ask::Certificate => store.certificate(rt, alloc, session, link.block.digest()),
        Ask::Read => store.read(rt, alloc, session, link.block.digest()),
        Ask::Collect(number) => {
            let round = Round::new(*number).unwrap_or(Round::ZERO);
            store.collect(rt, alloc, session, round)
        }
        Ask::Missing => store.missing(rt, alloc, session, 5),
        _ => store.status(rt, alloc, session),
    }
}

/// Opens a causal read of the block, and keeps the ticket if there is one. Returns the reply in the history.
fn open<L: Home, R: Wait>(
    rt: &R,
    alloc: Global,
    store: &Store<DemoScheme, L>,
    session: &mut Session<DemoScheme, L>,
    link: &Link,
    tickets: &mut Vec<Ticket<DemoScheme>>,
) -> Result<Reply, NoStep> {
    match store.open_causal(rt, alloc, session, link.block.digest())? {
        Err(done) => Ok(done.reply().try_clone(alloc)?),
        Ok(ticket) => match tickets.push(ticket) {
            Ok(()) => Ok(Reply::Ready),
            Err(_) => Err(NoStep::NoMemory),
        },
    }
}

/// The list of the ticket, or `OutOfTurn` if there is no ticket, which no row expects.
fn walk(alloc: Global, ticket: Option<&Ticket<DemoScheme>>) -> Result<Reply, NoStep> {
    match ticket {
        Some(ticket) => Ok(Reply::List(Sequence::new(ticket.walk(alloc)?))),
        None => Err(NoStep::OutOfTurn),
    }
}

/// The reply to what the session asks.
fn reply_to<L: Home, R: Wait>(
    rt: &R,
    alloc: Global,
    store: &Store<DemoScheme, L>,
    session: &mut Session<DemoScheme, L>,
    link: &Link,
    tickets: &mut Vec<Ticket<DemoScheme>>,
    asked: &Ask,
) -> Result<Reply, NoStep> {
    match asked {
        Ask::Open => open(rt, alloc, store, session, link, tickets),
        Ask::Walk(number) => walk(alloc, tickets.get(*number)),
        Ask::Compact => match store.compact(rt, alloc) {
            Ok(()) => Ok(Reply::Ready),
            Err(NoMemory) => Err(NoStep::NoMemory),
        },
        _ => {
            let done = call(rt, alloc, store, session, link, asked)?;
            let reply = retry!(NoMemory, done.reply().try_clone(alloc));
            drop(done);
            Ok(reply?)
        }
    }
}

/// Whether the reply has this text. The text of `Ready` has the number of generations of the last ticket's view.
fn has_text(
    alloc: Global,
    fixture: &Fixture,
    reply: &Reply,
    last: Option<&Ticket<DemoScheme>>,
    expected: &str,
) -> Result<bool, AllocError> {
    match (reply, last) {
        (Reply::Ready, Some(ticket)) => {
            let parts = ticket.view().parts();
            Ok(retry!(AllocError, format!(in alloc; "Ready({parts})"))?.as_str() == expected)
        }
        _ => fixture.has_text(alloc, reply, expected),
    }
}

/// Asks the row. Returns whether the reply is the expected one.
fn answers<L: Home, R: Wait>(
    rt: &R,
    alloc: Global,
    store: &Store<DemoScheme, L>,
    session: &mut Session<DemoScheme, L>,
    tickets: &mut Vec<Ticket<DemoScheme>>,
    fixture: &Fixture,
    row: &Row,
) -> Result<bool, Fail> {
    let Row(place, asked, expected) = row;
    let Some(link) = fixture.links.get(*place) else {
        return Ok(false);
    };
    let reply = retry!(
        NoStep::NoMemory,
        reply_to(rt, alloc, store, session, link, tickets, asked)
    )?;
    let has_text = has_text(alloc, fixture, &reply, tickets.last(), expected);
    drop(reply);
    Ok(has_text?)
}

/// Asks the rows in order, up to the first with another reply. Returns the number of rows before it.
pub(super) fn answered<L: Home, R: Wait>(
    rt: &R,
    alloc: Global,
    store: &Store<DemoScheme, L>,
    session: &mut Session<DemoScheme, L>,
    tickets: &mut Vec<Ticket<DemoScheme>>,
    fixture: &Fixture,
    rows: &[Row],
) -> Result<usize, Fail> {
    for (place, row) in rows.iter().enumerate() {
        if !answers(rt, alloc, store, session, tickets, fixture, row)? {
            return Ok(place);
        }
    }
    Ok(rows.len())
}
