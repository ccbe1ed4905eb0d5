use nw_check::{CheckedBlock, CheckedCert};
use nw_committee::Committee;
use nw_digest::{Digest, Shared};
use nw_model::Reply;
use nw_sig::DemoScheme;
use nw_store::{Book, Done, Home, Limits, NoStep, Session, Store, Ticket};
use samples::{block, certificate, committee};
use std::alloc::Global;
use std::sync::Wait;
use std::test::Fail;

mod agreeing;
mod asking;
mod chains;
mod crowds;
mod examples;
mod followers;
mod late;
mod notes;
mod plans;
mod records;
mod scenes;
mod scripts;
mod settling;
mod tasks;

/// The limits of a script that sets none.
const LIMITS: Limits = Limits {
    blocks: 1024,
    events: 1024,
    window: 64,
    sessions: 16,
};

/// `LIMITS` with these numbers of events and sessions.
const fn limits(events: u32, sessions: u32) -> Limits {
    Limits {
        events,
        sessions,
        ..LIMITS
    }
}

/// A book without events, whose committee has this many members.
fn book(alloc: Global, members: u16, limits: Limits) -> Result<Book<DemoScheme>, Fail> {
    Ok(Book::new(alloc, committee(alloc, members)?, limits)?)
}
