//! Books: each keeps a growing legal history and the state after it, and gives tickets for causal reads.
//!
//! A step adds one event to the history. Its answer carries the history up to and including that event. A refused step changes nothing.
//! Opening a causal read is also a step. Its ticket gives the causal list as of that step at any later time. [`Ticket::agree`] tells
//! whether two tickets for one digest give equal lists. A run makes moves in order, and stops at the first one that is refused.
//!
//! The crate uses `nw_history` for histories, `nw_dag` for tables, `nw_causal` for walks, and `nw_check` for checked values.
#![tactic(auto)]

mod book;
mod command;
mod done;
mod entry;
mod error;
mod moves;
mod run;
mod ticket;

pub use book::Book;
pub use command::Command;
pub use done::Done;
pub use entry::Entry;
pub use error::{BookError, NoStep};
pub use moves::{Answer, Cause, Move, Run, Stop};
pub use nw_causal::{Agreement, Ancestor};
pub use nw_check::{CheckedBlock, CheckedCert};
pub use nw_codec::Block;
pub use nw_dag::{Call, Digest, Reply, Round, Sequence, View};
pub use nw_history::{
    Base, Committee, Event, Front, Limits, MAX_BLOCKS, MAX_EVENTS, MAX_SESSIONS, MAX_WINDOW,
    NoMemory, Scheme, Shared,
};
pub use ticket::Ticket;
