//! A block store that threads share: one lock around a book, and sessions that keep journals of their answers.
//!
//! Each answer carries a legal history with the store's origin, which ends with the answered call. The session's earlier
//! histories are prefixes of it. Every history that the store ever handed out is a prefix of the one under the lock.
//!
//! The methods of [`Store`] wait for the lock. The functions whose names end in `_locked` are for callers that hold the lock. They do not
//! wait, but no clause bounds their running time. When all sessions are given back, the history is an interleaving of their journals.
//!
//! The crate uses `nw_book` for steps, `nw_log` for what sessions know of the history, and std's ledger to count their calls.
#![tactic(auto)]

mod calls;
mod error;
mod home;
mod locked;
mod looks;
mod notes;
mod opening;
mod session;
mod settlement;
mod store;

pub use calls::{call_locked, open_locked};
pub use error::{SettleFault, TooMany};
pub use home::Home;
pub use locked::{
    Locked, check_journal_locked, check_journals_locked, compact_locked, look_locked,
    look_round_locked, session_locked,
};
pub use notes::{Note, hear_locked, note_locked, notes_carry_order};
pub use nw_book::{
    Agreement, Base, Block, Book, BookError, Call, CheckedBlock, CheckedCert, Command, Committee,
    Digest, Done, Entry, Event, Front, Limits, MAX_BLOCKS, MAX_EVENTS, MAX_SESSIONS, MAX_WINDOW,
    NoMemory, NoStep, Reply, Round, Scheme, Sequence, Shared, Ticket, View,
};
pub use opening::Opening;
pub use session::Session;
pub use settlement::{Settled, Unsettled, settle, settle_locked};
pub use store::Store;
