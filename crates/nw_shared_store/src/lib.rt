//! A block store that threads share without waiting: a book behind a lock of a single word.
//!
//! A call makes one attempt to take the lock, and answers [`Refusal::Busy`] if another thread has it. Nothing in this crate waits, so it can
//! stand in a static library. Each answer carries a legal history that ends with the call. Of the calling session, this history has exactly
//! the calls of its journal, in order. The session's earlier histories are prefixes of it.
//!
//! A store has runs, each with one history. A restart ends the run and begins the next, with the same blocks, certificates and votes, and an
//! empty history. A session belongs to a run, and is renewed after a restart.
//!
//! The lock is a word of the kit's `atomic_table`, and the book lies in the table's slot. What each session knows is a seat of this table.
//! The crate uses `nw_book` for steps.
#![tactic(auto)]

mod error;
mod knowledge;
mod lock;
mod locked;
mod looks;
mod rule;
mod runs;
mod session;
mod settlement;
mod store;
mod work;

pub use error::Refusal;
pub use session::SharedSession;
pub use settlement::{SettleFault, settle};
pub use store::SharedStore;
