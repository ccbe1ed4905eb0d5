//! This crate defines a log of events that only grows, and known prefixes of it.
//!
//! Its contract: a [`LogOwner`] knows the whole log. A [`KnownPrefix`] is a prefix of the log; it is zero-sized, and may move to
//! another thread. However much the log has grown since, the owner can show that the log begins with the known prefix. Only
//! contracts see the events: none is stored or compared. No call blocks, and only [`NewLog::new`] allocates. The crate uses
//! only the kit's `atomic_table`.
#![tactic(auto)]

mod log;
mod rule;

pub use log::{KnownPrefix, LogName, LogOwner, NewLog};
