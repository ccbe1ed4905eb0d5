//! The block store as a C library: handles of one pointer each, and functions that return codes.
//!
//! Each export restates the contract of the function that it calls, over the contents of its handles. No export has a precondition. A
//! closed handle, a handle of another kind, a buffer that is too small and a number out of range give a code.
#![tactic(auto)]

mod answers;
mod blocks;
mod checks;
mod codes;
mod committees;
mod content;
mod events;
mod gathers;
mod given;
mod handle;
mod hashed;
mod interface;
mod messages;
mod notes;
mod parts;
mod peek;
mod plain;
mod replies;
mod sessions;
mod settlements;
mod signing;
mod stores;
mod texts;
mod tickets;
