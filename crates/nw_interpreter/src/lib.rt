//! Interprets the lines of a script, as far as they need no store: names, numbers, messages, and the printed answers.
//!
//! `Bindings` have the committee and the names of a script. They make the checked values that a call hands in, and the line that a request or
//! a reply prints. No function of this crate takes a lock or waits.
//!
//! It is proved that a committee has the members or weights of its line (`committee`). Worked scripts test the printed answers. Loads
//! (`nw_load`) take their committee and messages from here too.
#![tactic(auto)]

mod bindings;
mod blocks;
mod fault;
mod looks;
mod members;
mod names;
mod replies;
mod votes;
mod words;

pub use bindings::Bindings;
pub use fault::LineFault;
pub use members::{block_message, committee, vote_message};
pub use words::{empty_line, hash, refused};
