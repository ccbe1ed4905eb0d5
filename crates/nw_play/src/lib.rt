//! Plays a script: makes the calls of its lines, one after another, on a store with its sessions, and prints the answers.
//!
//! It is proved that `play` returns, whatever the reader gives and however the writer fails. It waits only for the locks of its own stores,
//! which no other thread holds. Tests and worked scripts show what is printed. `nw_script` parses the lines, `nw_interpreter` does the part
//! that needs no store, and `nw_store` takes the calls. Members sign with the demonstration scheme.
#![tactic(auto)]

mod books;
mod fault;
mod input;
mod lines;
mod output;
mod player;
mod script;
mod settlement;
mod stores;

pub use fault::PlayFault;
pub use script::play;
