//! Tests what worked scripts cannot show of plays and loads.
//!
//! Plays have failing readers and writers, the longest script, and allocation failures. Loads have the report of each node, bad
//! arguments, and a node's client thread, which walks without the lock while its link thread writes.
//!
//! It has only tests, and no crate uses it. Worked scripts and what they print are in `crates/nw/scripts`, and `.ci/scripts` plays
//! them.
#![tactic(auto)]

#[cfg(test)]
mod tests;
