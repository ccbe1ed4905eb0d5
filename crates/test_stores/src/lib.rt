//! Tests stores: replies and journals, threads that write, walk and collect at the same time, notes, late walks, and settlements.
//!
//! This crate contains only tests. No other crate uses it.
#![tactic(auto)]

#[cfg(test)]
mod tests;
