//! Tests books and their runs: answers, turns, sharing between views, late walks, and reopened books.
//!
//! This crate contains only tests. No other crate uses it.
#![tactic(auto)]

#[cfg(test)]
mod tests;
