//! This crate tests the tables of a store: it has worked examples, floods and crowded digests, and compares a `Dag` with a `Plain`.
//!
//! It has only tests, and no crate uses it.
#![tactic(auto)]

#[cfg(test)]
mod tests;
