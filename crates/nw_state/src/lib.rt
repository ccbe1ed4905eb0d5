//! This crate keeps the blocks, certificates and slots of one state, and finds the replies that depend only on these.
//!
//! Its contract: a [`StateTables`] is a state as `nw_model` defines it, with the bounds of a store. It finds the reply to each write,
//! certificate and collection, and adds and drops entries as the step says. It takes its values from `nw_digest` and `nw_codec`, and its
//! maps from `nw_trie` and `nw_rounds`.
#![tactic(auto)]

mod tables;

pub use tables::StateTables;
