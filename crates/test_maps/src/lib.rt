//! This crate tests the parts of a store's tables and histories: tries, slots, wanted parents, lists in chunks, and known prefixes of a log.
//!
//! It has only tests. Tries, slots and wanted parents take many random steps from a seeded generator. They must answer like an
//! ordered map or set of the standard library. A trie is also tested with another allocator.
#![tactic(auto)]

#[cfg(test)]
mod tests;
