//! This crate maps digests to values in critical-bit tries.
//!
//! Its contract: [`Trie`] and [`DigestMap`] are finite maps from digests to values. It uses only `nw_digest`.
#![tactic(auto)]

mod bits;
mod iter;
mod map;
mod tree;
mod trie;

pub use iter::Iter;
pub use map::DigestMap;
pub use trie::Trie;
