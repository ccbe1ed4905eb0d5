//! This crate keeps the first digest and the certified digest of each slot.
//!
//! Its contract: `Rounds` is two finite maps from slots (a round and an author) to digests. It uses only `nw_digest`.
#![tactic(auto)]

mod kind;
mod rounds;

pub use kind::DigestKind;
pub use rounds::{Place, Rounds};
