//! This crate defines committees: their members, the members' weights, and the lists of members that reach the quorum.
//!
//! Its contract: the quorum is two thirds of the total weight, rounded down, plus one. A list of members reaches it if the
//! weights of the distinct members in the list add up to at least the quorum. It uses `nw_codec` and `thiserror`.
#![tactic(auto)]

mod committee;
mod distinct;
mod error;
mod laws;
mod member;

pub use committee::{Committee, MAX_MEMBERS};
pub use error::CommitteeFault;
pub use laws::{equal_members_have_the_classic_quorum, quorums_intersect};
pub use member::{Key, Member, Numbered};
