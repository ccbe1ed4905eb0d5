//! This crate keeps wanted parents, and the blocks that wait for them.
//!
//! Its contract: [`Waiting`] is a finite set of pairs: a wanted parent, and a holder (a block's digest) that is missing it.
//! [`MissingParents`] is two such sets: all pairs, and those of the parents that are not met. It uses `nw_digest` and `nw_model`.
#![tactic(auto)]

mod lists;
mod parents;
mod waiting;

pub use parents::MissingParents;
pub use waiting::Waiting;
