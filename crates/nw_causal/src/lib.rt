//! Lists the ancestors of a block in a view, and compares two such lists.
//!
//! A [`walk`] lists exactly the ancestors of a digest, strictly ascending by round and author; [`walk_lent`] lends them, with their digests. [`agree`] tells
//! whether the walks of one digest in two views are equal. If they are not, it returns two different blocks under one digest. The crate
//! uses `nw_generation` for views. `nw_model` defines ancestors.
#![tactic(auto)]

mod agreement;
mod ancestor;
mod walks;

pub use agreement::{Agreement, agree};
pub use ancestor::Ancestor;
pub use walks::{walk, walk_lent};
