//! This crate defines lists that grow at their end, and share their items with the lists that they grew from.
//!
//! Its contract: [`SharedList`] is an immutable list with a head. Adding an item makes another list with the same head. The cost
//! does not depend on the length of the list, except for every 256th item. It uses only `nw_digest`.
#![tactic(auto)]

mod chunk;
mod chunks;
mod trail;

pub use chunk::CHUNK;
pub use chunks::SharedList;
