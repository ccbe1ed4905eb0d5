//! Keeps frozen blocks in generations that never change, and makes views of a few generations.
//!
//! A [`Generation`] is a finite map from digests to blocks, with shared ownership. It is made from a sorted list, from a trie, or from
//! other generations, and shares their blocks. [`Generations`] are at most 16 of them. A [`View`] has the blocks of some
//! generations and a floor, and is closed. If generations have different blocks under one digest, the block of the latest generation
//! counts.
//!
//! The crate uses `nw_trie` for tries. `nw_model` defines closed views.
#![tactic(auto)]

mod descent;
mod entries;
mod generation;
mod generations;
mod index;
mod slots;
mod span;
mod view;

pub use descent::Descent;
pub use generation::{Generation, freeze};
pub use generations::Generations;
pub use view::View;
