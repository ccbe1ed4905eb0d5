//! Makes sample values for tests: committees, checked blocks and certificates, and tries and views of blocks.
//!
//! - [`block`], [`block_with`] and [`certificate`] return values that were checked under the given [`committee`]. Its members sign with
//!   the demonstration scheme.
//! - The functions in [`fallible`] return an allocation failure as a distinct error, so that a test can recognize it and repeat the call
//!   with [`retry`]. Only `fallible::committee` has the same error for a bad size or a repeated key.
//! - [`older`] returns blocks of round 0, and [`newer`] a block of round 1 that has them as parents. Each has the digest that [`name`]
//!   returns for its round and author. [`view_of_both`] is the view of all these blocks, and [`view_of_one`] that of one block of round 0.
//!
//! [`Naps`] let a gate wait for another thread.
//!
//! Only tests use this crate. It uses `nw_trie` for tries, and `nw_generation` for views.
#![tactic(auto)]

mod asking;
mod blocks;
mod checked;
pub mod fallible;
mod naps;
mod signing;
mod tries;
mod views;

pub use asking::{allow_allocations, fail_allocations};
pub use blocks::{name, references, round, shared_block};
pub use checked::{block, block_with, certificate, committee, four, key};
pub use naps::Naps;
pub use tries::{Blocks, newer, older};
pub use views::{view_of_both, view_of_one};
