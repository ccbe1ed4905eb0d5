//! This crate defines digests, rounds, and the small types that the other crates share.
//!
//! Its contract: [`digest_of`] returns SHA-256 of the given bytes, and a [`Round`] is below 2^48. It uses the kit's `sha2` and
//! `thiserror`.
#![tactic(auto)]

mod byte_slice;
mod digest;
mod in_round;
mod memory;
mod round;
mod sequence;
mod shared;

pub use byte_slice::note_bytes;
pub use digest::{Digest, digest_of};
pub use in_round::InRound;
pub use memory::NoMemory;
pub use round::Round;
pub use sequence::Sequence;
pub use shared::Shared;
