//! SHA-256 of eight messages at once, a lane of a vector for each.
//!
//! Its contract: [`sha256_of_lanes`] returns, for each message, what the kit's `sha2` returns. It uses only that crate's definitions.
#![tactic(auto)]

mod compress;
mod messages;
mod padding;

pub use messages::sha256_of_lanes;
