//! Points of the twisted Edwards curve of Ed25519 (RFC 8032, section 5.1): sums, multiples, and points as 32 bytes.
//!
//! The extended coordinates of sums and multiples are exactly those of the standard's formulas. Points are decoded from 32 bytes and
//! encoded by the standard's rules.

mod base_table;
mod coding;
mod completed;
mod constants;
mod laws;
mod point;
mod table;

pub use completed::{Addend, AffineAddend, CompletedPoint};
pub use laws::{constants_of_the_curve, multiples_add};
pub use point::Point;
pub use table::Table;
