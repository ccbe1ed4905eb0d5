//! The curve of Ed25519 (RFC 8032, section 5.1): numbers modulo the prime 2^255 - 19, points, and their group law.
//!
//! The arithmetic is exact: numbers modulo the prime (`field`), and sums of points by the standard's formulas (`curve`). The points are a
//! group under these sums, which is proved from the formulas alone (`multiples_add`). Nothing is allocated.
#![tactic(auto)]

mod curve;
mod field;

pub use curve::{
    Addend, AffineAddend, CompletedPoint, Point, Table, constants_of_the_curve, multiples_add,
};
pub use field::{Number, Whole};
