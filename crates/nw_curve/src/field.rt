//! Whole numbers of 256 bits, and numbers modulo the prime 2^255 - 19.
//!
//! Sums, differences, products and powers are exact modulo the prime, and bytes are read and written exactly.

mod limbs;
mod number;
mod power;
mod whole;

pub use number::Number;
pub use whole::Whole;
