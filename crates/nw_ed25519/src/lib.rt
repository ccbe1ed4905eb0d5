//! Verification of Ed25519 signatures (RFC 8032), as a `Scheme` of `nw_sig`.
//!
//! Its contract: `verify` computes the standard's definition, without the cofactor, for every key, text and signature. It has no signer. The
//! time of a verification depends on its input, all of which is public. Only preparing a key or the base point allocates.
#![tactic(auto)]

mod comb;
mod digits;
mod keys;
mod order;
mod prepared;
mod scheme;
mod sum;

pub use keys::{PreparedBase, PreparedKey};
pub use scheme::Ed25519;
