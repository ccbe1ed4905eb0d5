//! This crate defines the interface of a signature scheme, the texts that are signed, and a scheme for demonstrations.
//!
//! Its contract: `verify` returns what the scheme's meaning says, and a scheme accepts the signatures of its signers.
//! It uses `nw_digest`, `nw_codec` for signatures, `nw_committee` for keys, and `sha2` for the demonstration scheme.
#![tactic(auto)]

mod demo;
mod scheme;
mod signed;

pub use demo::{DemoScheme, DemoSigner};
pub use scheme::{Scheme, Signer};
pub use signed::{text_of_block, text_of_vote};
