//! Checks blocks and certificates from other validators, and gathers votes into certificates.
//!
//! The type of a checked value guarantees that its block is well formed, or its certificate valid, under the value's committee and
//! scheme. `nw_model` defines both terms. The crate uses `nw_decode`, `nw_committee` and `nw_sig`.
#![tactic(auto)]

mod check;
mod checked;
mod fault;
mod gather;
mod laws;
mod members;
mod message;
mod verifier;

pub use check::{check_block, check_block_by, check_cert, check_cert_by, valid};
pub use checked::{CheckedBlock, CheckedCert};
pub use fault::{BlockFault, CertFault, Counted, FinishFault, GatherFault, StartFault};
pub use gather::Gather;
pub use laws::{blocks_have_one_fault, certificates_have_one_fault, votes_have_one_fault};
pub use message::{Checked, check_message, check_message_by};
pub use verifier::{Verifier, note_size};
