//! Committees whose Ed25519 keys are prepared once, for many verifications.
#![tactic(auto)]

mod committee;
mod gather;
mod votes;

pub use committee::PreparedCommittee;
pub use gather::PreparedGather;
