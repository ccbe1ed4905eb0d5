//! This crate is the certified DAG of a store, in memory only. It tracks which blocks are complete and which parents are missing, and
//! freezes complete blocks for views.
//!
//! Its contract: each call of [`Dag`] takes the step that the step table of `nw_model` gives. It keeps the state with `nw_state`, the
//! missing parents with `nw_waiting`, and the frozen blocks with `nw_generation`.
#![tactic(auto)]

mod completions;
mod dag;
mod frozen;
mod waits;

pub use dag::{Dag, DagLimits};
pub use nw_codec::{Block, Certificate};
pub use nw_digest::{Digest, NoMemory, Round, Sequence, Shared};
pub use nw_generation::View;
pub use nw_model::{
    Call, CausalReply, CertifyReply, CollectReply, Counts, Reply, Wanted, WriteReply,
};
