//! This crate defines what a store means: its state, its calls, the reply to each call, and which histories are legal.
//!
//! Its contract: the step table in `specs/Step.antt` never gives a call two different replies in one state, except that `Ready`
//! may be in place of a list. Every legal history leaves a sound state. It takes blocks and certificates from `nw_codec`, and
//! digests and rounds from `nw_digest`. Only its definitions use `nw_committee`, `nw_sig` and `sha2`.
#![tactic(auto)]

mod call;
mod event;
mod laws;
mod look;
mod reply;
mod wanted;

pub use call::{Call, is_same_block};
pub use event::Event;
pub use laws::{
    beginnings_of_legal_histories_are_legal, blocks_with_their_parents_miss_none,
    causal_lists_contain_those_of_their_blocks, causal_lists_reach_quorums, causal_lists_stay,
    complete_digests_have_one_causal_list, firsts_of_a_base_get_no_vote,
    legal_histories_leave_sound_states, legal_histories_vote_once, reads_agree,
    recorded_calls_take_the_same_step, step_is_a_function, views_show_the_ancestors,
};
pub use look::Look;
pub use reply::{CausalReply, CertifyReply, CollectReply, Counts, Reply, WriteReply};
pub use wanted::Wanted;
