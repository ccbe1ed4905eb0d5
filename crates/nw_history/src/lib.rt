//! Keeps fronts: legal histories that never change and share their events.
//!
//! A [`Front`] is legal under its committee and limits, and starts from its base. One more event makes another front, which shares all
//! earlier events. [`Front::is_prefix_of`] tells whether a front is a prefix of another one.
//!
//! `nw_model` defines legal histories. The crate uses `nw_plain` for bases, and `nw_shared_list` for lists that share their items.
#![tactic(auto)]

mod front;
mod limits;
mod start;

pub use front::Front;
pub use limits::{Limits, MAX_BLOCKS, MAX_EVENTS, MAX_SESSIONS, MAX_WINDOW};
pub use nw_committee::Committee;
pub use nw_digest::{NoMemory, Shared};
pub use nw_model::Event;
pub use nw_plain::Base;
pub use nw_sig::Scheme;
