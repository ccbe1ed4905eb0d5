//! This crate has a slow store over ordered maps, which tests compare with the tables of `nw_dag`. It also has the bases from
//! which histories start.
//!
//! Its contract: each call of [`Plain`] takes the step that the step table of `nw_model` gives. A [`Base`] is such a store that never
//! changes. It uses `nw_digest`, `nw_codec` and `nw_model`.
#![tactic(auto)]

mod base;
mod plain;
mod view;
mod walks;

pub use base::Base;
pub use plain::{Maps, Plain};
