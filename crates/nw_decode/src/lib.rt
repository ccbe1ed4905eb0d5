//! Decodes messages, and reads the fixed fields at the front of a message's text.
//!
//! Decoding accepts exactly the texts of the grammar of nw_codec, and reports the first fault of any other text in reading order.
//! `docs/FORMATS.md` describes the grammar and the faults.
#![tactic(auto)]

mod decode;
mod error;
mod laws;
mod peek;

pub use decode::decode_message;
pub use error::DecodeError;
pub use laws::{grammar_or_fault, one_message, trailing_follows_a_message};
pub use peek::{Peek, peek_message};
