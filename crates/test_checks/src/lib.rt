//! Tests formats and checks: digests, messages, signed texts, lines of a script, and the checks of messages.
//!
//! The checks use the demonstration scheme, for single messages and for many messages in several threads. The crate has only tests, and
//! no crate uses it.
#![tactic(auto)]

#[cfg(test)]
mod tests;
