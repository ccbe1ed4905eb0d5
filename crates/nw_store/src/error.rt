//! Errors of a store.
use thiserror::Error;

/// The store has made as many sessions as its limit allows.
#[derive(Clone, Copy, Debug, PartialEq, Eq, Error)]
#[error("too many sessions")]
pub struct TooMany;

/// Why sessions do not settle. The variants are tested in order.
#[derive(Clone, Copy, Debug, PartialEq, Eq, Error)]
pub enum SettleFault {
    /// Fewer sessions were given than the store made.
    #[error("{given} of {made} sessions")]
    Unfinished {
        /// The number of sessions that the store made.
        made: u16,
        /// The number of sessions that were given.
        given: usize,
    },
    /// The given sessions are not exactly those that the store made.
    #[error("session {session} was not made, or is given twice")]
    Differs {
        /// The least stray id: two of the given sessions have it, or the store never made it.
        session: u16,
        /// Always 0, because no call can differ: a session's journal always equals the session's part of the history, and
        /// sessions of another store have another type.
        number: u32,
    },
}
