//! The events of a history.
use crate::{Call, Reply};

/// One call of a session and its reply.
#[derive(Debug, Drop)]
pub struct Event {
    /// The session's id.
    pub session: u16,
    /// The number of the call in its session, counted from 1.
    pub number: u32,
    /// The call, as a history records it ([`Call::record`]): a refused block or certificate is told by its subject.
    pub call: Call,
    pub reply: Reply,
}
