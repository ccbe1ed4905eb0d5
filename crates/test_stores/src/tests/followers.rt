//! A plain store that repeats the calls of a session's fronts, for comparison.
use super::*;
use nw_plain::Plain;
use nw_store::{Front, NoMemory};

/// A plain store that repeats the calls of one session's fronts, each of which continues the one before.
#[derive(Drop)]
pub(super) struct Follower {
    plain: Plain,
    played: usize,
}

impl Follower {
    /// A follower of a store with these limits, before any call.
    pub(super) fn new(alloc: Global, limits: Limits) -> Follower {
        Follower {
            plain: Plain::new(alloc, limits.blocks, limits.window),
            played: 0,
        }
    }

    /// The plain store's reply to the last call of the front, after all calls before it.
    fn last_reply(&mut self, front: &Front<DemoScheme>) -> Result<Reply, NoMemory> {
        let mut last = Reply::Ready;
        for index in self.played..front.len() {
            if let Some(event) = front.event(index) {
                last = self.plain.call(&event.call)?;
            }
        }
        self.played = front.len();
        Ok(last)
    }

    /// Whether the walk of the ticket, if there is one, equals the plain store's list.
    pub(super) fn agrees(
        &mut self,
        alloc: Global,
        ticket: &Option<Ticket<DemoScheme>>,
    ) -> Result<bool, NoMemory> {
        let Some(ticket) = ticket else {
            return Ok(true);
        };
        let walked = ticket.walk(alloc)?;
        match self.last_reply(ticket.front())? {
            Reply::List(blocks) => Ok(walked.as_slice() == blocks.as_slice()),
            _ => Ok(false),
        }
    }
}
