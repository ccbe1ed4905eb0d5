//! Tasks of sessions, turn by turn.
use super::asking::Ask;
use super::*;
use nw_model::{CausalReply, CertifyReply, CollectReply, WriteReply};

/// The number of collected rounds.
const COLLECTED: u16 = 32;

/// What a session does in its thread.
#[derive(Clone, Copy, Drop)]
pub(super) enum Task {
    /// Writes and certifies the chain.
    Write,
    /// Writes every second block of the chain.
    Share,
    /// Collects half of the chain: one more round after every two certified links.
    Collect,
    /// Opens, reads and walks fifty blocks of the chain, each a few links after it was certified.
    Read,
    /// Writes and certifies the chain at the same time as other sessions, and opens, reads and walks each block.
    Follow,
    /// Asks the session's rows of `BESIDE`: a walk in one thread, after a collection in another.
    Beside,
    /// Reads the first block before it is written. Then the session that waits for this read writes the block.
    Early,
    /// Writes and certifies the first block after another session read it and found none.
    Late,
}

/// How a task is done: in turns. Each turn waits until the crew has counted a number of steps (`Crew::steps`), and asks about one link.
pub(super) struct Plan {
    pub(super) asks: &'static [Ask],
    pub(super) turns: u16,
    /// The link of turn `t` is at place `first + t * stride` plus the session's id modulo `spread`.
    first: u16,
    stride: u16,
    spread: u16,
    /// Turn `t` waits for `lag + t * pace` steps.
    lag: u16,
    pace: u16,
    /// Blocks of rounds below this one may be collected or not yet written.
    floor: u64,
    /// Whether no other session writes the same blocks.
    alone: bool,
    /// Whether it reads a block that is not written yet, and others wait for that.
    pub(super) early: bool,
}

const WRITE: Plan = Plan {
    asks: &[Ask::Write, Ask::Certify],
    turns: 64,
    first: 0,
    stride: 1,
    spread: 1,
    lag: 0,
    pace: 0,
    floor: 0,
    alone: true,
    early: false,
};

const SHARE: Plan = Plan {
    asks: &[Ask::Write],
    turns: 100,
    stride: 2,
    spread: 2,
    ..WRITE
};

const COLLECT: Plan = Plan {
    asks: &[Ask::Collect],
    turns: COLLECTED,
    first: 1,
    lag: 2,
    pace: 2,
    ..WRITE
};

const READ: Plan = Plan {
    asks: &[Ask::Open, Ask::Read],
    turns: 50,
    spread: 14,
    lag: 14,
    pace: 1,
    floor: 32,
    ..WRITE
};

const FOLLOW: Plan = Plan {
    asks: &[Ask::Write, Ask::Certify, Ask::Open, Ask::Read],
    turns: 4,
    alone: false,
    ..WRITE
};

const EARLY: Plan = Plan {
    asks: &[Ask::Read],
    turns: 1,
    floor: 1,
    early: true,
    ..WRITE
};

const LATE: Plan = Plan {
    turns: 1,
    lag: 1,
    ..WRITE
};

impl Task {
    /// The plan of the task, or `None` if rows describe it.
    pub(super) fn plan(&self) -> Option<&'static Plan> {
        match self {
            Task::Write => Some(&WRITE),
            Task::Share => Some(&SHARE),
            Task::Collect => Some(&COLLECT),
            Task::Read => Some(&READ),
            Task::Follow => Some(&FOLLOW),
            Task::Early => Some(&EARLY),
            Task::Late => Some(&LATE),
            Task::Beside => None,
        }
    }
}

impl Plan {
    /// The place of the link of this turn, for the session with this id.
    pub(super) fn place(&self, turn: u16, id: u16) -> usize {
        let further = id.checked_rem(self.spread).unwrap_or(0);
        let place = turn.saturating_mul(self.stride).saturating_add(self.first);
        usize::from(place.saturating_add(further))
    }

    /// The number of steps that the turn waits for.
    pub(super) fn waits(&self, turn: u16) -> u32 {
        u32::from(turn.saturating_mul(self.pace).saturating_add(self.lag))
    }

    /// Whether the plan expects this reply for a block of this round.
    pub(super) fn accepts(&self, reply: &Reply, round: u64) -> bool {
        match reply {
            Reply::Write(WriteReply::Stored { vote }) => *vote,
            Reply::Certify(CertifyReply::Certified) => true,
            Reply::Write(WriteReply::Held) | Reply::Certify(CertifyReply::Already) => !self.alone,
            Reply::Collect(CollectReply::Raised { dropped }) => *dropped == 1,
            Reply::Ready | Reply::Read(Some(_)) => !self.early,
            Reply::Read(None) | Reply::Causal(CausalReply::Unknown) => round < self.floor,
            _ => false,
        }
    }
}
