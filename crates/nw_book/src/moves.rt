//! Moves, their answers, and the results of runs.
use crate::{Command, Done, NoStep};
use nw_codec::Block;
use nw_digest::{Digest, NoMemory, Sequence, Shared};
use nw_sig::Scheme;
use std::alloc::AllocError;

/// One move of a run. Each call and each causal read is its session's next call.
#[derive(Drop)]
pub enum Move<'a, S: Scheme> {
    /// The session makes a call that is not a causal read.
    Call {
        /// The session's number.
        session: u16,
        /// The command to make.
        command: Command<'a, S>,
    },
    /// The session opens a causal read of the digest.
    Open {
        /// The session's number.
        session: u16,
        /// The digest to read.
        digest: Digest,
    },
    /// A ticket of this run is walked.
    Walk {
        /// The number of the ticket, counted from 0 in the order in which this run got its tickets.
        ticket: u32,
    },
}

/// The answer to a move.
#[derive(Drop)]
pub enum Answer<S: Scheme> {
    /// The answer to a call, or to a causal read that gets no ticket.
    Done(Done<S>),
    /// The answer to a causal read that gets a ticket. The run has one more ticket.
    Opened,
    /// The answer to a walk: the list that the ticket gives.
    Walked(Sequence<Shared<Block>>),
}

/// Why a move is refused.
#[derive(Clone, Copy, Debug, PartialEq, Eq)]
pub enum Cause {
    /// The call or causal read takes no step, for this reason.
    NoStep(NoStep),
    /// The run has no such ticket.
    NoTicket,
    /// An allocation failed in a walk.
    NoMemory,
}

impl From<NoStep> for Cause {
    ghost use Rattle.std.specs.Prelude.{◌≡◌};
    ghost use Rattle.nw_book.specs.declared.moves.Cause.TheVariants as causes;

    ghost from_gives = { λ why e. e ≡ causes.NoStep why };

    fn from(why: NoStep) -> Cause {
        Cause::NoStep(why)
    }
}

impl From<NoMemory> for Cause {
    ghost use Rattle.std.specs.Prelude.{◌≡◌};
    ghost use Rattle.nw_book.specs.declared.moves.Cause.TheVariants as causes;

    ghost from_gives = { λ _ e. e ≡ causes.NoMemory };

    fn from(_error: NoMemory) -> Cause {
        Cause::NoMemory
    }
}

impl From<AllocError> for Cause {
    ghost use Rattle.std.specs.Prelude.{◌≡◌};
    ghost use Rattle.nw_book.specs.declared.moves.Cause.TheVariants as causes;

    ghost from_gives = { λ _ e. e ≡ causes.NoMemory };

    fn from(_error: AllocError) -> Cause {
        Cause::NoMemory
    }
}

/// Where and why a run stopped.
#[derive(Clone, Copy, Debug, PartialEq, Eq)]
pub struct Stop {
    /// The index of the refused move, counted from 0. It is also the number of answers.
    pub at: usize,
    /// Why the move was refused.
    pub cause: Cause,
}

/// The result of a run.
#[derive(Drop)]
pub struct Run<S: Scheme> {
    /// The answers to the moves that were made, in order.
    pub answers: Sequence<Answer<S>>,
    /// The first refused move, or `None` if all moves were made.
    pub stop: Option<Stop>,
}
