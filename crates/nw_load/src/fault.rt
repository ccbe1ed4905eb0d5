//! Faults of a load and of its threads.
use nw_digest::NoMemory;
use nw_intake::GateShut;
use nw_interpreter::LineFault;
use std::alloc::{AllocError, AllocFailed};
use thiserror::Error;

/// Why a load has no report. The first two are tested before anything is allocated. If several of the others happened, the load
/// returns the first in this order.
#[derive(Clone, Copy, Debug, PartialEq, Eq, Error)]
pub enum LoadFault {
    /// The number of nodes is not 1, 4, 7, 10, 13 or 16.
    #[error("nodes")]
    BadNodes,
    /// The number of rounds is not 1 to 32.
    #[error("rounds")]
    BadRounds,
    /// An allocation failed.
    #[error("memory")]
    NoMemory,
    /// A thread was not started.
    #[error("spawn")]
    Spawn,
    /// The gate did not let a write or a walk start.
    #[error("gate")]
    GateShut,
    /// The node's own block of the round was not complete when the node opened its causal read.
    #[error("causal")]
    Causal { node: u32, round: u32 },
    /// The sessions of the node's store do not settle, or the store refused a call for a reason other than memory.
    #[error("unsettled")]
    Unsettled { node: u32 },
}

/// Why a thread ended early, in the order of `LoadFault`.
#[derive(Clone, Copy, PartialEq, Eq, PartialOrd, Ord)]
pub(crate) enum Stop {
    NoMemory,
    Spawn,
    GateShut,
    Causal { node: u32, round: u32 },
    Unsettled { node: u32 },
    /// Another thread ended early, so the channel that this one waits on is closed. Also used for errors that no load can cause.
    CutOff,
}

impl From<NoMemory> for Stop {
    fn from(_error: NoMemory) -> Stop {
        Stop::NoMemory
    }
}

impl From<AllocError> for Stop {
    ghost use Rattle.std.specs.Prelude.{◌≡◌};
    ghost use Rattle.nw_load.specs.declared.fault.Stop.TheVariants.{NoMemory};

    ghost from_gives = { λ _ stop. stop ≡ NoMemory };

    fn from(_error: AllocError) -> Stop {
        Stop::NoMemory
    }
}

impl<T: Drop> From<AllocFailed<T>> for Stop {
    fn from(_error: AllocFailed<T>) -> Stop {
        Stop::NoMemory
    }
}

impl From<GateShut> for Stop {
    fn from(_error: GateShut) -> Stop {
        Stop::GateShut
    }
}

// The nodes of a load always form a committee.
impl From<LineFault> for Stop {
    fn from(fault: LineFault) -> Stop {
        match fault {
            LineFault::NoMemory => Stop::NoMemory,
            LineFault::Bad => Stop::CutOff,
        }
    }
}
