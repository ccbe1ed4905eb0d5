//! Faults of a play.
ghost use Rattle.std.specs.Prelude.{◌≡◌};

use nw_digest::NoMemory;
use nw_interpreter::LineFault;
use nw_store::SettleFault;
use std::alloc::{AllocError, AllocFailed};
use thiserror::Error;

/// Why a script was not played to its end. The answers printed before the fault remain.
#[derive(Clone, Copy, Debug, PartialEq, Eq, Error)]
pub enum PlayFault {
    /// The reader failed. Nothing was played.
    #[error("the script can't be read")]
    Read,
    /// The writer failed.
    #[error("the answers can't be written")]
    Write,
    /// The script has more than 1,048,576 bytes, or 1,048,577 reads did not reach its end. Nothing was played.
    #[error("the script is too long")]
    TooLong,
    /// The line of this number, counted from 1, is not a line of a script, or can't be played after the lines before it.
    #[error("line {line} bad")]
    BadLine { line: usize },
    /// An allocation failed.
    #[error("out of memory")]
    NoMemory,
    /// The sessions of a store do not settle. `session` is the least stray id (docs/MODEL.md). No script causes it.
    #[error("differs {session} 0")]
    Differs { session: u16 },
}

impl From<NoMemory> for PlayFault {
    fn from(_error: NoMemory) -> PlayFault {
        PlayFault::NoMemory
    }
}

impl<T: Drop> From<AllocFailed<T>> for PlayFault {
    fn from(_error: AllocFailed<T>) -> PlayFault {
        PlayFault::NoMemory
    }
}

impl From<AllocError> for PlayFault {
    ghost use Rattle.std.specs.Prelude.{◌≡◌};
    ghost use Rattle.nw_play.specs.declared.fault.PlayFault.TheVariants.{NoMemory};

    ghost from_gives = { λ _ fault. fault ≡ NoMemory };

    fn from(_error: AllocError) -> PlayFault {
        PlayFault::NoMemory
    }
}

impl PlayFault {
    /// The fault of a play, for the fault of the line with this number.
    pub(crate) fn at(line: usize, fault: LineFault) -> PlayFault {
        match fault {
            LineFault::Bad => PlayFault::BadLine { line },
            LineFault::NoMemory => PlayFault::NoMemory,
        }
    }

    /// The fault of a play, for a refused settlement at the `settle` line with this number. The player gives all sessions, so `Unfinished`
    /// never comes.
    pub(crate) fn unsettled(line: usize, fault: SettleFault) -> PlayFault {
        match fault {
            SettleFault::Unfinished { .. } => PlayFault::BadLine { line },
            SettleFault::Differs { session, .. } => PlayFault::Differs { session },
        }
    }
}
