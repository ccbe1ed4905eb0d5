//! Faults of lines.

use nw_codec::EncodeError;
use nw_committee::CommitteeFault;
use nw_digest::NoMemory;
use std::alloc::{AllocError, AllocFailed};

/// Why a line could not be played.
#[derive(Clone, Copy, Debug, PartialEq, Eq)]
pub enum LineFault {
    /// It is not a line of a script, or can't be played at its place.
    Bad,
    /// An allocation failed.
    NoMemory,
}

impl From<AllocError> for LineFault {
    fn from(_error: AllocError) -> LineFault {
        LineFault::NoMemory
    }
}

impl<T: Drop> From<AllocFailed<T>> for LineFault {
    fn from(_error: AllocFailed<T>) -> LineFault {
        LineFault::NoMemory
    }
}

impl From<NoMemory> for LineFault {
    fn from(_error: NoMemory) -> LineFault {
        LineFault::NoMemory
    }
}

impl From<EncodeError> for LineFault {
    fn from(error: EncodeError) -> LineFault {
        match error {
            EncodeError::OverLimit => LineFault::Bad,
            EncodeError::NoMemory => LineFault::NoMemory,
        }
    }
}

impl From<CommitteeFault> for LineFault {
    fn from(fault: CommitteeFault) -> LineFault {
        match fault {
            CommitteeFault::NoMemory => LineFault::NoMemory,
            CommitteeFault::BadSize | CommitteeFault::RepeatedKey | CommitteeFault::BadWeight => {
                LineFault::Bad
            }
        }
    }
}
