//! The out-of-memory error.
use std::alloc::{AllocError, AllocFailed};
use thiserror::Error;

/// Out of memory: a collection could not grow, or a shared value could not be made or could not get one more owner.
#[derive(Clone, Copy, Debug, PartialEq, Eq, Error)]
#[error("out of memory")]
pub struct NoMemory;

impl From<AllocError> for NoMemory {
    fn from(_error: AllocError) -> NoMemory {
        NoMemory
    }
}

impl<T: Drop> From<AllocFailed<T>> for NoMemory {
    fn from(_error: AllocFailed<T>) -> NoMemory {
        NoMemory
    }
}
