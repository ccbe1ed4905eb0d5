//! Errors of the constructors of committees.
use std::alloc::AllocError;
use thiserror::Error;

/// Why a constructor made no committee. If several errors apply, the constructor returns the one that its documentation lists first.
#[derive(Clone, Copy, Debug, PartialEq, Eq, Error)]
pub enum CommitteeFault {
    /// The constructor does not accept this number of members.
    #[error("no committee has this number of members")]
    BadSize,
    /// Two members have the same key.
    #[error("two members have the same key")]
    RepeatedKey,
    /// An allocation failed.
    #[error("out of memory")]
    NoMemory,
    /// A weight is not from 1 to 1,000,000.
    #[error("a weight is not from 1 to 1,000,000")]
    BadWeight,
}

impl From<AllocError> for CommitteeFault {
    ghost use Rattle.std.specs.Prelude.{◌≡◌};
    ghost use Rattle.nw_committee.specs.declared.error.CommitteeFault.TheVariants.{NoMemory};

    ghost from_gives = { λ _ e. e ≡ NoMemory };

    fn from(_error: AllocError) -> CommitteeFault {
        CommitteeFault::NoMemory
    }
}
