//! Errors of encoding.
ghost use Rattle.std.specs.Prelude.{◌≡◌};

use nw_digest::NoMemory;
use std::alloc::{AllocError, AllocFailed};
use thiserror::Error;

/// Why a value was not encoded, or a transaction not added.
#[derive(Clone, Copy, Debug, PartialEq, Eq, Error)]
pub enum EncodeError {
    /// The value exceeds a limit of the format, or its parents or signers are out of order.
    #[error("over a limit or out of order")]
    OverLimit,
    /// An allocation failed.
    #[error("out of memory")]
    NoMemory,
}

impl From<AllocError> for EncodeError {
    ghost use Rattle.std.specs.Prelude.{◌≡◌};
    ghost use Rattle.nw_codec.specs.declared.error.EncodeError.TheVariants.{NoMemory};

    ghost from_gives = { λ _ e. e ≡ NoMemory };

    fn from(_error: AllocError) -> EncodeError {
        EncodeError::NoMemory
    }
}

impl<T: Drop> From<AllocFailed<T>> for EncodeError {
    ghost use Rattle.std.specs.Prelude.{◌≡◌};
    ghost use Rattle.nw_codec.specs.declared.error.EncodeError.TheVariants.{NoMemory};

    ghost from_gives = { λ _ e. e ≡ NoMemory };

    fn from(_error: AllocFailed<T>) -> EncodeError {
        EncodeError::NoMemory
    }
}

impl From<NoMemory> for EncodeError {
    ghost use Rattle.std.specs.Prelude.{◌≡◌};
    ghost use Rattle.nw_codec.specs.declared.error.EncodeError.TheVariants.{NoMemory};

    ghost from_gives = { λ _ e. e ≡ NoMemory };

    fn from(_error: NoMemory) -> EncodeError {
        EncodeError::NoMemory
    }
}
