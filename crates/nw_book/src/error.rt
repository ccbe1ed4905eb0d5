//! Errors of books.
use nw_digest::NoMemory;
use std::alloc::AllocError;
use thiserror::Error;

/// Why a book cannot be made.
#[derive(Clone, Copy, Debug, PartialEq, Eq, Error)]
pub enum BookError {
    /// A limit is outside its range.
    #[error("a limit is out of range")]
    BadLimits,
    /// An allocation failed.
    #[error("out of memory")]
    NoMemory,
}

impl From<NoMemory> for BookError {
    ghost use Rattle.std.specs.Prelude.{◌≡◌};
    ghost use Rattle.nw_book.specs.declared.error.BookError.TheVariants.{NoMemory};

    ghost from_gives = { λ _ e. e ≡ NoMemory };

    fn from(_error: nw_digest::NoMemory) -> BookError {
        BookError::NoMemory
    }
}

impl From<AllocError> for BookError {
    ghost use Rattle.std.specs.Prelude.{◌≡◌};
    ghost use Rattle.nw_book.specs.declared.error.BookError.TheVariants.{NoMemory};

    ghost from_gives = { λ _ e. e ≡ NoMemory };

    fn from(_error: AllocError) -> BookError {
        BookError::NoMemory
    }
}

/// Why a call takes no step. The variants are tested in order. An error changes nothing.
#[derive(Clone, Copy, Debug, PartialEq, Eq, Error)]
pub enum NoStep {
    /// The session is not below the limit of sessions, or the number is not that of its next call.
    #[error("out of turn")]
    OutOfTurn,
    /// The block or certificate was checked under another committee than the book's.
    #[error("checked under another committee")]
    OtherCommittee,
    /// The history has reached its limit of events.
    #[error("the history is full")]
    HistoryFull,
    /// An allocation failed.
    #[error("out of memory")]
    NoMemory,
}

impl From<NoMemory> for NoStep {
    ghost use Rattle.std.specs.Prelude.{◌≡◌};
    ghost use Rattle.nw_book.specs.declared.error.NoStep.TheVariants as refusal;

    ghost from_gives = { λ _ e. e ≡ refusal.NoMemory };

    fn from(_error: NoMemory) -> NoStep {
        NoStep::NoMemory
    }
}

impl From<AllocError> for NoStep {
    ghost use Rattle.std.specs.Prelude.{◌≡◌};
    ghost use Rattle.nw_book.specs.declared.error.NoStep.TheVariants as refusal;

    ghost from_gives = { λ _ e. e ≡ refusal.NoMemory };

    fn from(_error: AllocError) -> NoStep {
        NoStep::NoMemory
    }
}
