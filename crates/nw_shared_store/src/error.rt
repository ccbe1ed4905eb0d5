//! Why a shared store refuses a call.
use nw_book::NoStep;
use nw_digest::NoMemory;
use std::alloc::AllocError;
use thiserror::Error;

/// Why a call of a shared store is refused. A refusal changes nothing in the store.
#[derive(Clone, Copy, Debug, PartialEq, Eq, Error)]
pub enum Refusal {
    /// Another thread has the lock. Try again.
    #[error("the store is busy")]
    Busy,
    /// The run of the session has ended. Renew the session.
    #[error("the run has ended")]
    Ended,
    /// The store has made as many sessions as its limit allows.
    #[error("too many sessions")]
    TooMany,
    /// The call takes no step. It is never out of turn.
    #[error("{0}")]
    NoStep(NoStep),
}

impl From<NoMemory> for Refusal {
    ghost use Rattle.std.specs.Prelude.{◌≡◌};
    ghost use Rattle.nw_book.specs.declared.error.NoStep.TheVariants as causes;
    ghost use Rattle.nw_shared_store.specs.declared.error.Refusal.TheVariants as refusals;

    ghost from_gives = { λ _ e. e ≡ refusals.NoStep causes.NoMemory };

    fn from(_error: NoMemory) -> Refusal {
        Refusal::NoStep(NoStep::NoMemory)
    }
}

impl From<AllocError> for Refusal {
    ghost use Rattle.std.specs.Prelude.{◌≡◌};
    ghost use Rattle.nw_book.specs.declared.error.NoStep.TheVariants as causes;
    ghost use Rattle.nw_shared_store.specs.declared.error.Refusal.TheVariants as refusals;

    ghost from_gives = { λ _ e. e ≡ refusals.NoStep causes.NoMemory };

    fn from(_error: AllocError) -> Refusal {
        Refusal::NoStep(NoStep::NoMemory)
    }
}
