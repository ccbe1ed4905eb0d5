//! Why checks of many messages fail.
use nw_digest::NoMemory;
use std::alloc::AllocFailed;
use thiserror::Error;

/// A gate did not let a thread pass a point.
#[derive(Clone, Copy, Debug, PartialEq, Eq, Error)]
#[error("a gate did not let a thread pass")]
pub struct GateShut;

/// Why `check_all` fails: the first of these faults that applies.
#[derive(Clone, Copy, Debug, PartialEq, Eq, Error)]
pub enum IntakeFault {
    /// The number of workers is not between 1 and 16.
    #[error("the number of workers is not from 1 to 16")]
    BadWorkers,
    /// An allocation failed.
    #[error("out of memory")]
    NoMemory,
    /// A thread could not be started, for example because memory ran out.
    #[error("a thread could not be started")]
    Spawn,
    /// The gate did not let a check start.
    #[error("a gate did not let a thread pass")]
    GateShut,
}

impl From<NoMemory> for IntakeFault {
    ghost use Rattle.std.specs.Prelude.{◌≡◌};
    ghost use Rattle.nw_intake.specs.declared.fault.IntakeFault.TheVariants as fault;

    ghost from_gives = { λ _ e. e ≡ fault.NoMemory };

    fn from(_error: NoMemory) -> IntakeFault {
        IntakeFault::NoMemory
    }
}

impl<T: Drop> From<AllocFailed<T>> for IntakeFault {
    ghost use Rattle.std.specs.Prelude.{◌≡◌};
    ghost use Rattle.nw_intake.specs.declared.fault.IntakeFault.TheVariants as fault;

    ghost from_gives = { λ _ e. e ≡ fault.NoMemory };

    fn from(_error: AllocFailed<T>) -> IntakeFault {
        IntakeFault::NoMemory
    }
}

/// Why a worker stopped.
#[derive(Clone, Copy, Debug, PartialEq, Eq)]
pub(crate) enum ShareFault {
    /// An allocation failed.
    NoMemory,
    /// The gate did not let a check start.
    GateShut,
}

impl From<NoMemory> for ShareFault {
    ghost use Rattle.std.specs.Prelude.{◌≡◌};
    ghost use Rattle.nw_intake.specs.declared.fault.ShareFault.TheVariants as fault;

    ghost from_gives = { λ _ e. e ≡ fault.NoMemory };

    fn from(_error: NoMemory) -> ShareFault {
        ShareFault::NoMemory
    }
}

impl<T: Drop> From<AllocFailed<T>> for ShareFault {
    ghost use Rattle.std.specs.Prelude.{◌≡◌};
    ghost use Rattle.nw_intake.specs.declared.fault.ShareFault.TheVariants as fault;

    ghost from_gives = { λ _ e. e ≡ fault.NoMemory };

    fn from(_error: AllocFailed<T>) -> ShareFault {
        ShareFault::NoMemory
    }
}

impl From<GateShut> for ShareFault {
    ghost use Rattle.std.specs.Prelude.{◌≡◌};
    ghost use Rattle.nw_intake.specs.declared.fault.ShareFault.TheVariants as fault;

    ghost from_gives = { λ _ e. e ≡ fault.GateShut };

    fn from(_error: GateShut) -> ShareFault {
        ShareFault::GateShut
    }
}
