//! A value with several owners.
ghost use Rattle.std.specs.Prelude.{◌≡◌, IfOk};

use crate::{InRound, NoMemory, Round};
use std::alloc::{AllocError, Global};
use std::marker::Model;
use std::sync::Arc;

/// One owner of a shared value, which never changes. Contracts see the value.
#[derive(Debug, Drop)]
pub struct Shared<T: Drop> {
    owner: Arc<T>,
}

impl<T: Drop> Model for Shared<T> {
    ghost Value = { T };

    ghost view = { λ s. s.owner.value };
}

impl<T: Drop> Shared<T> {
    /// The first owner of the value. `NoMemory` if allocation fails. Then the value is dropped.
    pub fn new(alloc: Global, value: T) -> Result<Shared<T>, NoMemory>
        ensures { IfOk result (λ s. s ≡ value) }
    {
        Ok(Shared {
            owner: Arc::new(alloc, value)?,
        })
    }

    /// The shared value.
    pub fn get(&self) -> &T
        ensures { result.now ≡ self.now }
    {
        &self.owner
    }

    /// One more owner of the same value. Allocates nothing. `NoMemory` if the number of owners is at its limit.
    pub fn try_clone(&self) -> Result<Shared<T>, NoMemory>
        ensures { IfOk result (λ s. s ≡ self.now) }
    {
        Ok(Shared {
            owner: Arc::try_clone(&self.owner)?,
        })
    }
}

impl<T: Drop> Clone for Shared<T> {
    ghost is_clone = { λ s t. s ≡ t };

    fn clone(&self) -> Result<Shared<T>, AllocError> {
        Ok(Shared {
            owner: Arc::try_clone(&self.owner)?,
        })
    }
}

impl<T: PartialEq + Drop> PartialEq for Shared<T> {
    ghost eq = { T.eq };

    ghost laws = { T.laws };

    fn eq(&self, other: &Shared<T>) -> bool {
        self.get() == other.get()
    }
}

impl<T: Eq + Drop> Eq for Shared<T> {
    ghost laws = { T.Eq.laws };
}

impl<T: InRound + Drop> InRound for Shared<T> {
    ghost round_of = { T.round_of };

    fn round(&self) -> Round {
        self.get().round()
    }
}
