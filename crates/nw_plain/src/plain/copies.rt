//! Stores that start from a base.
ghost use Rattle.std.specs.Prelude.{◌≡◌, IfOk};

use super::Plain;
use crate::Base;
use nw_digest::NoMemory;
use std::alloc::Global;

impl Plain {
    /// A store with the base's state and bounds. It copies the base's maps, and shares the blocks and certificates.
    ///
    /// `NoMemory` if allocation fails. The base never changes.
    pub fn over(alloc: Global, base: &Base) -> Result<Plain, NoMemory>
        ensures { IfOk result (λ plain. plain ≡ base.now) }
    {
        base.plain().copy(alloc)
    }

    /// A store with the same state and bounds.
    fn copy(&self, alloc: Global) -> Result<Plain, NoMemory>
        ensures { IfOk result (λ copy. copy ≡ self.now) }
    {
        Ok(Plain {
            blocks: self.blocks.clone()?,
            certificates: self.certificates.clone()?,
            firsts: self.firsts.clone()?,
            certified: self.certified.clone()?,
            floor: self.floor,
            limit: self.limit,
            window: self.window,
            alloc,
        })
    }
}
