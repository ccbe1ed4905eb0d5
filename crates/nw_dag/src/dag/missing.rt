//! Missing parents, of all blocks and of one.
ghost use Rattle.std.specs.Prelude.{IfOk};
ghost use Rattle.nw_model.specs.Missing.{AreFirstWanted, AreMissingOf};

use super::Dag;
use nw_digest::{Digest, NoMemory, Sequence};
use nw_model::Wanted;
use std::alloc::Global;

impl Dag {
    /// The first `most` wanted parents, or all if there are fewer, strictly ascending by round, author and digest. `NoMemory` if
    /// allocation fails.
    pub fn missing(&self, alloc: Global, most: u16) -> Result<Sequence<Wanted>, NoMemory>
        ensures { IfOk result (AreFirstWanted self.now.state most) }
    {
        Ok(Sequence::new(self.waits.missing.first_unmet(alloc, most)?))
    }

    /// The missing parents of the block that is held under the digest, strictly ascending by round, author and digest. `None` if no block
    /// is held. It looks up each missing parent of the block, and no other. `NoMemory` if allocation fails.
    pub fn missing_of(
        &self,
        alloc: Global,
        digest: &Digest,
    ) -> Result<Option<Sequence<Wanted>>, NoMemory>
        ensures { IfOk result (AreMissingOf self.now.state digest.now) }
    {
        if !self.held.holds(digest) {
            return Ok(None);
        }
        let missing = self.waits.missing.unmet_of(alloc, *digest)?;
        Ok(Some(Sequence::new(missing)))
    }
}
