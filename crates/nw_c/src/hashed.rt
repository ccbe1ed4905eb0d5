//! Blocks with their digests.
ghost use Rattle.std.specs.Prelude.{◌≡◌, IfOk};
ghost use Rattle.nw_codec.specs.Fits.{Fits};
ghost use Rattle.nw_model.specs.Checks.{digest_of};

use nw_codec::Block;
use nw_digest::{Digest, NoMemory, Shared};
use std::marker::Model;

/// A block that fits the format, and its digest, which was computed before. Contracts see the block.
#[derive(Drop)]
pub struct HashedBlock {
    digest: Digest,
    block: Shared<Block>,
}

impl Model for HashedBlock {
    ghost use Rattle.std.specs.Prelude.{◌≡◌};
    ghost use Rattle.nw_codec.specs.Fits.{Fits};
    ghost use Rattle.nw_codec.specs.declared.block.Block.{Block};
    ghost use Rattle.nw_model.specs.Checks.{digest_of};

    ghost Value = { Block };

    ghost view = { λ h. h.block };

    ghost invariant = { λ h. (h.digest ≡ digest_of h.block) × Fits h.block };
}

impl HashedBlock {
    /// The block with its digest.
    pub fn new(digest: Digest, block: Shared<Block>) -> HashedBlock
        requires digest { digest ≡ digest_of block }
        requires fits { Fits block }
        ensures { result ≡ block }
    {
        HashedBlock { digest, block }
    }

    /// A second owner of the block. `NoMemory` if the count of owners is at its limit.
    pub fn try_clone(&self) -> Result<HashedBlock, NoMemory>
        ensures { IfOk result (λ h. h ≡ self.now) }
    {
        Ok(HashedBlock {
            digest: self.digest,
            block: self.block.try_clone()?,
        })
    }

    /// The digest of the block.
    pub fn digest(&self) -> Digest
        ensures { result ≡ digest_of self.now }
    {
        self.digest
    }

    /// The block.
    pub fn block(&self) -> &Block
        ensures block { result.now ≡ self.now }
        ensures fits { Fits self.now }
    {
        self.block.get()
    }
}
