//! The names of blocks.
ghost use Rattle.std.specs.Prelude.{◌≡◌};
ghost use Rattle.nw_codec.specs.Fits.{Fits};
ghost use Rattle.nw_model.specs.Checks.{digest_of};

use crate::fault::LineFault;
use nw_codec::{Block, Ref, block_digest};
use nw_digest::{Digest, Sequence};
use nw_script::Name;
use nw_trie::DigestMap;
use std::alloc::Global;
use std::collections::HashMap;
use std::marker::Model;

/// A block that fits (docs/FORMATS.md), and its digest. Contracts see the block.
#[derive(Drop)]
pub struct NamedBlock {
    block: Block,
    digest: Digest,
}

impl Model for NamedBlock {
    ghost use Rattle.nw_codec.specs.declared.block.Block.{Block};
    ghost use Rattle.std.specs.Prelude.{◌≡◌};
    ghost use Rattle.nw_codec.specs.Fits.{Fits};
    ghost use Rattle.nw_model.specs.Checks.{digest_of};

    ghost Value = { Block };

    ghost view = { λ named. named.block };

    ghost invariant = { λ named. Fits named.block × (named.digest ≡ digest_of named.block) };
}

impl NamedBlock {
    /// The block.
    pub fn block(&self) -> &Block
        ensures block { result.now ≡ self.now }
        ensures fits { Fits result.now }
    {
        &self.block
    }

    /// The digest of the block.
    pub fn digest(&self) -> Digest
        ensures { result ≡ digest_of self.now }
    {
        self.digest
    }
}

/// The named blocks of a script, and the first name of each digest.
#[derive(Drop)]
pub struct Names<'a> {
    blocks: HashMap<&'a str, NamedBlock>,
    first_names: DigestMap<Name<'a>, Global>,
}

impl<'a> Names<'a> {
    /// No names. It allocates nothing.
    pub fn new(alloc: Global) -> Names<'a> {
        Names {
            blocks: HashMap::new(alloc),
            first_names: DigestMap::new_in(alloc),
        }
    }

    /// Whether the name is bound.
    pub fn has(&self, name: Name<'a>) -> bool {
        self.blocks.contains_key(name.as_str())
    }

    /// The block of the name. `Bad` if the name is not bound.
    pub fn named_block(&self, name: Name<'a>) -> Result<&NamedBlock, LineFault> {
        self.blocks.get(name.as_str()).ok_or(LineFault::Bad)
    }

    /// References to the named blocks. `Bad` if a name is not bound, and `NoMemory` if an allocation fails.
    pub fn references(
        &self,
        alloc: Global,
        names: &[Name<'a>],
    ) -> Result<Sequence<Ref>, LineFault> {
        let mut references = Vec::with_capacity(alloc, names.len())?;
        for name in names {
            let parent = self.named_block(*name)?;
            references.push(Ref {
                author: parent.block.author,
                digest: parent.digest,
            })?;
        }
        Ok(Sequence::new(references))
    }

    /// Binds the name, which must not be bound, to the block, which must fit. `NoMemory` if an allocation fails.
    pub fn bind(&mut self, name: Name<'a>, block: Block) -> Result<(), LineFault>
        requires { Fits block }
    {
        let digest = block_digest(&block);
        if self.first_names.get(&digest).is_none() {
            self.first_names.put(digest, name)?;
        }
        drop(
            self.blocks
                .insert(name.as_str(), NamedBlock { block, digest })?,
        );
        Ok(())
    }

    /// The first name of a block with this digest. Each digest in a reply has one, since a script hands in named blocks only.
    /// `Bad` if there is none.
    pub fn first_name(&self, digest: &Digest) -> Result<Name<'a>, LineFault> {
        self.first_names.get(digest).copied().ok_or(LineFault::Bad)
    }
}
