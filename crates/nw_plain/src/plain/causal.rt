//! Causal reads of a store.
ghost use Rattle.std.specs.Prelude.{◌≢◌, ◌↔◌, IfOk, OnOk, IsTrue, All};
ghost use Rattle.std.specs.Result.{MatchResult};
ghost use Rattle.std.specs.FinMap as map;
ghost use Rattle.nw_model.specs.Paths.{IsComplete};
ghost use Rattle.nw_model.specs.View.{Shows, AreComplete, AddsIfComplete, HasParent};
ghost use Rattle.nw_model.specs.Step.{IsCausalReply};

use super::Plain;
use crate::view::View;
use crate::walks::walk;
use nw_codec::{Block, Ref};
use nw_digest::{Digest, NoMemory, Round, Sequence, Shared};
use nw_model::{CausalReply, Reply};
use std::collections::BTreeMap;

impl Plain {
    /// A view of the complete blocks if the digest is complete; otherwise the reason why there is none.
    fn freeze_for(&self, digest: Digest) -> Result<Result<View, CausalReply>, NoMemory>
        ensures { IfOk result (λ frozen. MatchResult frozen
            (λ view. IsComplete self.now.state digest × Shows view self.now.state)
            (λ refusal. IsCausalReply self.now.state digest (Reply.Causal refusal))) }
    {
        if self.block(&digest).is_none() {
            return Ok(Err(CausalReply::Unknown));
        }
        if self.certificate(&digest).is_none() {
            return Ok(Err(CausalReply::Uncertified));
        }
        let complete = self.complete_blocks()?;
        if !complete.contains_key(&digest) {
            return Ok(Err(CausalReply::Incomplete));
        }
        Ok(Ok(View::new(complete, self.floor)))
    }

    /// The complete blocks. It tests certified digests in the order of their rounds, so it tests a block's parents before the block.
    pub(super) fn complete_blocks(&self) -> Result<BTreeMap<Digest, Shared<Block>>, NoMemory>
        ensures { IfOk result
            (λ complete. AreComplete self.now.state (map.from_entries complete.entries)) }
    {
        let mut complete = BTreeMap::new(self.alloc);
        for (_slot, digest) in self.certified.iter() {
            self.add_if_complete(&mut complete, digest)?;
        }
        Ok(complete)
    }

    /// Adds the block held under the digest if it is not above the garbage round, or if its parents are among the complete blocks.
    fn add_if_complete(
        &self,
        complete: &mut BTreeMap<Digest, Shared<Block>>,
        digest: &Digest,
    ) -> Result<(), NoMemory>
        ensures { OnOk result (AddsIfComplete self.now.state (map.from_entries complete.old.entries)
            (map.from_entries complete.new.entries) digest.now) }
    {
        if let Some(block) = self.blocks.get(digest) {
            let held = block.get();
            if held.round <= self.floor || has_parents(complete, held) {
                complete.insert(*digest, block.try_clone()?)?;
            }
        }
        Ok(())
    }

    /// The reply that a causal read would get now: the list, or the reason why there is none.
    pub(super) fn causal_reply(&self, digest: Digest) -> Result<Reply, NoMemory>
        ensures reply { IfOk result (IsCausalReply self.now.state digest) }
        ensures listed { IfOk result (λ reply. reply ≢ Reply.Ready) }
    {
        match self.freeze_for(digest)? {
            Err(refusal) => Ok(Reply::Causal(refusal)),
            Ok(view) => {
                let blocks = walk(self.alloc, &view, digest)?;
                Ok(Reply::List(Sequence::new(blocks)))
            }
        }
    }
}

/// Whether each parent of the block is among these blocks, with the named author and the preceding round.
fn has_parents(blocks: &BTreeMap<Digest, Shared<Block>>, block: &Block) -> bool
    ensures { IsTrue result
        ↔ All (HasParent (map.from_entries blocks.now.entries) block.now.round) block.now.parents }
{
    block
        .parents
        .as_slice()
        .iter()
        .all(|reference| has_parent(blocks, block.round, reference))
}

/// Whether the parent that a block of this round names is among these blocks, with the named author and the preceding round.
fn has_parent(blocks: &BTreeMap<Digest, Shared<Block>>, round: Round, reference: &Ref) -> bool
    ensures { IsTrue result ↔ HasParent (map.from_entries blocks.now.entries) round reference.now }
{
    match blocks.get(&reference.digest) {
        None => false,
        Some(parent) => {
            let parent = parent.get();
            parent.author == reference.author && parent.round.get() + 1 == round.get()
        }
    }
}
