//! Causal reads of the tables.
ghost use Rattle.std.specs.Prelude.{◌≡◌, IfOk};
ghost use Rattle.std.specs.Option.{MatchOption};
ghost use Rattle.std.specs.Result.{MatchResult};
ghost use Rattle.nw_model.specs.Paths.{IsComplete};
ghost use Rattle.nw_model.specs.Sound.{IsSound};
ghost use Rattle.nw_model.specs.Step.{IsCausalReply, HasNoList};
ghost use Rattle.nw_model.specs.View.{Shows};

use super::Dag;
use crate::completions::lacks_nothing;
use crate::frozen::{as_one, freeze};
use nw_digest::{Digest, NoMemory};
use nw_generation::View;
use nw_model::{CausalReply, Reply};
use std::alloc::Global;

impl Dag {
    /// If the digest is complete, freezes the blocks that became complete since the last freeze, and returns a view of all
    /// complete blocks. Later views share the frozen blocks. If the digest is not complete, returns the reason.
    ///
    /// `NoMemory` if allocation fails. The state never changes.
    pub fn freeze_for(
        &mut self,
        alloc: Global,
        digest: Digest,
    ) -> Result<Result<View, CausalReply>, NoMemory>
        ensures answer { IfOk result (λ answer. MatchResult answer
            (λ view. IsComplete self.old.state digest × Shows view.frozen self.old.state)
            (λ refusal. IsCausalReply self.old.state digest (Reply.Causal refusal))) }
        ensures sound { IsSound self.old.state }
        ensures same { self.new ≡ self.old }
    {
        if let Some(refusal) = self.refusal(&digest) {
            return Ok(Err(refusal));
        }
        freeze(&mut self.generations, alloc, &self.held, &mut self.waits)?;
        Ok(Ok(self.generations.view(alloc, self.held.floor())?))
    }

    /// Freezes all complete blocks again, as one generation without collected blocks. Earlier views keep their generations.
    ///
    /// `NoMemory` if allocation fails. The state never changes.
    pub fn compact(&mut self, alloc: Global) -> Result<(), NoMemory>
        ensures { self.new ≡ self.old }
    {
        freeze(&mut self.generations, alloc, &self.held, &mut self.waits)?;
        self.generations = as_one(&self.generations, alloc, self.held.floor())?;
        Ok(())
    }

    /// Why a causal read of the digest would get no list, or `None` if the digest is complete.
    fn refusal(&self, digest: &Digest) -> Option<CausalReply>
        ensures why { MatchOption result (IsComplete self.now.state digest.now)
            (λ refusal. IsCausalReply self.now.state digest.now (Reply.Causal refusal)) }
        ensures sound { IsSound self.now.state }
    {
        if self.held.block(digest).is_none() {
            return Some(CausalReply::Unknown);
        }
        if self.held.certificate(digest).is_none() {
            return Some(CausalReply::Uncertified);
        }
        if !lacks_nothing(&self.waits.missing, *digest) {
            return Some(CausalReply::Incomplete);
        }
        None
    }

    /// The reply that a causal read would get now, with `Ready` in place of a list.
    pub(super) fn causal_reply(&self, digest: &Digest) -> Reply
        ensures reply { IsCausalReply self.now.state digest.now result }
        ensures short { HasNoList result }
    {
        match self.refusal(digest) {
            Some(refusal) => Reply::Causal(refusal),
            None => Reply::Ready,
        }
    }
}
