//! Gathers the votes for a block under a prepared committee.
ghost use Rattle.std.specs.Prelude.{◌≡◌, ◌↔◌, [], IfOk, IfErr, OnOk, OnErr, IsErrOf};
ghost use Rattle.nw_codec.specs.Fits.{signers};
ghost use Rattle.nw_committee.specs.Committee.{ReachesQuorum};
ghost use Rattle.nw_model.specs.Checks.{IsMember};
ghost use Rattle.nw_check.specs.Gathering.{CanCount, CountsVote, IsCount, IsGatherFault, certificate_of};
ghost use Rattle.nw_ed25519.specs.Accepts.{accepts};

use crate::PreparedCommittee;
use nw_check::{CheckedCert, Counted, FinishFault, Gather, GatherFault, StartFault};
use nw_codec::Vote;
use nw_digest::{Digest, Round, Shared};
use nw_ed25519::Ed25519;
use std::alloc::Global;
use std::marker::Model;

/// A `Gather` of `nw_check` whose votes a prepared committee verifies. Contracts see what they see of a `Gather`.
#[derive(Drop)]
pub struct PreparedGather {
    gather: Gather<Ed25519>,
    committee: Shared<PreparedCommittee>,
}

impl Model for PreparedGather {
    ghost use Rattle.std.specs.Prelude.{◌≡◌};
    ghost use Rattle.nw_check.specs.Gathering.{Gathering};

    ghost Value = { Gathering };

    ghost view = { λ g. g.gather };

    ghost invariant = { λ g. g.committee ≡ g.gather.committee };
}

impl PreparedGather {
    /// A gatherer without votes, for the block with this digest, round and author.
    ///
    /// `Author`: the author is not a member. `NoMemory`: the author is a member, but an allocation failed.
    pub fn new(
        alloc: Global,
        committee: &Shared<PreparedCommittee>,
        digest: Digest,
        round: Round,
        author: u16,
    ) -> Result<PreparedGather, StartFault>
        ensures empty { IfOk result (λ g. g ≡ record {
          digest = digest;
          round = round;
          author = author;
          committee = committee.now;
          seals = [];
        }) }
        ensures author { IsErrOf result StartFault.Author ↔ (IsMember committee.now author → ⊥) }
        ensures no_memory { IsErrOf result StartFault.NoMemory → IsMember committee.now author }
    {
        let members = committee.get().committee();
        let gather = Gather::new(alloc, members, digest, round, author)?;
        Ok(PreparedGather {
            gather,
            committee: committee.try_clone()?,
        })
    }

    /// Does what `Gather::add` does.
    pub fn add(&mut self, vote: &Vote) -> Result<Counted, GatherFault>
        ensures counted { OnOk result (CountsVote self.old vote.now self.new) }
        ensures quorum { IfOk result (IsCount self.new) }
        ensures may_count { OnOk result (CanCount accepts self.old vote.now) }
        ensures fault { IfErr result (IsGatherFault accepts self.old vote.now) }
        ensures unchanged { OnErr result (self.new ≡ self.old) }
    {
        self.gather.add_by(self.committee.get(), vote)
    }

    /// Does what `Gather::finish` does.
    pub fn finish(&self, alloc: Global) -> Result<CheckedCert<Ed25519>, FinishFault>
        ensures certificate { IfOk result (λ checked. checked
            ≡ record { certificate = certificate_of self.now; committee = self.now.committee }) }
        ensures quorum { OnOk result (ReachesQuorum self.now.committee (signers self.now.seals)) }
        ensures few_votes { IsErrOf result FinishFault.FewVotes
            ↔ (ReachesQuorum self.now.committee (signers self.now.seals) → ⊥) }
        ensures no_memory { IsErrOf result FinishFault.NoMemory
            → ReachesQuorum self.now.committee (signers self.now.seals) }
    {
        self.gather.finish(alloc)
    }
}
