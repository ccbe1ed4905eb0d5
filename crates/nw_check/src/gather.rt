//! Gathers the votes for a block into a certificate.
ghost use Rattle.std.specs.Prelude.{◌≡◌, ◌↔◌, ◌≤◌, []};
ghost use Rattle.std.specs.Prelude.{vec_len, insert, Contains, MatchOption, IsTrue, IfOk, IfErr};
ghost use Rattle.std.specs.Prelude.{OnOk, OnErr, IsErrOf};
ghost use Rattle.std.specs.List.Sorted.{IsStrictlyIncreasing};
ghost use Rattle.nw_codec.specs.Fits.{signers};
ghost use Rattle.nw_committee.specs.Committee.{ReachesQuorum};
ghost use Rattle.nw_model.specs.Checks.{IsMember};
ghost use Rattle.nw_check.specs.Gathering.{IsGathering, CanCount, IsGatherFault, IsVoteForBlock, IsPlace};
ghost use Rattle.nw_check.specs.Gathering.{CountsVote, IsCount, certificate_of};

use crate::members::is_member;
use crate::{CheckedCert, Counted, FinishFault, GatherFault, StartFault, Verifier};
use nw_codec::{Certificate, Seal, Vote};
use nw_committee::Committee;
use nw_digest::{Digest, NoMemory, Round, Sequence, Shared};
use nw_sig::{Scheme, text_of_vote};
use std::alloc::Global;
use std::marker::{Model, PhantomData};

/// A gatherer: it counts the votes for one block, and makes a certificate of them. Contracts see the block's digest, round and author,
/// the committee, and the seals of the counted votes, ascending by signer.
#[derive(Drop)]
pub struct Gather<S: Scheme> {
    digest: Digest,
    round: Round,
    author: u16,
    committee: Shared<Committee>,
    seals: Vec<Seal>,
    scheme: PhantomData<S>,
}

impl<S: Scheme> Model for Gather<S> {
    ghost use Rattle.nw_check.specs.Gathering.{Gathering, IsGathering};

    ghost Value = { Gathering };

    ghost view = { λ g. record {
      digest = g.digest;
      round = g.round;
      author = g.author;
      committee = g.committee;
      seals = g.seals.items;
    } };

    ghost invariant = { λ g. IsGathering S.accepts (record {
      digest = g.digest;
      round = g.round;
      author = g.author;
      committee = g.committee;
      seals = g.seals.items;
    }) };
}

impl<S: Scheme> Gather<S> {
    /// A gatherer without votes, for the block with this digest, round and author.
    ///
    /// `Author`: the author is not a member. `NoMemory`: the author is a member, but an allocation failed.
    pub fn new(
        alloc: Global,
        committee: &Shared<Committee>,
        digest: Digest,
        round: Round,
        author: u16,
    ) -> Result<Gather<S>, StartFault>
        ensures empty { IfOk result (λ g. g ≡ record {
          digest = digest;
          round = round;
          author = author;
          committee = committee.now;
          seals = [];
        }) }
        ensures member { OnOk result (IsMember committee.now author) }
        ensures author { IsErrOf result StartFault.Author ↔ (IsMember committee.now author → ⊥) }
        ensures no_memory { IsErrOf result StartFault.NoMemory → IsMember committee.now author }
    {
        if !is_member(committee.get(), author) {
            return Err(StartFault::Author);
        }
        Ok(Gather {
            digest,
            round,
            author,
            committee: committee.try_clone()?,
            seals: Vec::new(alloc),
            scheme: PhantomData,
        })
    }

    /// Counts the vote. Returns `Quorum` if the signers of the counted votes now reach the quorum, and `Counted` otherwise.
    ///
    /// On error nothing changes. The error is the first of these that applies:
    ///
    /// 1. `OtherBlock`: the vote is for another digest, round or author.
    /// 2. `Repeated`: a vote of the same signer was counted before.
    /// 3. `Signer`: the signer is not a member.
    /// 4. `Signature`: the scheme does not accept the signature under the signer's key.
    /// 5. `NoMemory`: an allocation failed.
    pub fn add(&mut self, vote: &Vote) -> Result<Counted, GatherFault>
        ensures counted { OnOk result (CountsVote self.old vote.now self.new) }
        ensures quorum { IfOk result (IsCount self.new) }
        ensures gathering { IsGathering S.accepts self.new }
        ensures may_count { OnOk result (CanCount S.accepts self.old vote.now) }
        ensures fault { IfErr result (IsGatherFault S.accepts self.old vote.now) }
        ensures unchanged { OnErr result (self.new ≡ self.old) }
    {
        let place = self.place_for(self.committee.get(), vote)?;
        self.count(place, vote)
    }

    /// Does what `add` does, and has the signature verified by `verifier`, which is one of the committee's members.
    pub fn add_by<V: Verifier<S>>(
        &mut self,
        verifier: &V,
        vote: &Vote,
    ) -> Result<Counted, GatherFault>
        requires { V.members verifier.now ≡ self.old.committee }
        ensures counted { OnOk result (CountsVote self.old vote.now self.new) }
        ensures quorum { IfOk result (IsCount self.new) }
        ensures gathering { IsGathering S.accepts self.new }
        ensures may_count { OnOk result (CanCount S.accepts self.old vote.now) }
        ensures fault { IfErr result (IsGatherFault S.accepts self.old vote.now) }
        ensures unchanged { OnErr result (self.new ≡ self.old) }
    {
        let place = self.place_for(verifier, vote)?;
        self.count(place, vote)
    }

    /// The place at which to insert the vote's seal among the counted ones, or the first reason not to count the vote.
    fn place_for<V: Verifier<S>>(&self, verifier: &V, vote: &Vote) -> Result<usize, GatherFault>
        requires { V.members verifier.now ≡ self.now.committee }
        ensures gathering { IsGathering S.accepts self.now }
        ensures may_count { OnOk result (CanCount S.accepts self.now vote.now) }
        ensures place { IfOk result (IsPlace (signers self.now.seals) vote.now.signer) }
        ensures fault { IfErr result (IsGatherFault S.accepts self.now vote.now) }
    {
        let committee = self.committee.get();
        if !self.is_for(vote) {
            return Err(GatherFault::OtherBlock);
        }
        let Some(place) = place_of(&self.seals, vote.signer) else {
            return Err(GatherFault::Repeated);
        };
        if !is_member(committee, vote.signer) {
            return Err(GatherFault::Signer);
        }
        let text = text_of_vote(&vote.subject());
        if !verifier.is_signed_by(vote.signer, &text, &vote.signature) {
            return Err(GatherFault::Signature);
        }
        Ok(place)
    }

    /// Counts the vote, whose seal belongs at the place.
    fn count(&mut self, place: usize, vote: &Vote) -> Result<Counted, GatherFault>
        requires may_count { CanCount S.accepts self.old vote.now }
        requires place { IsPlace (signers self.old.seals) vote.now.signer place }
        ensures counted { OnOk result (CountsVote self.old vote.now self.new) }
        ensures quorum { IfOk result (IsCount self.new) }
        ensures gathering { IsGathering S.accepts self.new }
        ensures fault { IfErr result (IsGatherFault S.accepts self.old vote.now) }
        ensures unchanged { OnErr result (self.new ≡ self.old) }
    {
        let seal = Seal {
            signer: vote.signer,
            signature: vote.signature,
        };
        insert_seal(&mut self.seals, place, seal)?;
        if self.committee.get().reaches_quorum(&self.seals) {
            Ok(Counted::Quorum)
        } else {
            Ok(Counted::Counted)
        }
    }

    /// Whether the vote is for the block of this gatherer.
    fn is_for(&self, vote: &Vote) -> bool
        ensures { IsTrue result ↔ IsVoteForBlock self.now vote.now }
    {
        vote.digest == self.digest && vote.round == self.round && vote.author == self.author
    }

    /// The certificate with all counted votes. The gatherer keeps its votes, so it can count more.
    ///
    /// `FewVotes`: the signers of the counted votes do not reach the quorum. `NoMemory`: they reach it, but an allocation failed.
    pub fn finish(&self, alloc: Global) -> Result<CheckedCert<S>, FinishFault>
        ensures certificate { IfOk result (λ checked. checked
            ≡ record { certificate = certificate_of self.now; committee = self.now.committee }) }
        ensures quorum { OnOk result (ReachesQuorum self.now.committee (signers self.now.seals)) }
        ensures few_votes { IsErrOf result FinishFault.FewVotes
            ↔ (ReachesQuorum self.now.committee (signers self.now.seals) → ⊥) }
        ensures no_memory { IsErrOf result FinishFault.NoMemory
            → ReachesQuorum self.now.committee (signers self.now.seals) }
    {
        if !self.committee.get().reaches_quorum(&self.seals) {
            return Err(FinishFault::FewVotes);
        }
        let votes = Sequence::new(Vec::from_slice(alloc, &self.seals)?);
        let certificate = Certificate {
            digest: self.digest,
            round: self.round,
            author: self.author,
            votes,
        };
        Ok(CheckedCert::new(
            Shared::new(alloc, certificate)?,
            self.committee.try_clone()?,
        ))
    }
}

/// The place at which to insert a seal of this signer, or `None` if the seals already contain one.
fn place_of(seals: &[Seal], signer: u16) -> Option<usize>
    requires { IsStrictlyIncreasing (signers seals.now) }
    ensures { MatchOption result (Contains (signers seals.now) signer)
        (IsPlace (signers seals.now) signer) }
{
    for (place, seal) in seals.iter().enumerate() {
        if seal.signer == signer {
            return None;
        }
        if seal.signer > signer {
            return Some(place);
        }
    }
    Some(seals.len())
}

/// Inserts the seal at the place. On error the seals do not change.
fn insert_seal(seals: &mut Vec<Seal>, place: usize, seal: Seal) -> Result<(), NoMemory>
    requires { place ≤ vec_len seals.old }
    ensures ok { OnOk result (seals.new.items ≡ insert seals.old.items place seal) }
    ensures err { OnErr result (seals.new.items ≡ seals.old.items) }
{
    seals.insert(place, seal)?;
    Ok(())
}
