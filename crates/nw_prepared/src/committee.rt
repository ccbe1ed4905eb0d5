//! Prepared committees.
ghost use Rattle.std.specs.Prelude.{◌≡◌, ◌↔◌, IsTrue, IfOk, MatchOption, take};
ghost use Rattle.nw_codec.specs.Same.{same_bytes};
ghost use Rattle.nw_committee.specs.Committee.{keys};
ghost use Rattle.nw_model.specs.Checks.{IsSignedBy};
ghost use Rattle.nw_curve.specs.Coding.{encoded};
ghost use Rattle.nw_curve.specs.Inverse.{HasInverse};
ghost use Rattle.nw_ed25519.specs.Accepts.{accepts};
ghost use Rattle.nw_prepared.specs.Keys.{prepared_keys};

use crate::votes::first_bad;
use nw_check::{Verifier, note_size};
use nw_codec::{Certificate, Signature};
use nw_committee::Committee;
use nw_curve::Point;
use nw_digest::{NoMemory, Shared};
use nw_ed25519::{Ed25519, PreparedBase, PreparedKey};
use nw_sig::text_of_vote;
use std::alloc::Global;
use std::marker::Model;

/// A committee whose keys are prepared for Ed25519: its members' signatures are verified in less than half the time. Contracts see the list
/// of the members. It takes 24 KiB a member, and 384 KiB once. It never changes, so threads can share it.
#[derive(Debug, Drop)]
pub struct PreparedCommittee {
    committee: Shared<Committee>,
    base: PreparedBase,
    prepared: Vec<PreparedKey>,
}

impl Model for PreparedCommittee {
    ghost use Rattle.std.specs.Prelude.{◌≡◌, List};
    ghost use Rattle.nw_committee.specs.declared.member.Member.{Member};
    ghost use Rattle.nw_committee.specs.Committee.{keys};
    ghost use Rattle.nw_prepared.specs.Keys.{prepared_keys};

    ghost Value = { List Member };

    ghost view = { λ c. c.committee };

    ghost invariant = { λ c. prepared_keys c.prepared.items ≡ keys c.committee };
}

impl PreparedCommittee {
    /// Prepares the keys of the committee. A key that is no point of the curve needs no memory. `NoMemory` if an allocation fails.
    pub fn new(alloc: Global, committee: Shared<Committee>) -> Result<PreparedCommittee, NoMemory>
        ensures { IfOk result (λ prepared. prepared ≡ committee) }
    {
        let base = PreparedBase::new(alloc)?;
        let prepared = keys_of(alloc, committee.get())?;
        Ok(PreparedCommittee {
            committee,
            base,
            prepared,
        })
    }

    /// The committee.
    pub fn committee(&self) -> &Shared<Committee>
        ensures { result.now ≡ self.now }
    {
        &self.committee
    }

    /// The point whose encoding must be the R of a member's signature, or `None` if there is no such member or signature.
    pub(crate) fn expected(&self, number: u16, text: &[u8], signature: &Signature) -> Option<Point>
        ensures { MatchOption result (IsSignedBy accepts self.now number text.now signature.now → ⊥)
            (λ point. HasInverse point.z
            × (IsTrue (same_bytes (take 32 signature.now.0) (encoded point))
            ↔ IsSignedBy accepts self.now number text.now signature.now)) }
    {
        note_size(signature);
        match self.prepared.get(usize::from(number)) {
            Some(key) => key.expected(&self.base, text, signature),
            None => None,
        }
    }
}

impl Verifier<Ed25519> for PreparedCommittee {
    ghost members = { λ prepared. prepared };

    fn is_signed_by(&self, number: u16, text: &[u8], signature: &Signature) -> bool {
        let r = &signature.0[..32];
        match self.expected(number, text, signature) {
            Some(point) => r == point.encoded().as_slice(),
            None => false,
        }
    }

    fn first_bad_signer(&self, certificate: &Certificate) -> Option<u16> {
        let text = text_of_vote(&certificate.subject());
        first_bad(self, &text, certificate.votes.as_slice())
    }
}

/// The prepared keys of the members, in order.
fn keys_of(alloc: Global, committee: &Committee) -> Result<Vec<PreparedKey>, NoMemory>
    ensures { IfOk result (λ prepared. prepared_keys prepared.items ≡ keys committee.now) }
{
    let mut prepared = Vec::with_capacity(alloc, committee.size())?;
    for number in 0..committee.size() as u16 {
        match committee.key(number) {
            Some(key) => prepared.push(PreparedKey::of(alloc, *key)?)?,
            None => return Ok(prepared),
        }
    }
    Ok(prepared)
}
