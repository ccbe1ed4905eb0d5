//! Certificates of a store.
ghost use Rattle.std.specs.Prelude.{◌≡◌, ◌≤◌, IfOk, OnOk, OnErr, IsNone, None, false};
ghost use Rattle.std.specs.FinMap as map;
ghost use Rattle.nw_model.specs.State.{block_slot, certificate_slot};
ghost use Rattle.nw_model.specs.Step.{asked_certify_reply, certified_digest, has_other_slot};
ghost use Rattle.nw_model.specs.Step.{with_certificate};

use super::{Plain, insert_both};
use nw_codec::{Certificate, Subject};
use nw_digest::{Digest, NoMemory, Round, Shared};
use nw_model::CertifyReply;

impl Plain {
    /// The certificate that is kept for the digest, if there is one.
    pub(super) fn read_certificate(
        &self,
        digest: &Digest,
    ) -> Result<Option<Shared<Certificate>>, NoMemory>
        ensures { IfOk result (λ found. found ≡ map.get self.now.state.certificates digest.now) }
    {
        match self.certificates.get(digest) {
            None => Ok(None),
            Some(certificate) => Ok(Some(certificate.try_clone()?)),
        }
    }

    /// The reply that a certificate for this subject would get now.
    pub(super) fn asked_certify_reply(&self, subject: &Subject) -> CertifyReply
        ensures { result ≡ asked_certify_reply self.now.bounds self.now.state subject.now }
    {
        let slot = (subject.round, subject.author);
        if subject.round < self.floor {
            return CertifyReply::Collected(self.floor);
        }
        if subject.round.get() >= self.floor.get() + u64::from(self.window) {
            return CertifyReply::TooFar;
        }
        if let Some(held) = self.certificate(&subject.digest) {
            return if (held.round, held.author) == slot {
                CertifyReply::Already
            } else {
                CertifyReply::Misfit
            };
        }
        if let Some(block) = self.block(&subject.digest) {
            if (block.round, block.author) != slot {
                return CertifyReply::Misfit;
            }
        }
        if let Some(other) = self.certified_digest(slot) {
            return CertifyReply::Conflict(other);
        }
        if self.certificate_count() >= self.limit as usize {
            return CertifyReply::Full;
        }
        CertifyReply::Certified
    }

    /// The certified digest of the slot, if there is one.
    pub(super) fn certified_digest(&self, slot: (Round, u16)) -> Option<Digest>
        ensures { result ≡ certified_digest self.now.state slot }
    {
        self.certified.get(&slot).copied()
    }

    /// Adds the certificate.
    pub(super) fn certify(&mut self, certificate: Shared<Certificate>) -> Result<(), NoMemory>
        requires absent { IsNone (map.get self.old.state.certificates certificate.digest) }
        requires open { certified_digest self.old.state (certificate_slot certificate) ≡ None }
        requires misfit { has_other_slot block_slot (map.get self.old.state.blocks certificate.digest)
            (certificate_slot certificate) ≡ false }
        requires kept { self.old.state.floor ≤ certificate.round }
        ensures state { OnOk result (self.new.state ≡ with_certificate self.old.state certificate) }
        ensures bounds { self.new.bounds ≡ self.old.bounds }
        ensures unchanged { OnErr result (self.new ≡ self.old) }
    {
        let held = certificate.get();
        let digest = held.digest;
        let slot = (held.round, held.author);
        insert_both(
            &mut self.certificates,
            digest,
            certificate,
            &mut self.certified,
            slot,
        )
    }

    pub(super) fn certificate_count(&self) -> usize
        ensures { result ≡ map.len self.now.state.certificates }
    {
        self.certificates.len()
    }
}
