//! Checked blocks and certificates.
ghost use Rattle.std.specs.Prelude.{◌≡◌};
ghost use Rattle.nw_model.specs.Checks.{digest_of, IsWellFormed, IsWellFormedWith, IsValid};

use nw_codec::{Block, Certificate, Signature};
use nw_committee::Committee;
use nw_digest::{Digest, Shared};
use nw_sig::Scheme;
use std::marker::{Model, PhantomData};

/// A block that is well formed with its author's signature, under its committee and the scheme `S`. Contracts see the block, the signature and
/// the committee.
#[derive(Drop)]
pub struct CheckedBlock<S: Scheme> {
    block: Shared<Block>,
    digest: Digest,
    signature: Signature,
    committee: Shared<Committee>,
    scheme: PhantomData<S>,
}

impl<S: Scheme> Model for CheckedBlock<S> {
    ghost use Rattle.std.specs.Prelude.{◌≡◌};
    ghost use Rattle.nw_model.specs.Checks.{digest_of, IsWellFormedWith};
    ghost use Rattle.nw_check.specs.Checked.{CheckedBlockView};

    ghost Value = { CheckedBlockView };

    ghost view = { λ c. record {
      block = c.block;
      signature = c.signature;
      committee = c.committee;
    } };

    ghost invariant = { λ c. IsWellFormedWith S.accepts c.committee c.block c.signature
        × (c.digest ≡ digest_of c.block) };
}

impl<S: Scheme> CheckedBlock<S> {
    /// The checked block, with its digest.
    pub(crate) fn new(
        block: Shared<Block>,
        digest: Digest,
        signature: Signature,
        committee: Shared<Committee>,
    ) -> CheckedBlock<S>
        requires well_formed { IsWellFormedWith S.accepts committee block signature }
        requires digest { digest ≡ digest_of block }
        ensures { result ≡ record {
          block = block;
          signature = signature;
          committee = committee;
        } }
    {
        CheckedBlock {
            block,
            digest,
            signature,
            committee,
            scheme: PhantomData,
        }
    }

    /// The block.
    pub fn block(&self) -> &Shared<Block>
        ensures block { result.now ≡ self.now.block }
        ensures well_formed { IsWellFormed S.accepts self.now.committee self.now.block }
    {
        &self.block
    }

    /// The digest of the block: SHA-256 of its body.
    pub fn digest(&self) -> Digest
        ensures digest { result ≡ digest_of self.now.block }
        ensures well_formed { IsWellFormed S.accepts self.now.committee self.now.block }
    {
        self.digest
    }

    /// Its author's signature of the digest.
    pub fn signature(&self) -> Signature
        ensures signature { result ≡ self.now.signature }
        ensures well_formed { IsWellFormedWith S.accepts self.now.committee self.now.block result }
    {
        self.signature
    }

    /// The committee under which the block is well formed.
    pub fn committee(&self) -> &Shared<Committee>
        ensures committee { result.now ≡ self.now.committee }
        ensures well_formed { IsWellFormed S.accepts self.now.committee self.now.block }
    {
        &self.committee
    }
}

/// A certificate that is valid under its committee and the scheme `S`. Contracts see the certificate and the committee.
#[derive(Drop)]
pub struct CheckedCert<S: Scheme> {
    certificate: Shared<Certificate>,
    committee: Shared<Committee>,
    scheme: PhantomData<S>,
}

impl<S: Scheme> Model for CheckedCert<S> {
    ghost use Rattle.nw_model.specs.Checks.{IsValid};
    ghost use Rattle.nw_check.specs.Checked.{CheckedCertView};

    ghost Value = { CheckedCertView };

    ghost view = { λ c. record { certificate = c.certificate; committee = c.committee } };

    ghost invariant = { λ c. IsValid S.accepts c.committee c.certificate };
}

impl<S: Scheme> CheckedCert<S> {
    /// The checked certificate.
    pub(crate) fn new(
        certificate: Shared<Certificate>,
        committee: Shared<Committee>,
    ) -> CheckedCert<S>
        requires { IsValid S.accepts committee certificate }
        ensures { result ≡ record { certificate = certificate; committee = committee } }
    {
        CheckedCert {
            certificate,
            committee,
            scheme: PhantomData,
        }
    }

    /// The certificate.
    pub fn certificate(&self) -> &Shared<Certificate>
        ensures certificate { result.now ≡ self.now.certificate }
        ensures valid { IsValid S.accepts self.now.committee self.now.certificate }
    {
        &self.certificate
    }

    /// The digest of the certified block.
    pub fn digest(&self) -> Digest
        ensures digest { result ≡ self.now.certificate.digest }
        ensures valid { IsValid S.accepts self.now.committee self.now.certificate }
    {
        self.certificate.get().digest
    }

    /// The committee under which the certificate is valid.
    pub fn committee(&self) -> &Shared<Committee>
        ensures committee { result.now ≡ self.now.committee }
        ensures valid { IsValid S.accepts self.now.committee self.now.certificate }
    {
        &self.committee
    }
}
