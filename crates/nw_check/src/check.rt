//! Checks blocks and certificates, by the rules of docs/FORMATS.md.
ghost use Rattle.std.specs.Prelude.{◌≡◌, ◌↔◌, IsTrue, IfOk, IfErr, OnOk, MatchOption};
ghost use Rattle.nw_codec.specs.declared.certificate.Signature.{Signature};
ghost use Rattle.nw_codec.specs.Fits.{Fits, CertificateFits};
ghost use Rattle.nw_sig.specs.Signed.{Meaning};
ghost use Rattle.nw_model.specs.Checks.{IsWellFormedWith, IsValid};
ghost use Rattle.nw_check.specs.Fault.{HasParents, IsBlockFault, BreaksRule};
ghost use Rattle.nw_check.specs.Fault.{IsCertFault, BreaksCertRule};

use crate::members::{are_members, is_member};
use crate::{BlockFault, CertFault, CheckedBlock, CheckedCert, Verifier};
use nw_codec::{Block, Certificate, Signature, block_digest};
use nw_committee::Committee;
use nw_digest::{Digest, Shared};
use nw_sig::{Scheme, text_of_block};
use std::alloc::Global;

/// Checks the block and its author's signature. Returns the block with its digest, its signature and the committee. It hashes the body only
/// after rules 1 to 4 passed, so refusing the block of a stranger costs no hash.
///
/// On error the block is dropped. The error is the first of these that applies:
///
/// 1. `Author`: the author is not a member.
/// 2. `ParentAuthor`: the author of a parent is not a member.
/// 3. `GenesisParents`: the block is of round 0 and has parents.
/// 4. `FewParents`: the block is of a later round, and the authors of its parents do not reach the quorum.
/// 5. `Signature`: the scheme does not accept the signature of the block's digest under the author's key.
/// 6. `NoMemory`: an allocation failed.
pub fn check_block<S: Scheme>(
    alloc: Global,
    committee: &Shared<Committee>,
    block: Block,
    signature: Signature,
) -> Result<CheckedBlock<S>, BlockFault>
    requires { Fits block }
    ensures checked { IfOk result (λ checked. checked ≡ record {
      block = block;
      signature = signature;
      committee = committee.now;
    }) }
    ensures well_formed { OnOk result (IsWellFormedWith S.accepts committee.now block signature) }
    ensures fault { IfErr result (IsBlockFault S.accepts committee.now block signature) }
{
    check_block_by(alloc, committee, committee.get(), block, signature)
}

/// Does what `check_block` does, and has the signature verified by `verifier`, which is one of the committee's members.
pub fn check_block_by<S: Scheme, V: Verifier<S>>(
    alloc: Global,
    committee: &Shared<Committee>,
    verifier: &V,
    block: Block,
    signature: Signature,
) -> Result<CheckedBlock<S>, BlockFault>
    requires fits { Fits block }
    requires members { V.members verifier.now ≡ committee.now }
    ensures checked { IfOk result (λ checked. checked ≡ record {
      block = block;
      signature = signature;
      committee = committee.now;
    }) }
    ensures well_formed { OnOk result (IsWellFormedWith S.accepts committee.now block signature) }
    ensures fault { IfErr result (IsBlockFault S.accepts committee.now block signature) }
{
    if let Some(fault) = committee_fault(committee.get(), &block) {
        return Err(fault);
    }
    let digest = block_digest(&block);
    let text = text_of_block(&digest);
    if !verifier.is_signed_by(block.author, &text, &signature) {
        return Err(BlockFault::Signature);
    }
    let block = Shared::new(alloc, block)?;
    Ok(CheckedBlock::new(block, digest, signature, committee.try_clone()?))
}

/// The first of rules 1 to 4 that the block breaks, or `None` if it breaks none of them. These rules need no digest.
fn committee_fault(committee: &Committee, block: &Block) -> Option<BlockFault>
    requires { Fits block.now }
    ensures { MatchOption result (HasParents committee.now block.now)
        (λ fault. (accepts : Meaning) (signature : Signature)
        → BreaksRule accepts committee.now block.now signature fault) }
{
    let parents = block.parents.as_slice();
    if !is_member(committee, block.author) {
        Some(BlockFault::Author)
    } else if !are_members(committee, parents) {
        Some(BlockFault::ParentAuthor)
    } else if block.round.get() == 0 && !parents.is_empty() {
        Some(BlockFault::GenesisParents)
    } else if block.round.get() > 0 && !committee.reaches_quorum(parents) {
        Some(BlockFault::FewParents)
    } else {
        None
    }
}

/// Checks the certificate and the signature of each vote, including votes beyond the quorum. Returns the certificate and committee.
///
/// On error the certificate is dropped. The error is the first of these that applies:
///
/// 1. `Author`: the author is not a member.
/// 2. `Signer`: a signer is not a member.
/// 3. `FewVotes`: the signers do not reach the quorum.
/// 4. `Signature`: the scheme does not accept the signature of a vote under its signer's key. The fault names the first such signer.
/// 5. `NoMemory`: an allocation failed.
pub fn check_cert<S: Scheme>(
    alloc: Global,
    committee: &Shared<Committee>,
    certificate: Certificate,
) -> Result<CheckedCert<S>, CertFault>
    requires { CertificateFits certificate }
    ensures checked { IfOk result
        (λ checked. checked ≡ record { certificate = certificate; committee = committee.now }) }
    ensures valid { OnOk result (IsValid S.accepts committee.now certificate) }
    ensures fault { IfErr result (IsCertFault S.accepts committee.now certificate) }
{
    check_cert_by(alloc, committee, committee.get(), certificate)
}

/// Does what `check_cert` does, and has the signatures verified by `verifier`, which is one of the committee's members.
pub fn check_cert_by<S: Scheme, V: Verifier<S>>(
    alloc: Global,
    committee: &Shared<Committee>,
    verifier: &V,
    certificate: Certificate,
) -> Result<CheckedCert<S>, CertFault>
    requires fits { CertificateFits certificate }
    requires members { V.members verifier.now ≡ committee.now }
    ensures checked { IfOk result
        (λ checked. checked ≡ record { certificate = certificate; committee = committee.now }) }
    ensures valid { OnOk result (IsValid S.accepts committee.now certificate) }
    ensures fault { IfErr result (IsCertFault S.accepts committee.now certificate) }
{
    match cert_fault::<S, V>(committee.get(), verifier, &certificate) {
        Some(fault) => Err(fault),
        None => Ok(CheckedCert::new(Shared::new(alloc, certificate)?, committee.try_clone()?)),
    }
}

/// Whether the certificate fits, is valid under the committee, and is for the digest. Allocates no memory.
pub fn valid<S: Scheme>(committee: &Committee, digest: Digest, certificate: &Certificate) -> bool
    ensures { IsTrue result
        ↔ (IsValid S.accepts committee.now certificate.now × (certificate.now.digest ≡ digest)) }
{
    if !certificate.fits() {
        return false;
    }
    certificate.digest == digest
        && cert_fault::<S, Committee>(committee, committee, certificate).is_none()
}

/// The first rule that the certificate breaks, or `None` if it is valid.
fn cert_fault<S: Scheme, V: Verifier<S>>(
    committee: &Committee,
    verifier: &V,
    certificate: &Certificate,
) -> Option<CertFault>
    requires fits { CertificateFits certificate.now }
    requires members { V.members verifier.now ≡ committee.now }
    ensures { MatchOption result (IsValid S.accepts committee.now certificate.now)
        (BreaksCertRule S.accepts committee.now certificate.now) }
{
    let votes = certificate.votes.as_slice();
    if !is_member(committee, certificate.author) {
        Some(CertFault::Author)
    } else if !are_members(committee, votes) {
        Some(CertFault::Signer)
    } else if !committee.reaches_quorum(votes) {
        Some(CertFault::FewVotes)
    } else {
        match verifier.first_bad_signer(certificate) {
            Some(signer) => Some(CertFault::Signature { signer }),
            None => None,
        }
    }
}
