//! Votes in certificates.
use super::*;
use nw_check::check_cert;
use nw_codec::{Certificate, Seal};
use nw_digest::Sequence;
use samples::fallible::{VOTED, vote};

/// A certificate with one vote for each pair of members. The vote names the first member, and the second one signs it.
fn certificate(
    alloc: Global,
    committee: &Committee,
    signers: &[(u16, u16)],
) -> Result<Certificate, NoMemory> {
    let (round, author) = SLOT;
    let mut votes = Vec::new(alloc);
    for (signer, signs) in signers {
        votes.push(Seal {
            signer: *signer,
            signature: vote(committee, VOTED, SLOT, *signs).signature,
        })?;
    }
    Ok(Certificate {
        digest: VOTED,
        round,
        author,
        votes: Sequence::new(votes),
    })
}

/// The fault of the certificate with these votes under a committee of four.
fn fault_of(alloc: Global, signers: &[(u16, u16)]) -> Result<Option<CertFault>, Fail> {
    let committee = committee(alloc, 4)?;
    let certificate = certificate(alloc, committee.get(), signers)?;
    if !certificate.fits() {
        return Err(Fail::from("the certificate breaks a limit"));
    }
    Ok(check_cert::<DemoScheme>(alloc, &committee, certificate).err())
}

#[test]
fn every_vote_is_verified_past_the_quorum(rt: HostRuntime) -> Result<(), Fail> {
    let last_forged = [(0, 0), (1, 1), (2, 2), (3, 0)];
    let fault = fault_of(rt.alloc(), &last_forged)?;
    assert!(rt; fault == Some(CertFault::Signature { signer: 3 }));
    Ok(())
}
