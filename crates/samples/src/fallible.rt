//! Makes committees, blocks, votes and certificates, and returns an allocation failure as a distinct error.
use crate::checked::key;
use crate::signing::seal;
pub use crate::signing::signature;
use nw_check::{BlockFault, CertFault, CheckedBlock, CheckedCert, check_block, check_cert};
use nw_codec::{Block, Certificate, Ref, Transactions, Vote};
use nw_committee::{Committee, Key};
use nw_digest::{Digest, NoMemory, Round, Sequence, Shared};
use nw_sig::DemoScheme;
use std::alloc::Global;

/// A round and an author.
pub type Slot = (Round, u16);

/// A digest without a block, for votes and certificates.
pub const VOTED: Digest = Digest([7; 32]);

/// The keys of the members with these numbers.
pub fn keys(alloc: Global, numbers: &[u8]) -> Result<Vec<Key>, NoMemory> {
    let mut keys = Vec::new(alloc);
    for number in numbers {
        keys.push(key(u16::from(*number)))?;
    }
    Ok(keys)
}

/// A committee of members of weight 1 with the keys of these numbers. There must be 1, 4, 7, .. or 100 numbers, which are distinct.
/// Otherwise, or if an allocation fails, the error is `NoMemory`.
pub fn committee(alloc: Global, numbers: &[u8]) -> Result<Shared<Committee>, NoMemory> {
    match Committee::new(alloc, keys(alloc, numbers)?) {
        Ok(committee) => Shared::new(alloc, committee),
        Err(_fault) => Err(NoMemory),
    }
}

/// This signer's vote for the digest and the slot.
pub fn vote(committee: &Committee, digest: Digest, slot: Slot, signer: u16) -> Vote {
    let (round, author) = slot;
    Vote {
        digest,
        round,
        author,
        signer,
        signature: seal(committee, digest, round, author, signer).signature,
    }
}

/// A certificate for the digest and the slot, with the votes of these signers.
pub fn certificate(
    alloc: Global,
    committee: &Committee,
    digest: Digest,
    slot: Slot,
    signers: &[u16],
) -> Result<Certificate, NoMemory> {
    let (round, author) = slot;
    let mut votes = Vec::new(alloc);
    for signer in signers {
        votes.push(seal(committee, digest, round, author, *signer))?;
    }
    Ok(Certificate {
        digest,
        round,
        author,
        votes: Sequence::new(votes),
    })
}

/// The certificate that `certificate` returns, checked. The error is `FewVotes` also if the certificate does not fit.
pub fn checked_certificate(
    alloc: Global,
    committee: &Shared<Committee>,
    digest: Digest,
    slot: Slot,
    signers: &[u16],
) -> Result<CheckedCert<DemoScheme>, CertFault> {
    let certificate = certificate(alloc, committee.get(), digest, slot, signers)?;
    if !certificate.fits() {
        return Err(CertFault::FewVotes);
    }
    check_cert(alloc, committee, certificate)
}

/// A block of the slot with these parents, and one transaction for each of these bytes.
pub fn unsigned(
    alloc: Global,
    slot: Slot,
    parents: &[Ref],
    bytes: &[u8],
) -> Result<Block, NoMemory> {
    let mut transactions = Transactions::new(alloc);
    for byte in bytes {
        transactions.push(&[*byte]).map_err(|_| NoMemory)?;
    }
    Ok(Block {
        author: slot.1,
        round: slot.0,
        parents: Sequence::new(parents.to_vec(alloc)?),
        transactions,
    })
}

/// The block that `unsigned` returns, signed by this signer and checked. The error is `ParentAuthor` also if the block does not fit.
pub fn checked_block(
    alloc: Global,
    committee: &Shared<Committee>,
    slot: Slot,
    parents: &[Ref],
    bytes: &[u8],
    signer: u16,
) -> Result<CheckedBlock<DemoScheme>, BlockFault> {
    let block = unsigned(alloc, slot, parents, bytes)?;
    match signature(committee.get(), &block, signer) {
        None => Err(BlockFault::ParentAuthor),
        Some(signature) => check_block(alloc, committee, block, signature),
    }
}
