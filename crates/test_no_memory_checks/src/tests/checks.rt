//! Checks of blocks and certificates.
use super::*;
use nw_check::{BlockFault, CertFault};
use samples::fallible::{checked_block, checked_certificate};

/// The author of a checked block, or `None` if it was checked under another committee.
fn author_of(alloc: Global, four: &Shared<Committee>) -> Result<Option<u16>, BlockFault> {
    let block = retry!(
        BlockFault::NoMemory,
        checked_block(alloc, four, (Round::ZERO, 2), &[], b"x", 2)
    )?;
    let is_under = block.committee().get() == four.get();
    let author = block.block().get().author;
    drop(block);
    Ok(is_under.then_some(author))
}

/// The number of votes of a checked certificate, or `None` if it was checked under another committee.
fn votes_of(alloc: Global, four: &Shared<Committee>) -> Result<Option<usize>, CertFault> {
    let three = retry!(
        CertFault::NoMemory,
        checked_certificate(alloc, four, VOTED, SLOT, &[0, 1, 2])
    )?;
    let is_under = three.committee().get() == four.get();
    let votes = three.certificate().get().votes.as_slice().len();
    drop(three);
    Ok(is_under.then_some(votes))
}

#[test]
fn a_block_and_a_certificate_are_checked(rt: HostRuntime) -> Result<(), Fail> {
    let four = four(rt.alloc())?;
    let author = author_of(rt.alloc(), &four);
    let votes = votes_of(rt.alloc(), &four);
    drop(four);
    assert_eq!(rt; (author?, votes?), (Some(2), Some(3)));
    Ok(())
}
