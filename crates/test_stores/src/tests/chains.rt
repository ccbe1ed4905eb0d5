//! Chains of blocks with their certificates.
use super::*;

/// A block and its certificate.
#[derive(Drop)]
pub(super) struct Link {
    pub(super) block: CheckedBlock<DemoScheme>,
    pub(super) certificate: CheckedCert<DemoScheme>,
}

/// The author's block of the round with these parents, and its certificate.
pub(super) fn link_over(
    alloc: Global,
    under: &Shared<Committee>,
    author: u16,
    round: u64,
    parents: &[Digest],
) -> Result<Link, Fail> {
    let block = block(alloc, under, author, round, parents)?;
    let digest = block.digest();
    Ok(Link {
        block,
        certificate: certificate(alloc, under, author, round, digest)?,
    })
}

/// A chain of one author's blocks: one in each round, whose parent is the one before it.
pub(super) fn chain(alloc: Global, rounds: u64) -> Result<Vec<Link>, Fail> {
    let one = committee(alloc, 1)?;
    let mut links: Vec<Link> = Vec::new(alloc);
    for round in 0..rounds {
        let link = match links.last() {
            None => link_over(alloc, &one, 0, round, &[])?,
            Some(last) => link_over(alloc, &one, 0, round, &[last.block.digest()])?,
        };
        links.push(link)?;
    }
    Ok(links)
}
