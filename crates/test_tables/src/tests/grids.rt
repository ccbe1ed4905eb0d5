//! Grids in both stores: each round has a block of each author, with all blocks of the preceding round as parents.
use super::both::Both;
use super::*;
use nw_model::{Call, Reply};

/// References to the blocks of the preceding round.
fn all_before(alloc: Global, round: u64, authors: u16) -> Result<Vec<Ref>, NoMemory> {
    let mut names = Vec::new(alloc);
    if let Some(before) = round.checked_sub(1) {
        for author in 0..authors {
            names.push((before, author, 0))?;
        }
    }
    references(alloc, &names, None)
}

/// Writes and certifies the named block of the grid. Returns whether the stores gave equal replies.
fn add(both: &mut Both, alloc: Global, name: Name, authors: u16) -> Result<bool, NoMemory> {
    let (slot, digest) = ((name.0, name.1), digest_of(name));
    let block = block_of(alloc, slot, all_before(alloc, name.0, authors)?, b"")?;
    let written = both.call(alloc, &Call::Write(digest, block))?.is_some();
    let certificate = certificate(alloc, digest, slot)?;
    Ok(written && both.call(alloc, &Call::Certify(certificate))?.is_some())
}

/// Whether these are all blocks of the grid in order, up to the round before the last block's, and then the last block.
fn are_whole(blocks: &[Shared<Block>], authors: u16, last: Name) -> bool {
    let mut expected = (0u64, 0u16);
    for block in blocks {
        let slot = (block.get().round.get(), block.get().author);
        if slot.0 == last.0 {
            expected.1 = last.1;
        }
        if slot != expected {
            return false;
        }
        expected = if slot.1.saturating_add(1) == authors {
            (slot.0.saturating_add(1), 0)
        } else {
            (slot.0, slot.1.saturating_add(1))
        };
    }
    blocks.len() as u64 == last.0.saturating_mul(u64::from(authors)).saturating_add(1)
}

/// Adds the grid. Returns whether both stores list the last block and all of the grid below it.
fn lists_all(both: &mut Both, alloc: Global, authors: u16, last: Name) -> Result<bool, NoMemory> {
    for round in 0..=last.0 {
        for author in 0..authors {
            if !add(both, alloc, (round, author, 0), authors)? {
                return Ok(false);
            }
        }
    }
    match both.call(alloc, &Call::Causal(digest_of(last))) {
        Ok(Some(Reply::List(blocks))) => Ok(are_whole(blocks.as_slice(), authors, last)),
        Ok(_) => Ok(false),
        Err(refused) => Err(refused),
    }
}

/// Whether new stores list the last block and all of the grid below it.
fn are_listed(alloc: Global, authors: u16, last: Name) -> bool {
    let mut both = Both::new(alloc, 1_000, 4_096);
    let listed = lists_all(&mut both, alloc, authors, last);
    matches!(listed, Ok(true))
}

// Two grids and a chain. In the larger grid, a walk that visited a block once for each path to it would follow 4^39 paths.
#[test]
fn two_grids_and_a_chain_of_1000_blocks_list_each_block_once(rt: HostRuntime) {
    for (authors, last) in [(4, (3, 2, 0)), (4, (39, 2, 0)), (1, (999, 0, 0))] {
        assert!(rt; are_listed(rt.alloc(), authors, last), "{authors} authors");
    }
}
