//! Searches among digests with a long common prefix.
use super::*;

/// The number of blocks, all of round 0.
const BLOCKS: u16 = 8_192;

/// The number of searches for each digest.
const TIMES: u8 = 8;

/// The digest of the author's block. The first 30 bytes of all digests are equal.
fn crowded(author: u16) -> Digest {
    let mut bytes = [7; 32];
    bytes[30..].copy_from_slice(&author.to_be_bytes());
    Digest(bytes)
}

/// A view with one block of each author.
fn view_of_all(alloc: Global) -> Result<View, NoMemory> {
    let limits = DagLimits {
        blocks: u32::from(BLOCKS),
        window: 1,
    };
    let mut dag = Dag::new(alloc, limits);
    for author in 0..BLOCKS {
        let block = block_of(alloc, (0, author), Vec::new(alloc), b"")?;
        dag.write(crowded(author), &block)?;
        let certificate = certificate(alloc, crowded(author), (0, author))?;
        dag.certify(&certificate)?;
    }
    dag.freeze_for(alloc, crowded(0))?
        .map_err(|_refusal| NoMemory)
}

/// Whether the view has the author's block under its digest.
fn has(view: &View, author: u16) -> bool {
    match view.get(&crowded(author)) {
        Some(block) => block.get().author == author,
        None => false,
    }
}

/// The number of searches that found a block, and the number of those that did not. Only the last digest has no block.
fn count(view: &View) -> (u32, u32) {
    let (mut found, mut missed) = (0u32, 0u32);
    for _time in 0..TIMES {
        for author in 0..=BLOCKS {
            if has(view, author) {
                found = found.saturating_add(1);
            } else {
                missed = missed.saturating_add(1);
            }
        }
    }
    (found, missed)
}

// Each search looks at about a hundred entries. Linear searches would look at about 270,000,000 entries in total, which is too slow for
// the interpreter of `rt try --test`.
#[test]
fn searches_among_8192_crowded_digests_end_soon(rt: HostRuntime) {
    let view = view_of_all(rt.alloc()).expect(&rt, "allocation succeeds");
    assert_eq!(rt; count(&view), (65_536, 8));
}
