//! Blocks and certificates beyond the window.
use super::*;
use nw_model::{CertifyReply, Counts, WriteReply};

/// Room for 64 blocks over four rounds.
const ROOM: DagLimits = DagLimits {
    blocks: 64,
    window: 4,
};

/// The counts with a certified block of round 0, and a block of round 3 whose parent is missing.
const KEPT: Counts = Counts {
    floor: Round::ZERO,
    blocks: 2,
    certificates: 1,
    complete: 1,
    wanted: 1,
};

/// Whether the replies to a new block of round 4 and a new certificate of round 5 are `TooFar`.
fn are_too_far(dag: &mut Dag, alloc: Global, number: u16) -> Result<bool, NoMemory> {
    let parents = references(alloc, &[(3, number, 1)], None)?;
    let block = block_of(alloc, (4, 0), parents, b"")?;
    let certificate = certificate(alloc, digest_of((5, number, 1)), (5, 0))?;
    Ok(
        dag.write(digest_of((4, number, 1)), &block)? == WriteReply::TooFar
            && dag.certify(&certificate)? == CertifyReply::TooFar,
    )
}

/// Floods a store whose window has four rounds with 1,000 pairs of calls. Returns the number of pairs before the first that changed
/// something or did not get `TooFar`.
fn flooded(dag: &mut Dag, alloc: Global) -> Result<u16, NoMemory> {
    write(dag, alloc, (0, 0, 0), &[])?;
    certify(dag, alloc, (0, 0, 0))?;
    write(dag, alloc, (3, 0, 0), &[(2, 0, 0)])?;
    for number in 0..1000 {
        if dag.status() != KEPT || !are_too_far(dag, alloc, number)? {
            return Ok(number);
        }
    }
    Ok(1000)
}

#[test]
fn a_flood_beyond_the_window_changes_nothing(rt: HostRuntime) {
    let dag = &mut Dag::new(rt.alloc(), ROOM);
    assert!(rt; matches!(flooded(dag, rt.alloc()), Ok(1000)));
    assert!(rt; dag.status() == KEPT);
}
