//! Worked examples, as scripts of one or more sessions.
use super::asking::Ask;
use super::chains::{Link, chain, link_over};
use super::late::{CERTIFIED, STORED};
use super::scenes::{Scene, played};
use super::scripts::{PARENT, Row};
use super::settling::Seen;
use super::tasks::Crew;
use super::*;
use samples::block_with;
use std::sync::Wait;
use std::thread::Threads;

/// Asks the rows in sessions of a store with these limits, whose committee has this many members. Then settles the sessions.
fn asked<R: Threads + Wait + Sync>(
    rt: &R,
    alloc: Global,
    (members, limits): (u16, Limits),
    links: Vec<Link>,
    rows: &[Row],
) -> Result<Seen, Fail> {
    let sessions = u16::try_from(limits.sessions)?;
    let crew = Crew::new(links, Vec::new(alloc), limits);
    let book = book(alloc, members, limits)?;
    let seen = played(rt, alloc, book, &Scene::Script(sessions, rows, &crew));
    drop(crew);
    seen
}

const COUNTS: &str =
    "Status(Counts { floor: Round { number: 0 }, blocks: 2, certificates: 1, complete: 1, wanted: 1 })";

/// Every kind of call: for a block, and for a block of the next round whose parent is not held.
const DIALOGUE: [Row; 12] = [
    Row(0, 0, Ask::Write, STORED),
    Row(0, 0, Ask::Write, "Write(Held)"),
    Row(0, 0, Ask::Certify, CERTIFIED),
    Row(0, 0, Ask::Certificate, "Certificate(true)"),
    Row(0, 0, Ask::Read, "Read(true)"),
    Row(0, 0, Ask::Open, "Ready"),
    Row(0, 1, Ask::Write, STORED),
    Row(0, 1, Ask::Missing, "Missing(0, 0, true)"),
    Row(0, 1, Ask::Status, COUNTS),
    Row(0, 1, Ask::Open, "Causal(Uncertified)"),
    Row(0, 1, Ask::Collect, "Collect(Raised { dropped: 1 })"),
    Row(0, 0, Ask::Read, "Read(None)"),
];

#[test]
fn a_journal_has_each_call_and_its_reply(rt: HostRuntime) -> Result<(), Fail> {
    let alloc = rt.alloc();
    let mut links = chain(alloc, 1)?;
    links.push(link_over(alloc, &committee(alloc, 1)?, 0, 1, &[PARENT])?)?;
    let seen = asked(&rt, alloc, (1, limits(1024, 1)), links, &DIALOGUE)?;
    assert_eq!(rt; (seen.events, seen.recorded), (12, 12));
    Ok(())
}

/// The first session writes, and the second reads.
const WRITTEN: [Row; 2] = [
    Row(0, 0, Ask::Write, STORED),
    Row(1, 0, Ask::Read, "Read(true)"),
];

#[test]
fn a_second_session_reads_what_the_first_wrote(rt: HostRuntime) -> Result<(), Fail> {
    let alloc = rt.alloc();
    let one = committee(alloc, 1)?;
    let block = block_with(alloc, &one, b"x")?;
    let digest = block.digest();
    let certificate = certificate(alloc, &one, 0, 0, digest)?;
    let links = vec![in alloc; Link { block, certificate }]?;
    let seen = asked(&rt, alloc, (1, limits(1024, 2)), links, &WRITTEN)?;
    assert_eq!(rt; (seen.withheld, seen.events, seen.recorded), ((2, 1), 2, 2));
    Ok(())
}

/// The first two of three sessions read once, and the third makes no call.
const SILENT: [Row; 2] = [
    Row(0, 0, Ask::Read, "Read(None)"),
    Row(1, 0, Ask::Read, "Read(None)"),
];

#[test]
fn sessions_settle_once_all_of_them_are_given(rt: HostRuntime) -> Result<(), Fail> {
    let alloc = rt.alloc();
    let seen = asked(&rt, alloc, (1, limits(1024, 3)), chain(alloc, 1)?, &SILENT)?;
    assert_eq!(rt; (seen.withheld, seen.events, seen.recorded), ((3, 2), 2, 2));
    Ok(())
}

/// Writes of another committee's block, and then reads, in a store whose history may have one event.
const REFUSED: [Row; 4] = [
    Row(0, 0, Ask::Write, "refused OtherCommittee"),
    Row(0, 0, Ask::Write, "refused OtherCommittee"),
    Row(0, 0, Ask::Read, "Read(None)"),
    Row(0, 0, Ask::Read, "refused HistoryFull"),
];

/// A write of the same block in a store of its own committee.
const TAKEN: [Row; 1] = [Row(0, 0, Ask::Write, STORED)];

#[test]
fn a_refused_call_can_be_followed_by_others(rt: HostRuntime) -> Result<(), Fail> {
    let alloc = rt.alloc();
    for (members, rows) in [(1, REFUSED.as_slice()), (4, TAKEN.as_slice())] {
        let links = vec![in alloc; link_over(alloc, &committee(alloc, 4)?, 0, 0, &[])?]?;
        let seen = asked(&rt, alloc, (members, limits(1, 1)), links, rows)?;
        assert_eq!(rt; (seen.events, seen.recorded), (1, 1), "{members}");
    }
    Ok(())
}

/// Limits of 513 events and one session.
const FULL: Limits = Limits {
    blocks: 16,
    events: 513,
    window: 4,
    sessions: 1,
};

#[test]
fn fronts_of_513_events_share_chunks(rt: HostRuntime) -> Result<(), Fail> {
    let alloc = rt.alloc();
    let mut rows = [Row(0, 0, Ask::Read, "Read(true)"); 514];
    rows[0] = Row(0, 0, Ask::Write, STORED);
    rows[513] = Row(0, 0, Ask::Read, "refused HistoryFull");
    let seen = asked(&rt, alloc, (1, FULL), chain(alloc, 1)?, &rows)?;
    assert_eq!(rt; (seen.events, seen.recorded), (513, 513));
    let measured = [(255, 255), (256, 1), (257, 2), (513, 3)];
    assert_eq!(rt; seen.measured, measured);
    Ok(())
}

/// Rows that write, certify and open each block of a chain of seventeen.
fn openings(alloc: Global) -> Result<Vec<Row>, Fail> {
    let mut rows = Vec::new(alloc);
    for place in 0..17 {
        rows.push(Row(0, place, Ask::Write, STORED))?;
        rows.push(Row(0, place, Ask::Certify, CERTIFIED))?;
        rows.push(Row(0, place, Ask::Open, "Ready"))?;
    }
    Ok(rows)
}

const WHOLE: &str = "List([0, 1, 2, 3, 4, 5, 6, 7, 8, 9, 10, 11, 12, 13, 14, 15, 16])";

/// Counts the generations of the last ticket's view before and after the store is compacted, and then those of a new ticket's view.
const COMPACTED: [Row; 7] = [
    Row(0, 16, Ask::Parts, "Parts(2)"),
    Row(0, 16, Ask::Compact, ""),
    Row(0, 16, Ask::Parts, "Parts(2)"),
    Row(0, 16, Ask::Walk, WHOLE),
    Row(0, 16, Ask::Open, "Ready"),
    Row(0, 16, Ask::Parts, "Parts(1)"),
    Row(0, 16, Ask::Walk, WHOLE),
];

#[test]
fn views_of_a_store_share_what_was_frozen(rt: HostRuntime) -> Result<(), Fail> {
    let alloc = rt.alloc();
    let mut rows = openings(alloc)?;
    rows.extend_from_slice(&COMPACTED)?;
    let seen = asked(&rt, alloc, (1, limits(1024, 1)), chain(alloc, 17)?, &rows)?;
    assert_eq!(rt; (seen.events, seen.recorded), (17 * 3 + 1, 17 * 3 + 1));
    Ok(())
}
