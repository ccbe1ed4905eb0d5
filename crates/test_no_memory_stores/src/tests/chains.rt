//! Seventeen tickets of a chain, in a store that is then compacted.
use super::asking::{Ask, Row};
use super::examples::{CERTIFIED, STORED, seen};
use super::fixture::Sketch;
use super::*;

/// A block in each of 17 rounds, whose parent is the one before it.
const CHAIN: [Sketch; 17] = [
    Sketch(0, 0, b"", &[]),
    Sketch(1, 0, b"", &[0]),
    Sketch(2, 0, b"", &[1]),
    Sketch(3, 0, b"", &[2]),
    Sketch(4, 0, b"", &[3]),
    Sketch(5, 0, b"", &[4]),
    Sketch(6, 0, b"", &[5]),
    Sketch(7, 0, b"", &[6]),
    Sketch(8, 0, b"", &[7]),
    Sketch(9, 0, b"", &[8]),
    Sketch(10, 0, b"", &[9]),
    Sketch(11, 0, b"", &[10]),
    Sketch(12, 0, b"", &[11]),
    Sketch(13, 0, b"", &[12]),
    Sketch(14, 0, b"", &[13]),
    Sketch(15, 0, b"", &[14]),
    Sketch(16, 0, b"", &[15]),
];

/// Each block is written, certified and opened, and then the store is compacted. A view has at most 16 generations. After `Compact` a new
/// view has one.
const COMPACTED: [Row; 55] = [
    Row(0, Ask::Write, STORED),
    Row(0, Ask::Certify, CERTIFIED),
    Row(0, Ask::Open, "Ready(1)"),
    Row(1, Ask::Write, STORED),
    Row(1, Ask::Certify, CERTIFIED),
    Row(1, Ask::Open, "Ready(2)"),
    Row(2, Ask::Write, STORED),
    Row(2, Ask::Certify, CERTIFIED),
    Row(2, Ask::Open, "Ready(3)"),
    Row(3, Ask::Write, STORED),
    Row(3, Ask::Certify, CERTIFIED),
    Row(3, Ask::Open, "Ready(4)"),
    Row(4, Ask::Write, STORED),
    Row(4, Ask::Certify, CERTIFIED),
    Row(4, Ask::Open, "Ready(5)"),
    Row(5, Ask::Write, STORED),
    Row(5, Ask::Certify, CERTIFIED),
    Row(5, Ask::Open, "Ready(6)"),
    Row(6, Ask::Write, STORED),
    Row(6, Ask::Certify, CERTIFIED),
    Row(6, Ask::Open, "Ready(7)"),
    Row(7, Ask::Write, STORED),
    Row(7, Ask::Certify, CERTIFIED),
    Row(7, Ask::Open, "Ready(8)"),
    Row(8, Ask::Write, STORED),
    Row(8, Ask::Certify, CERTIFIED),
    Row(8, Ask::Open, "Ready(9)"),
    Row(9, Ask::Write, STORED),
    Row(9, Ask::Certify, CERTIFIED),
    Row(9, Ask::Open, "Ready(10)"),
    Row(10, Ask::Write, STORED),
    Row(10, Ask::Certify, CERTIFIED),
    Row(10, Ask::Open, "Ready(11)"),
    Row(11, Ask::Write, STORED),
    Row(11, Ask::Certify, CERTIFIED),
    Row(11, Ask::Open, "Ready(12)"),
    Row(12, Ask::Write, STORED),
    Row(12, Ask::Certify, CERTIFIED),
    Row(12, Ask::Open, "Ready(13)"),
    Row(13, Ask::Write, STORED),
    Row(13, Ask::Certify, CERTIFIED),
    Row(13, Ask::Open, "Ready(14)"),
    Row(14, Ask::Write, STORED),
    Row(14, Ask::Certify, CERTIFIED),
    Row(14, Ask::Open, "Ready(15)"),
    Row(15, Ask::Write, STORED),
    Row(15, Ask::Certify, CERTIFIED),
    Row(15, Ask::Open, "Ready(16)"),
    Row(16, Ask::Write, STORED),
    Row(16, Ask::Certify, CERTIFIED),
    Row(16, Ask::Open, "Ready(2)"),
    Row(16, Ask::Compact, "Ready(2)"),
    Row(16, Ask::Walk(16), ALL),
    Row(0, Ask::Walk(0), "List([0])"),
    Row(16, Ask::Open, "Ready(1)"),
];

const ALL: &str = "List([0, 1, 2, 3, 4, 5, 6, 7, 8, 9, 10, 11, 12, 13, 14, 15, 16])";

#[test]
fn seventeen_tickets_of_a_chain_compacted(rt: HostRuntime) -> Result<(), Fail> {
    let seen = seen(&rt, rt.alloc(), &[0], &CHAIN, &COMPACTED)?;
    assert_eq!(rt; seen, (55, 52));
    Ok(())
}
