//! A walk that starts after a collection in another thread: the rows of both sessions.
use super::asking::Ask;
use super::scripts::Row;
use nw_intake::Point;

pub(super) const STORED: &str = "Write(Stored { vote: true })";

pub(super) const CERTIFIED: &str = "Certify(Certified)";

/// Session 0 writes and certifies the first four blocks of a chain.
pub(super) const BEFORE: [Row; 8] = [
    Row(0, 0, Ask::Write, STORED),
    Row(0, 0, Ask::Certify, CERTIFIED),
    Row(0, 1, Ask::Write, STORED),
    Row(0, 1, Ask::Certify, CERTIFIED),
    Row(0, 2, Ask::Write, STORED),
    Row(0, 2, Ask::Certify, CERTIFIED),
    Row(0, 3, Ask::Write, STORED),
    Row(0, 3, Ask::Certify, CERTIFIED),
];

const WALK_START: Point = Point::WalkStart { node: 0, number: 1 };

const WRITE_START: Point = Point::WriteStart { node: 0, number: 1 };

const WRITE_DONE: Point = Point::WriteDone { node: 0, number: 1 };

/// Session 1 then opens a read of the last block, and reaches the start of its walk. After that, session 0, in another thread,
/// collects the rounds below that block, and writes and certifies the next block. Only then does the walk start. After the walk,
/// session 1 opens the read again.
pub(super) const BESIDE: [Row; 11] = [
    Row(1, 3, Ask::Open, "Ready"),
    Row(0, 3, Ask::Start(WRITE_START), ""),
    Row(0, 3, Ask::Collect, "Collect(Raised { dropped: 3 })"),
    Row(0, 4, Ask::Write, STORED),
    Row(0, 4, Ask::Certify, CERTIFIED),
    Row(0, 4, Ask::Reach(WRITE_DONE), ""),
    Row(1, 3, Ask::Start(WALK_START), ""),
    Row(1, 3, Ask::Walk, "List([0, 1, 2, 3])"),
    Row(1, 3, Ask::Open, "Ready"),
    Row(1, 3, Ask::Walk, "List([3])"),
    Row(1, 0, Ask::Read, "Read(None)"),
];
