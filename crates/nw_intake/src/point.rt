//! Named points that threads reach.

/// A point that a thread reaches and reports to its gate. A check has the place of its message, counted from 0. A walk or a write
/// has the number of its node (a validator of a load), and its own number at that node.
#[derive(Clone, Copy, Debug, PartialEq, Eq)]
pub enum Point {
    /// The check of the message at this place is about to start.
    CheckStart(u32),
    /// The check of the message at this place is done.
    CheckDone(u32),
    /// A walk is about to start.
    WalkStart { node: u32, number: u32 },
    /// A walk is done.
    WalkDone { node: u32, number: u32 },
    /// A write is about to start.
    WriteStart { node: u32, number: u32 },
    /// A write is done.
    WriteDone { node: u32, number: u32 },
}
