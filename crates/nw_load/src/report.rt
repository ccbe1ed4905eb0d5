//! The report of a load.
use std::fmt;

/// The report of a node, after its store settled.
#[derive(Clone, Copy, Debug, PartialEq, Eq)]
pub struct NodeReport {
    /// The number of calls that the store answered.
    pub events: usize,
    /// The number of blocks in the list of the last walk.
    pub last: usize,
}

impl fmt::Display for NodeReport {
    fn fmt<W: fmt::Write>(&self, f: &mut fmt::Formatter<W>) -> fmt::Result {
        let NodeReport { events, last } = self;
        write!(f, "events {events} last {last}")
    }
}
