//! Wanted parents.

use nw_digest::{Digest, Round};

/// A wanted parent: the block with this round, author and digest. Ordered by these fields.
#[derive(Clone, Copy, Debug, PartialEq, Eq, PartialOrd, Ord)]
pub struct Wanted {
    pub round: Round,
    pub author: u16,
    pub digest: Digest,
}
