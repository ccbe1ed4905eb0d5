//! What a state has in a slot.

use nw_digest::{Digest, Round};

/// What a state has in a slot, that is, for a round and an author.
#[derive(Clone, Copy, Debug, PartialEq, Eq)]
pub struct Look {
    /// The garbage round.
    pub floor: Round,
    /// The newest round with a first or a certified digest, or the garbage round if none is newer.
    pub newest: Round,
    /// The first digest of the slot, if it has one.
    pub first: Option<Digest>,
    /// How many parents the block of the first digest misses. 0 if there is none.
    pub missing: usize,
    /// The certified digest of the slot, if it has one.
    pub certified: Option<Digest>,
    /// Whether the block of the certified digest is held.
    pub stands: bool,
    /// Whether the certified digest is complete.
    pub complete: bool,
}
