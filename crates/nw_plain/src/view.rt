//! Views: the complete blocks of one moment.
ghost use Rattle.std.specs.Prelude.{◌≡◌};
ghost use Rattle.std.specs.Option.{option_copied};
ghost use Rattle.std.specs.FinMap as map;
ghost use Rattle.nw_model.specs.View.{IsClosed};

use nw_codec::Block;
use nw_digest::{Digest, Round, Shared};
use std::collections::BTreeMap;
use std::marker::Model;

/// Blocks under their digests, and a floor. The view is closed. It has each parent of a block above the floor, with the named author
/// and the preceding round. No two blocks at or above the floor share a round and author.
#[derive(Drop)]
pub(crate) struct View {
    blocks: BTreeMap<Digest, Shared<Block>>,
    floor: Round,
}

impl Model for View {
    ghost use Rattle.std.specs.FinMap as map;
    ghost use Rattle.nw_model.specs.View.{Frozen, IsClosed, coded_frozen};

    ghost Value = { Frozen };

    ghost coded = { coded_frozen };

    ghost view = { λ v. record { blocks = map.from_entries v.blocks.entries; floor = v.floor } };

    ghost invariant = { λ v.
        IsClosed (record { blocks = map.from_entries v.blocks.entries; floor = v.floor }) };
}

impl View {
    /// The view of these blocks, with this floor. Allocates nothing.
    pub(crate) fn new(blocks: BTreeMap<Digest, Shared<Block>>, floor: Round) -> View
        requires { IsClosed (record { blocks = map.from_entries blocks.entries; floor = floor }) }
        ensures { result ≡ record { blocks = map.from_entries blocks.entries; floor = floor } }
    {
        View { blocks, floor }
    }

    /// The block under the digest, if there is one.
    pub(crate) fn get(&self, digest: &Digest) -> Option<&Shared<Block>>
        ensures block { option_copied result ≡ map.get self.now.blocks digest.now }
        ensures closed { IsClosed self.now }
    {
        self.blocks.get(digest)
    }

    /// The floor: walks use no block of a lower round.
    pub(crate) fn floor(&self) -> Round
        ensures floor { result ≡ self.now.floor }
        ensures closed { IsClosed self.now }
    {
        self.floor
    }
}
