//! Ancestors that were looked up in a view.
ghost use Rattle.std.specs.Prelude.{◌≡◌, Some};
ghost use Rattle.std.specs.FinMap as map;
ghost use Rattle.nw_generation.specs.Seen.{IsOfRound};

use nw_codec::Block;
use nw_digest::{Digest, Round, Shared};
use nw_generation::Descent;

/// A digest, and the block that the view has under it.
#[derive(Drop)]
pub struct Ancestor<'a> {
    pub digest: &'a Digest,
    pub block: &'a Shared<Block>,
}

impl<'a> Ancestor<'a> {
    /// Looks up the block under the digest, which the search must find. If a slot is given, the block must be of its round.
    pub(crate) fn look_up(
        descent: &Descent<'a>,
        slot: Option<(Round, u16)>,
        digest: &'a Digest,
    ) -> Ancestor<'a>
        requires there { (b : Block) × (map.get descent.now digest.now ≡ Some b) }
        requires slot { IsOfRound slot (map.get descent.now digest.now) }
        ensures digest { result.digest.now ≡ digest.now }
        ensures block { map.get descent.now digest.now ≡ Some result.block.now }
    {
        let Some(block) = descent.get(slot, digest) else {
            unreachable!()
        };
        Ancestor { digest, block }
    }
}
