//! Dropping the values of lower rounds from a map.
ghost use Rattle.std.specs.Prelude.{◌↔◌, IsTrue, [], ◌∷◌};
ghost use Rattle.std.specs.List.Sorted.{IsStrictlySortedBy};
ghost use Rattle.std.specs.Map.{keys_of, lookup};
ghost use Rattle.std.specs.BTreeMap.{is_at};
ghost use Rattle.nw_digest.specs.Order.{digest_cmp};
ghost use Rattle.nw_state.specs.Dropping.{DropsBelow, IsBelowRound};

use nw_digest::{Digest, InRound, Round};
use nw_trie::DigestMap;
use std::alloc::Global;

/// Drops the values of these digests that belong to rounds below this one.
pub(super) fn drop_below<V: InRound + Drop>(
    entries: &mut DigestMap<V, Global>,
    digests: &[Digest],
    round: Round,
)
    requires { IsStrictlySortedBy digest_cmp (keys_of entries.old) }
    ensures { DropsBelow V.round_of round digests.now entries.old entries.new }
{
    for digest in digests {
        drop_if_below(entries, digest, round);
    }
}

/// Drops the value of the digest if it belongs to a round below this one.
fn drop_if_below<V: InRound + Drop>(
    entries: &mut DigestMap<V, Global>,
    digest: &Digest,
    round: Round,
)
    requires { IsStrictlySortedBy digest_cmp (keys_of entries.old) }
    ensures { DropsBelow V.round_of round (digest.now ∷ []) entries.old entries.new }
{
    if is_below(entries, digest, round) {
        entries.remove(digest);
    }
}

/// Whether the digest has a value of a round below this one.
fn is_below<V: InRound + Drop>(
    entries: &DigestMap<V, Global>,
    digest: &Digest,
    round: Round,
) -> bool
    ensures { IsTrue result
        ↔ IsBelowRound V.round_of round (lookup (is_at (digest_cmp digest.now)) entries.now) }
{
    match entries.get(digest) {
        None => false,
        Some(value) => value.round() < round,
    }
}
