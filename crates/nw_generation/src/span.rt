//! The range of rounds of blocks.
ghost use Rattle.std.specs.Prelude.{◌↔◌, ℕ, All, IsTrue, Some};
ghost use Rattle.nw_generation.specs.Seen.{IsWithin};

use crate::entries::Entry;
use nw_digest::{InRound, Round};

/// The lowest and the highest round of the blocks, or `None` if there are no blocks. The contract says only that all rounds lie
/// between the two.
pub(crate) fn rounds_of(entries: &[Entry]) -> Option<(Round, Round)>
    ensures { All (λ e. IsWithin result e.1.round) entries.now }
{
    let mut rounds = None;
    for entry in entries {
        rounds = Some(widened(rounds, entry.1.round()));
    }
    rounds
}

/// The range, widened to include the round.
fn widened(rounds: Option<(Round, Round)>, round: Round) -> (Round, Round)
    ensures this { IsWithin (Some result) round }
    ensures those { (other : ℕ) → IsWithin rounds other → IsWithin (Some result) other }
{
    match rounds {
        None => (round, round),
        Some((least, greatest)) => (least.min(round), greatest.max(round)),
    }
}

/// Whether the range includes the round.
pub(crate) fn is_within(rounds: Option<(Round, Round)>, round: Round) -> bool
    ensures { IsTrue result ↔ IsWithin rounds round }
{
    match rounds {
        None => false,
        Some((least, greatest)) => least <= round && round <= greatest,
    }
}
