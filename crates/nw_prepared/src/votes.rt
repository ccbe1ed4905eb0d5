//! Verifies votes together: one inversion serves the points of several votes.
ghost use Rattle.std.specs.Prelude.{◌≡◌, if◌then◌else◌, Some, MatchOption, All, take};
ghost use Rattle.nw_codec.specs.Same.{same_bytes};
ghost use Rattle.nw_model.specs.Checks.{IsSealFor};
ghost use Rattle.nw_check.specs.Seals.{IsFirstBad};
ghost use Rattle.nw_curve.specs.Coding.{encoded};
ghost use Rattle.nw_curve.specs.Inverse.{IsInverse, HasInverse};
ghost use Rattle.nw_ed25519.specs.Accepts.{accepts};

use crate::PreparedCommittee;
use nw_codec::Seal;
use nw_curve::{Number, Point};

/// The most votes that share an inversion. Each of them needs a part of the stack.
const TOGETHER: usize = 16;

/// The first signer with a bad signature, and an inverse of the product that the votes were verified with.
#[derive(Drop)]
struct Verdict {
    bad: Option<u16>,
    inverse: Number,
}

/// The signer of the first vote with a bad signature for the text, or `None` if there is no such vote.
pub(crate) fn first_bad(committee: &PreparedCommittee, text: &[u8], votes: &[Seal]) -> Option<u16>
    ensures { MatchOption result (All (IsSealFor accepts committee.now text.now) votes.now)
        (IsFirstBad (IsSealFor accepts committee.now text.now) votes.now) }
{
    if votes.len() <= TOGETHER {
        return verdict_on(committee, text, votes, &Number::one()).bad;
    }
    let front = verdict_on(committee, text, &votes[..TOGETHER], &Number::one());
    match front.bad {
        Some(signer) => Some(signer),
        None => first_bad(committee, text, &votes[TOGETHER..]),
    }
}

/// The first bad vote, and an inverse of the product.
///
/// An inverse of the product with all Z of the votes' points gives, vote by vote from the last, one of each Z.
fn verdict_on(
    committee: &PreparedCommittee,
    text: &[u8],
    votes: &[Seal],
    product: &Number,
) -> Verdict
    requires { HasInverse product.now }
    ensures bad { MatchOption result.bad (All (IsSealFor accepts committee.now text.now) votes.now)
        (IsFirstBad (IsSealFor accepts committee.now text.now) votes.now) }
    ensures inverse { IsInverse product.now result.inverse }
{
    if votes.is_empty() {
        return Verdict {
            bad: None,
            inverse: product.inverse(),
        };
    }
    let vote = &votes[0];
    let Some(point) = committee.expected(vote.signer, text, &vote.signature) else {
        return Verdict {
            bad: Some(vote.signer),
            inverse: product.inverse(),
        };
    };
    let later = verdict_on(committee, text, &votes[1..], &product.times(&point.z));
    let is_good = has_r(vote, &point, &later.inverse.times(product));
    Verdict {
        bad: first_of(is_good, vote.signer, later.bad),
        inverse: later.inverse.times(&point.z),
    }
}

/// Whether the R of the vote's signature is the point's encoding, by an inverse of its Z.
fn has_r(vote: &Seal, point: &Point, inverse: &Number) -> bool
    ensures { IsInverse point.now.z inverse.now
        → result ≡ same_bytes (take 32 vote.now.signature.0) (encoded point.now) }
{
    let r = &vote.signature.0[..32];
    r == point.encoded_by(inverse).as_slice()
}

/// The signer of a vote if it is bad, and otherwise the first bad one of the later votes.
fn first_of(is_good: bool, signer: u16, later: Option<u16>) -> Option<u16>
    ensures { result ≡ (if is_good then later else Some signer) }
{
    if is_good { later } else { Some(signer) }
}
