//! Compares two walks.
ghost use Rattle.std.specs.Prelude.{◌≡◌, IfOk, MatchOption};
ghost use Rattle.nw_model.specs.View.{HasBlock};
ghost use Rattle.nw_causal.specs.Agreement.{IsAgreement, IsMatched, IsRival};

use crate::ancestor::Ancestor;
use crate::walks::ancestors;
use nw_codec::Block;
use nw_digest::{Digest, NoMemory, Round, Shared};
use nw_generation::View;
use nw_model::is_same_block;
use std::alloc::Global;

/// The result of comparing the walks of one digest in two views.
#[derive(Debug, Drop)]
pub enum Agreement {
    /// The walks are equal lists.
    Same,
    /// The walks differ: the two views have different blocks under one digest.
    Collision {
        /// The block in the first view.
        one: Shared<Block>,
        /// The block in the other view.
        other: Shared<Block>,
    },
}

/// Compares the walks of the digest in two views with the same floor.
///
/// Returns `Same` exactly when the walks are equal lists. Otherwise it returns two different blocks under one digest, which need not
/// be the given one. Neither block is below the floor. It finds the ancestors in the first view, and looks up each in the other.
///
/// `NoMemory`: an allocation failed.
pub fn agree(alloc: Global, one: &View, other: &View, digest: Digest) -> Result<Agreement, NoMemory>
    requires floor { one.now.frozen.floor ≡ other.now.frozen.floor }
    requires in_one { (b : Block) × HasBlock one.now.frozen digest b }
    requires in_other { (b : Block) × HasBlock other.now.frozen digest b }
    ensures { IfOk result
        (λ agreement. IsAgreement one.now.frozen other.now.frozen digest agreement) }
{
    let found = ancestors(alloc, one, &digest)?;
    let floor = other.floor();
    for ancestor in &found {
        if let Some(rival) = rival(other, floor, ancestor)? {
            return Ok(Agreement::Collision {
                one: ancestor.block.try_clone()?,
                other: rival,
            });
        }
    }
    Ok(Agreement::Same)
}

/// The block under the ancestor's digest in the other view, if it differs from the ancestor's block and is not below the floor.
fn rival(
    other: &View,
    floor: Round,
    ancestor: &Ancestor<'_>,
) -> Result<Option<Shared<Block>>, NoMemory>
    requires { floor ≡ other.now.frozen.floor }
    ensures { IfOk result (λ found. MatchOption found
        (IsMatched other.now.frozen ancestor.now.digest.now ancestor.now.block.now)
        (λ rival. IsRival other.now.frozen ancestor.now.digest.now ancestor.now.block.now rival)) }
{
    if let Some(rival) = other.get(ancestor.digest) {
        let (one, other) = (ancestor.block.get(), rival.get());
        if floor <= other.round && !is_same_block(one, other) {
            return Ok(Some(rival.try_clone()?));
        }
    }
    Ok(None)
}
