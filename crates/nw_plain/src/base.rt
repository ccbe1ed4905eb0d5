//! Bases: stores that never change.
ghost use Rattle.std.specs.Prelude.{◌≡◌, ◌↔◌, IsTrue};
ghost use Rattle.std.specs.Option.{option_copied};
ghost use Rattle.std.specs.FinMap as map;
ghost use Rattle.nw_model.specs.State.{opening};

use crate::Plain;
use nw_codec::{Block, Certificate};
use nw_digest::{Digest, Round};
use std::marker::Model;

/// A store that never changes. Other stores and histories start from it. Contracts see its state and its bounds.
#[derive(Drop)]
pub struct Base {
    plain: Plain,
}

impl Model for Base {
    ghost use Rattle.nw_model.specs.Step.{BoundedState, coded_bounded_state};

    ghost Value = { BoundedState };

    ghost coded = { coded_bounded_state };

    ghost view = { λ b. b.plain };
}

impl Base {
    /// A base with the store's state and bounds. Allocates nothing.
    pub fn of(plain: Plain) -> Base
        ensures { result ≡ plain }
    {
        Base { plain }
    }

    /// The garbage round: nothing of a lower round is kept.
    pub fn floor(&self) -> Round
        ensures { result ≡ self.now.state.floor }
    {
        self.plain.floor()
    }

    /// The block that is held under the digest, if there is one.
    pub fn block(&self, digest: &Digest) -> Option<&Block>
        ensures { option_copied result ≡ map.get self.now.state.blocks digest.now }
    {
        self.plain.block(digest)
    }

    /// The certificate that is kept for the digest, if there is one.
    pub fn certificate(&self, digest: &Digest) -> Option<&Certificate>
        ensures { option_copied result ≡ map.get self.now.state.certificates digest.now }
    {
        self.plain.certificate(digest)
    }

    /// The first digest of the round and author, if there is one.
    pub fn first(&self, round: Round, author: u16) -> Option<Digest>
        ensures { result ≡ map.get self.now.state.firsts (round, author) }
    {
        self.plain.first(round, author)
    }

    /// Whether its state is the opening state: three empty maps, and garbage round 0.
    pub fn is_opening(&self) -> bool
        ensures { IsTrue result ↔ self.now.state ≡ opening }
    {
        self.plain.is_opening()
    }

    /// Whether the two bases have the same state and the same bounds. Allocates nothing, and compares each entry once.
    pub fn is_same(&self, other: &Base) -> bool
        ensures { IsTrue result ↔ self.now ≡ other.now }
    {
        self.plain.is_same(&other.plain)
    }

    /// The store itself.
    pub(crate) fn plain(&self) -> &Plain
        ensures { result.now ≡ self.now }
    {
        &self.plain
    }
}
