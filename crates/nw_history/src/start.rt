//! The start of a history.
ghost use Rattle.std.specs.Prelude.{◌≡◌, ◌↔◌, IsTrue, IfSome, IsNone};
ghost use Rattle.nw_model.specs.State.{opening};
ghost use Rattle.nw_history.specs.Story.{bounds_of};

use crate::Limits;
use nw_committee::Committee;
use nw_digest::Shared;
use nw_plain::Base;
use std::marker::Model;

/// The start of a history: the committee, the limits, and the base. All fronts of one history share it.
#[derive(Drop)]
pub(crate) struct Start {
    committee: Shared<Committee>,
    limits: Limits,
    base: Base,
}

impl Model for Start {
    ghost use Rattle.std.specs.Prelude.{◌≡◌};
    ghost use Rattle.std.specs.Coded.{codes};
    ghost use Rattle.nw_model.specs.State.{coded_state};
    ghost use Rattle.nw_history.specs.Story.{Origin, bounds_of};

    ghost Value = { Origin };

    ghost coded = { Prim.hlevel (codes, coded_state) };

    ghost view = { λ s. record {
      committee = s.committee;
      limits = s.limits;
      base = s.base.state;
    } };

    ghost invariant = { λ s. s.base.bounds ≡ bounds_of s.limits };
}

impl Start {
    /// The start with this committee, these limits and this base. Allocates no memory.
    pub(crate) fn new(committee: Shared<Committee>, limits: Limits, base: Base) -> Start
        requires { base.bounds ≡ bounds_of limits }
        ensures { result ≡ record { committee = committee; limits = limits; base = base.state } }
    {
        Start {
            committee,
            limits,
            base,
        }
    }

    /// The committee.
    pub(crate) fn committee(&self) -> &Shared<Committee>
        ensures { result.now ≡ self.now.committee }
    {
        &self.committee
    }

    /// The limits.
    pub(crate) fn limits(&self) -> Limits
        ensures { result ≡ self.now.limits }
    {
        self.limits
    }

    /// The base, or `None` if it is the opening state.
    pub(crate) fn base(&self) -> Option<&Base>
        ensures base { IfSome result (λ base.
            base.now ≡ record { bounds = bounds_of self.now.limits; state = self.now.base }) }
        ensures opening { IsNone result ↔ self.now.base ≡ opening }
    {
        if self.base.is_opening() {
            None
        } else {
            Some(&self.base)
        }
    }

    /// Whether the other start has the same committee, limits and base.
    pub(crate) fn is_same(&self, other: &Start) -> bool
        ensures { IsTrue result ↔ self.now ≡ other.now }
    {
        // `eq` is called by name, because the proof needs its clause `same`.
        self.committee.get().eq(other.committee.get())
            && self.limits.is_same(&other.limits)
            && self.base.is_same(&other.base)
    }
}
