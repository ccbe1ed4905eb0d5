//! Gates hold threads at named points.
ghost use Rattle.std.specs.Prelude.{◌≡◌, true, false, OnOk, OnErr};

use crate::{GateShut, Point};

/// The maximum number of times that a gate is asked whether a thread may pass a point.
const MAX_ASKS: u32 = 1_000_000;

/// Threads report to a gate which points they reach, and ask it whether they may pass. They share the gate, so its state must be
/// in atomics or behind a lock. `may_pass` may sleep or yield before it returns `false`.
pub trait Gate {
    ghost use Rattle.std.specs.Prelude.{Bool};
    ghost use Rattle.nw_intake.specs.declared.point.Point.{Point};

    /// The answers that the gate may give at a point.
    ghost says: { Self → Point → Bool → Type 0 };

    /// Reports that a thread is at the point.
    fn reach(&self, point: Point);

    /// Whether the thread at the point may pass.
    fn may_pass(&self, point: Point) -> bool
        ensures { says self.now point result };
}

/// A gate that lets every thread pass.
#[derive(Clone, Copy, Debug)]
pub struct FreeGate;

impl Gate for FreeGate {
    ghost use Rattle.std.specs.Prelude.{◌≡◌, true};

    ghost says = { λ _ _ answer. answer ≡ true };

    fn reach(&self, _point: Point) {}

    fn may_pass(&self, _point: Point) -> bool {
        true
    }
}

/// Reports the point to the gate, and asks the gate until it lets the thread pass.
///
/// `GateShut`: the gate refused 1,000,000 times.
pub fn pass_start<G: Gate>(gate: &G, point: Point) -> Result<(), GateShut>
    ensures passed { OnOk result (G.says gate.now point true) }
    ensures shut { OnErr result (G.says gate.now point false) }
{
    gate.reach(point);
    for _ in 1..MAX_ASKS {
        if gate.may_pass(point) {
            return Ok(());
        }
    }
    if gate.may_pass(point) {
        Ok(())
    } else {
        Err(GateShut)
    }
}
