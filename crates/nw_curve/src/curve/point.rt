//! Points in extended coordinates.
ghost use Rattle.std.specs.Prelude.{◌≡◌};
ghost use Rattle.nw_curve.specs.Completed.{prepared, normalized};
ghost use Rattle.nw_curve.specs.Inverse.{IsInverse};
ghost use Rattle.nw_curve.specs.declared.curve.point.Point.{Point};
ghost use Rattle.nw_curve.specs.Curve.{base, identity, added, doubled, negated};

use super::completed::{Addend, CompletedPoint};
use super::constants::{base_t, base_x, base_y};
use crate::field::Number;

/// A point in extended coordinates X, Y, Z and T: x is X / Z, y is Y / Z, and x y is T / Z.
#[derive(Debug, Drop)]
pub struct Point {
    pub x: Number,
    pub y: Number,
    pub z: Number,
    pub t: Number,
}

impl Point {
    /// The neutral element.
    pub fn identity() -> Point
        ensures { result ≡ identity }
    {
        Point {
            x: Number::zero(),
            y: Number::one(),
            z: Number::one(),
            t: Number::zero(),
        }
    }

    /// The base point.
    #[tactic(auto, unfolding(crate::specs::Curve::base))]
    pub fn base() -> Point
        ensures { result ≡ base }
    {
        Point {
            x: base_x(),
            y: base_y(),
            z: Number::one(),
            t: base_t(),
        }
    }

    /// The sum.
    pub fn added(&self, other: &Point) -> Point
        ensures { result ≡ added self.now other.now }
    {
        self.plus(&Addend::of(other))
    }

    /// The sum with a prepared point.
    pub fn plus(&self, addend: &Addend) -> Point
        ensures { (p : Point) → addend.now ≡ prepared p → result ≡ added self.now p }
    {
        CompletedPoint::of_sum(self, addend).point()
    }

    /// Twice the point.
    pub fn doubled(&self) -> Point
        ensures { result ≡ doubled self.now }
    {
        CompletedPoint::of_twice(&self.x, &self.y, &self.z).point()
    }

    /// The same point with Z 1, by an inverse of its Z. So a caller can compute the inverses of many Z at once.
    #[tactic(auto, using(crate::proofs::Inverses::scaled_normalizes))]
    pub fn normalized_by(&self, inverse: &Number) -> Point
        ensures { IsInverse self.now.z inverse.now → result ≡ normalized self.now }
    {
        Point {
            x: self.x.times(inverse),
            y: self.y.times(inverse),
            z: Number::one(),
            t: self.t.times(inverse),
        }
    }

    /// The negative of the point: the same y, and -x.
    pub fn negated(self) -> Point
        ensures { result ≡ negated self }
    {
        let Point { x, y, z, t } = self;
        Point {
            x: x.negative(),
            y,
            z,
            t: t.negative(),
        }
    }
}
