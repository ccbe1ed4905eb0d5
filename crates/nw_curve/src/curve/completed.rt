//! Points before the last four products of a sum or a doubling.
ghost use Rattle.std.specs.Prelude.{◌≡◌, ℕ};
ghost use Rattle.nw_curve.specs.Curve.{identity, added, doubled};
ghost use Rattle.nw_curve.specs.Completed.{affine_prepared, prepared, point_of};
ghost use Rattle.nw_curve.specs.declared.curve.point.Point.{Point};

use super::Point;
use super::constants::twice_d;
use crate::field::Number;

/// A point as the numbers E, F, G and H of RFC 8032, section 5.1.4. Each coordinate of the point is the product of two of them.
#[derive(Debug, Drop)]
pub struct CompletedPoint {
    pub e: Number,
    pub f: Number,
    pub g: Number,
    pub h: Number,
}

impl CompletedPoint {
    /// The neutral element.
    #[tactic(auto, unfolding(crate::specs::Field::prime))]
    pub fn identity() -> CompletedPoint
        ensures { point_of result ≡ identity }
    {
        CompletedPoint {
            e: Number::zero(),
            f: Number::one(),
            g: Number::one(),
            h: Number::one(),
        }
    }

    /// The point in extended coordinates.
    #[inline(always)]
    pub fn point(&self) -> Point
        ensures { result ≡ point_of self.now }
    {
        Point {
            x: self.e.times(&self.f),
            y: self.g.times(&self.h),
            z: self.f.times(&self.g),
            t: self.e.times(&self.h),
        }
    }

    /// Twice the point. It does not compute the point's T, which a doubling does not use.
    #[inline(always)]
    pub fn doubled(&self) -> CompletedPoint
        ensures { point_of result ≡ doubled (point_of self.now) }
    {
        // A doubling computes E last, so the product with E comes last.
        let y = self.g.times(&self.h);
        let z = self.f.times(&self.g);
        let x = self.e.times(&self.f);
        CompletedPoint::of_twice(&x, &y, &z)
    }

    /// Twice the point with these coordinates. A doubling does not use T.
    #[inline(always)]
    #[tactic(auto, unfolding(crate::specs::Curve::doubled))]
    pub fn of_twice(x: &Number, y: &Number, z: &Number) -> CompletedPoint
        ensures { (t : ℕ) → point_of result
            ≡ doubled (record { x = x.now; y = y.now; z = z.now; t = t }) }
    {
        let b = y.square();
        let square = z.square();
        let c = square.plus(&square);
        let a = x.square();
        let sum = x.plus(y).square();
        let h = a.plus(&b);
        let g = a.minus(&b);
        let e = h.minus(&sum);
        CompletedPoint {
            e,
            f: c.plus(&g),
            g,
            h,
        }
    }

    /// The sum of a point and a prepared point.
    #[inline(always)]
    #[tactic(auto, unfolding(crate::specs::Curve::added, crate::specs::Completed::prepared), using(crate::proofs::Products::times_times, crate::proofs::Products::twice_times))]
    pub fn of_sum(point: &Point, addend: &Addend) -> CompletedPoint
        ensures { (p : Point) → addend.now ≡ prepared p → point_of result ≡ added point.now p }
    {
        let a = point.y.minus(&point.x).times(&addend.difference);
        let b = point.y.plus(&point.x).times(&addend.sum);
        let c = point.t.times(&addend.twice_d_t);
        let d = point.z.times(&addend.twice_z);
        CompletedPoint {
            e: b.minus(&a),
            f: d.minus(&c),
            g: d.plus(&c),
            h: b.plus(&a),
        }
    }

    /// The sum of a point and a prepared point whose Z is 1. It needs one multiplication less.
    #[inline(always)]
    #[tactic(auto, unfolding(crate::specs::Curve::added, crate::specs::Completed::affine_prepared), using(crate::proofs::Products::times_times, crate::proofs::Products::twice_one))]
    pub fn of_affine_sum(point: &Point, addend: &AffineAddend) -> CompletedPoint
        ensures { (p : Point) → addend.now ≡ affine_prepared p → p.z ≡ 1
            → point_of result ≡ added point.now p }
    {
        let a = point.y.minus(&point.x).times(&addend.difference);
        let b = point.y.plus(&point.x).times(&addend.sum);
        let c = point.t.times(&addend.twice_d_t);
        let d = point.z.plus(&point.z);
        CompletedPoint {
            e: b.minus(&a),
            f: d.minus(&c),
            g: d.plus(&c),
            h: b.plus(&a),
        }
    }
}

/// A point prepared for many sums: Y - X, Y + X, 2 Z and 2 d T.
#[derive(Debug, Drop)]
pub struct Addend {
    pub difference: Number,
    pub sum: Number,
    pub twice_z: Number,
    pub twice_d_t: Number,
}

impl Addend {
    /// Prepares the point.
    #[tactic(auto, unfolding(crate::specs::Completed::prepared))]
    pub fn of(point: &Point) -> Addend
        ensures { result ≡ prepared point.now }
    {
        Addend {
            difference: point.y.minus(&point.x),
            sum: point.y.plus(&point.x),
            twice_z: point.z.plus(&point.z),
            twice_d_t: twice_d().times(&point.t),
        }
    }
}

/// A point with Z 1 prepared for many sums: Y - X, Y + X and 2 d T.
#[derive(Debug, Drop)]
pub struct AffineAddend {
    pub difference: Number,
    pub sum: Number,
    pub twice_d_t: Number,
}

impl AffineAddend {
    /// Prepares the point, whose Z must be 1.
    #[tactic(auto, unfolding(crate::specs::Completed::affine_prepared))]
    pub fn of(point: &Point) -> AffineAddend
        ensures { result ≡ affine_prepared point.now }
    {
        AffineAddend {
            difference: point.y.minus(&point.x),
            sum: point.y.plus(&point.x),
            twice_d_t: twice_d().times(&point.t),
        }
    }
}
