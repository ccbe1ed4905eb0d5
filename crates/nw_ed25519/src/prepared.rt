//! The point that a verification compares with R, by combs.
ghost use Rattle.std.specs.Prelude.{◌≡◌, ℕ, ◌/◌, ◌<◌, ◌^◌, List, Some};
ghost use Rattle.nw_curve.specs.Coding.{decoded, encoded};
ghost use Rattle.nw_curve.specs.Inverse.{HasInverse};
ghost use Rattle.nw_curve.specs.Curve.{base, doubled, negated};
ghost use Rattle.nw_curve.specs.Completed.{point_of};
ghost use Rattle.nw_curve.specs.declared.curve.point.Point.{Point};
ghost use Rattle.nw_ed25519.specs.Accepts.{expected};
ghost use Rattle.nw_ed25519.specs.Comb.{rows, with_rows};

use crate::comb::{Comb, ROWS, digit};
use nw_curve::{CompletedPoint, Point, Whole};

/// The point [s]B - [k]A by the combs of B and of -A, whose digits have 8 and 4 bits.
pub fn expected_by_combs(bases: &Comb, keys: &Comb, s: &Whole, k: &Whole) -> Point
    requires s { s.now < 2 ^ 253 }
    requires k { k.now < 2 ^ 253 }
    ensures { (bytes : List ℕ) (p : Point) → decoded bytes ≡ Some p → bases.now.bits ≡ 8 → keys.now.bits ≡ 4
        → bases.now.entries.items ≡ rows 16 16 base → keys.now.entries.items ≡ rows 1 16 (negated p)
        → HasInverse result.z × (encoded result ≡ expected s.now k.now p) }
{
    let highest = with_rows(CompletedPoint::identity(), keys, k, 12);
    let upper = doubled_with_rows(highest, keys, k, 8);
    let half = with_rows(upper, bases, s, 8);
    let middle = doubled_with_rows(half, keys, k, 4);
    let lower = doubled_with_rows(middle, keys, k, 0);
    with_rows(lower, bases, s, 0).point()
}

/// The point times 16, and an entry of each row of the comb.
fn doubled_with_rows(
    start: CompletedPoint,
    comb: &Comb,
    number: &Whole,
    shift: u32,
) -> CompletedPoint
    requires { shift < 16 }
    ensures { (p : Point) → comb.now.entries.items ≡ rows (2 ^ comb.now.bits / 16) 16 p
        → point_of result ≡ with_rows comb.now.bits 16 shift number.now
        (doubled (doubled (doubled (doubled (point_of start))))) p }
{
    with_rows(four_times_doubled(start), comb, number, shift)
}

/// The point times 16.
fn four_times_doubled(point: CompletedPoint) -> CompletedPoint
    ensures { point_of result ≡ doubled (doubled (doubled (doubled (point_of point)))) }
{
    point.doubled().doubled().doubled().doubled()
}

/// The point, and an entry of each row of the comb: by the digits of the number from bit `shift` of each row's 16 bits on.
fn with_rows(start: CompletedPoint, comb: &Comb, number: &Whole, shift: u32) -> CompletedPoint
    requires { shift < 16 }
    ensures { (p : Point) → comb.now.entries.items ≡ rows (2 ^ comb.now.bits / 16) 16 p
        → point_of result ≡ with_rows comb.now.bits 16 shift number.now (point_of start) p }
{
    let mut partial = start;
    for row in 0..ROWS {
        let entry = comb.entry(row, digit(number, row, shift, comb.bits()));
        partial = CompletedPoint::of_affine_sum(&partial.point(), entry);
    }
    partial
}
