//! Tables of odd multiples of a point.
ghost use Rattle.std.specs.Prelude.{◌≡◌, ◌==◌, ◌/◌, ◌<◌, if◌then◌else◌};
ghost use Rattle.nw_curve.specs.Curve.{added, base};
ghost use Rattle.nw_curve.specs.Completed.{normalized, point_of};
ghost use Rattle.nw_curve.specs.Table.{odd_multiple, odd_multiples};
ghost use Rattle.nw_curve.specs.declared.curve.point.Point.{Point};

use super::Point;
use super::base_table::odd_multiple_of_base;
use super::completed::{Addend, CompletedPoint};

/// The multiples of a point by 1, 3, 5 and so on up to 15, prepared for sums.
#[derive(Debug, Drop)]
pub struct Table {
    entries: [Addend; 8],
}

impl Table {
    /// The table of the point.
    pub fn of(point: &Point) -> Table
        ensures { result.entries ≡ odd_multiples point.now }
    {
        let double = Addend::of(&point.doubled());
        let third = point.plus(&double);
        let fifth = third.plus(&double);
        let seventh = fifth.plus(&double);
        let ninth = seventh.plus(&double);
        let eleventh = ninth.plus(&double);
        let thirteenth = eleventh.plus(&double);
        let fifteenth = thirteenth.plus(&double);
        Table {
            entries: [
                Addend::of(point),
                Addend::of(&third),
                Addend::of(&fifth),
                Addend::of(&seventh),
                Addend::of(&ninth),
                Addend::of(&eleventh),
                Addend::of(&thirteenth),
                Addend::of(&fifteenth),
            ],
        }
    }

    /// The sum of a point and the table's point times `digit`, which is 0 or odd.
    #[inline(always)]
    pub fn added_to(&self, partial: CompletedPoint, digit: u8) -> CompletedPoint
        requires { digit < 16 }
        ensures { (p : Point) → self.now.entries ≡ odd_multiples p → point_of result
            ≡ (if digit == 0 then point_of partial else added (point_of partial) (odd_multiple (digit / 2) p)) }
    {
        if digit == 0 {
            partial
        } else {
            CompletedPoint::of_sum(&partial.point(), &self.entries[digit as usize / 2])
        }
    }
}

impl CompletedPoint {
    /// The sum of this point and the base point times `digit`, which is 0 or odd.
    #[inline(always)]
    pub fn plus_base_times(self, digit: u8) -> CompletedPoint
        requires { digit < 128 }
        ensures { point_of result
            ≡ (if digit == 0 then point_of self else added (point_of self) (normalized (odd_multiple (digit / 2) base))) }
    {
        if digit == 0 {
            self
        } else {
            CompletedPoint::of_affine_sum(&self.point(), &odd_multiple_of_base(digit as usize / 2))
        }
    }
}
