//! The point that a verification compares with R.
ghost use Rattle.std.specs.Prelude.{◌≡◌, ℕ, ◌<◌, ◌^◌, List, Some};
ghost use Rattle.nw_curve.specs.Coding.{decoded};
ghost use Rattle.nw_ed25519.specs.Accepts.{expected};

use crate::digits::{digits_of, places_used};
use nw_curve::{CompletedPoint, Point, Table, Whole};

/// The encoding of [s]B - [k]A, for the base point B and the key's point A. A signature is accepted if its R is this.
///
/// Both multiples share one chain of doublings, with a table of odd multiples for each of the two points. That of the base point is a
/// constant. So it has larger multiples than the key's, and its number has fewer digits that are not 0.
pub fn expected(s: &Whole, k: &Whole, point: Point) -> [u8; 32]
    requires s { s.now < 2 ^ 253 }
    requires k { k.now < 2 ^ 253 }
    ensures { (bytes : List ℕ) → decoded bytes ≡ Some point → result ≡ expected s.now k.now point }
{
    let keys = Table::of(&point.negated());
    let base_digits = digits_of(s, 7);
    let key_digits = digits_of(k, 4);
    let places = places_used(&base_digits, &key_digits);
    let mut partial = CompletedPoint::identity();
    for done in 0..places {
        let place = places - 1 - done;
        let with_base = partial.doubled().plus_base_times(base_digits[place]);
        partial = keys.added_to(with_base, key_digits[place]);
    }
    partial.point().encoded()
}
