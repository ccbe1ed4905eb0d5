//! A table of odd multiples of the base point, with Z 1, prepared for sums.
ghost use Rattle.std.specs.Prelude.{◌≡◌, ◌<◌};
ghost use Rattle.nw_curve.specs.Field.{prime};
ghost use Rattle.nw_curve.specs.Curve.{base};
ghost use Rattle.nw_curve.specs.Completed.{affine_prepared, normalized};
ghost use Rattle.nw_curve.specs.Table.{number_from_halves, odd_multiple};

use super::completed::AffineAddend;
use crate::field::{Number, Whole};

mod differences;
mod products;
mod sums;

use differences::DIFFERENCES;
use products::PRODUCTS;
use sums::SUMS;

/// The base point times 2 `index` + 1, with Z 1, prepared for sums.
#[inline(always)]
pub fn odd_multiple_of_base(index: usize) -> AffineAddend
    requires { index < 64 }
    ensures { result ≡ affine_prepared (normalized (odd_multiple index base)) }
{
    AffineAddend {
        difference: number_of(&DIFFERENCES[index]),
        sum: number_of(&SUMS[index]),
        twice_d_t: number_of(&PRODUCTS[index]),
    }
}

/// The number with these two halves, the lower one first.
#[inline(always)]
fn number_of(halves: &[u128; 2]) -> Number
    requires { number_from_halves halves.now < prime }
    ensures { result ≡ number_from_halves halves.now }
{
    Number::of(&Whole::new(halves[0], halves[1]))
}
