//! The constants of the curve.
ghost use Rattle.std.specs.Prelude.{◌≡◌};
ghost use Rattle.nw_curve.specs.Curve.{base, curve_d, twice};
ghost use Rattle.nw_curve.specs.Coding.{root_of_minus_one};

use crate::field::{Number, Whole};

/// The curve's constant d.
#[tactic(auto, unfolding(crate::specs::Curve::curve_d, crate::specs::Field::prime))]
pub fn the_d() -> Number
    ensures { result ≡ curve_d }
{
    Number::of(&Whole::new(
        0x00700a4d_4141d8ab_75eb4dca_135978a3,
        0x52036cee_2b6ffe73_8cc74079_7779e898,
    ))
}

/// Twice the curve's constant d.
#[tactic(auto, unfolding(crate::specs::Curve::curve_d, crate::specs::Field::prime))]
pub fn twice_d() -> Number
    ensures { result ≡ twice curve_d }
{
    Number::of(&Whole::new(
        0x00e0149a_8283b156_ebd69b94_26b2f159,
        0x2406d9dc_56dffce7_198e80f2_eef3d130,
    ))
}

/// The base point's x.
#[tactic(auto, unfolding(crate::specs::Curve::base, crate::specs::Field::prime))]
pub fn base_x() -> Number
    ensures { result ≡ base.x }
{
    Number::of(&Whole::new(
        0x692cc760_9525a7b2_c9562d60_8f25d51a,
        0x216936d3_cd6e53fe_c0a4e231_fdd6dc5c,
    ))
}

/// The base point's y.
#[tactic(auto, unfolding(crate::specs::Curve::base, crate::specs::Field::prime))]
pub fn base_y() -> Number
    ensures { result ≡ base.y }
{
    Number::of(&Whole::new(
        0x66666666_66666666_66666666_66666658,
        0x66666666_66666666_66666666_66666666,
    ))
}

/// The product of the base point's x and y.
#[tactic(auto, unfolding(crate::specs::Curve::base, crate::specs::Field::prime))]
pub fn base_t() -> Number
    ensures { result ≡ base.t }
{
    Number::of(&Whole::new(
        0x20f09f80_775152f5_6dde8ab3_a5b7dda3,
        0x67875f0f_d78b7665_66ea4e8e_64abe37d,
    ))
}

/// A square root of -1.
#[tactic(auto, unfolding(crate::specs::Coding::root_of_minus_one, crate::specs::Field::prime))]
pub fn minus_one_root() -> Number
    ensures { result ≡ root_of_minus_one }
{
    Number::of(&Whole::new(
        0x2f431806_ad2fe478_c4ee1b27_4a0ea0b0,
        0x2b832480_4fc1df0b_2b4d0099_3dfbd7a7,
    ))
}
