//! The laws of the curve.
ghost use Rattle.std.specs.Prelude.{◌≡◌, ◌+◌, ◌*◌, ◌%◌};
ghost use Rattle.nw_curve.specs.Field.{prime, plus, minus, times};
ghost use Rattle.nw_curve.specs.Curve.{base, curve_d};
ghost use Rattle.nw_curve.specs.Coding.{root_of_minus_one};
ghost use Rattle.nw_curve.specs.Laws.{MultiplesAdd};

/// d is -121665 / 121666, and the root of -1 is a square root of -1. The base point is on the curve: its y is 4 / 5, and its x is even.
#[tactic(auto, unfolding(crate::specs::Curve::base, crate::specs::Curve::curve_d, crate::specs::Coding::root_of_minus_one, crate::specs::Field::prime))]
pub fn constants_of_the_curve()
    ensures d { plus (times curve_d 121666) 121665 ≡ 0 }
    ensures root { plus (times root_of_minus_one root_of_minus_one) 1 ≡ 0 }
    ensures base_y { times base.y 5 ≡ 4 }
    ensures base_even { base.x % 2 ≡ 0 }
    ensures base_t { base.t ≡ times base.x base.y }
    ensures on_curve { minus (times base.y base.y) (times base.x base.x)
        ≡ plus 1 (times curve_d (times base.t base.t)) }
{}

/// The sum of two multiples of a decoded key is the multiple of the sum.
pub fn multiples_add()
    ensures { MultiplesAdd }
{}
