//! Numbers modulo the prime.
ghost use Rattle.std.specs.Prelude.{◌≡◌, ◌==◌, ◌+◌, ◌*◌, ◌%◌, ◌<◌, ◌^◌};
ghost use Rattle.std.specs.Prelude.{nat_lt, Some, None, if◌then◌else◌};
ghost use Rattle.nw_curve.specs.Field.{prime, plus, minus, times, negative};

use super::Whole;
use super::limbs::{Limbs, minus, packed, plus, product, square, unpacked, wrapped};
use std::marker::Model;

/// A number modulo the prime. In contracts it is a natural number below the prime.
#[derive(Debug, Drop)]
pub struct Number {
    limbs: Limbs,
}

impl Model for Number {
    ghost use Rattle.std.specs.Prelude.{ℕ, ◌%◌};

    ghost Value = { ℕ };

    ghost use Rattle.nw_curve.specs.Field.{prime};
    ghost use Rattle.nw_curve.specs.Weights.{value_of};

    ghost view = { λ n. value_of n.limbs % prime };
}

impl Number {
    /// The number 0.
    #[tactic(auto, using(crate::proofs::Digits::wraps))]
    pub fn zero() -> Number
        ensures { result ≡ 0 }
    {
        Number::of(&Whole::new(0, 0))
    }

    /// The number 1.
    #[tactic(auto, using(crate::proofs::Digits::wraps))]
    pub fn one() -> Number
        ensures { result ≡ 1 }
    {
        Number::of(&Whole::new(1, 0))
    }

    /// The whole number as a number modulo the prime, or `None` if it is not below the prime.
    pub fn from_whole(whole: &Whole) -> Option<Number>
        ensures { result ≡ (if nat_lt whole.now prime then Some whole.now else None) }
    {
        if whole.is_below(&the_prime()) {
            Some(Number::of(whole))
        } else {
            None
        }
    }

    /// The whole number, which must be below the prime, as a number modulo the prime.
    #[tactic(auto, using(crate::proofs::Digits::wraps))]
    pub fn of(whole: &Whole) -> Number
        requires { whole.now < prime }
        ensures { result ≡ whole.now }
    {
        Number {
            limbs: unpacked(whole),
        }
    }

    /// The number as a whole number below the prime.
    #[tactic(auto, using(crate::proofs::Digits::wraps))]
    pub fn to_whole(&self) -> Whole
        ensures number { result ≡ self.now }
        ensures below { result < prime }
        ensures bound { result < 2 ^ 255 }
    {
        reduced(packed(&self.limbs))
    }

    /// Whether the number, from 0 to p - 1 for the prime p, is odd.
    pub fn is_odd(&self) -> bool
        ensures { result ≡ (self.now % 2 == 1) }
    {
        self.to_whole().is_odd()
    }

    /// Whether the numbers are equal.
    pub fn equals(&self, other: &Number) -> bool
        ensures { result ≡ (self.now == other.now) }
    {
        self.to_whole().equals(&other.to_whole())
    }

    /// The sum.
    #[inline(always)]
    pub fn plus(&self, other: &Number) -> Number
        ensures { result ≡ plus self.now other.now }
    {
        Number {
            limbs: plus(&self.limbs, &other.limbs),
        }
    }

    /// The difference.
    #[inline(always)]
    pub fn minus(&self, other: &Number) -> Number
        ensures { result ≡ minus self.now other.now }
    {
        Number {
            limbs: minus(&self.limbs, &other.limbs),
        }
    }

    /// The number times -1.
    pub fn negative(&self) -> Number
        ensures { result ≡ negative self.now }
    {
        Number::zero().minus(self)
    }

    /// The product.
    #[inline(always)]
    pub fn times(&self, other: &Number) -> Number
        ensures { result ≡ times self.now other.now }
    {
        let (low, high) = product(&self.limbs, &other.limbs);
        Number {
            limbs: wrapped(low, high),
        }
    }

    /// The square.
    #[inline(always)]
    pub fn square(&self) -> Number
        ensures { result ≡ times self.now self.now }
    {
        let (low, high) = square(&self.limbs);
        Number {
            limbs: wrapped(low, high),
        }
    }
}

/// The prime.
#[tactic(auto, unfolding(crate::specs::Field::prime))]
fn the_prime() -> Whole
    ensures { result ≡ prime }
{
    Whole::new(u128::MAX - 18, (1 << 127) - 1)
}

/// The remainder modulo the prime.
#[tactic(auto, using(crate::proofs::Digits::left_over, crate::proofs::Digits::wraps))]
fn reduced(whole: Whole) -> Whole
    ensures { result ≡ whole % prime }
{
    let prime = the_prime();
    if whole.is_below(&prime) {
        return whole;
    }
    let once = whole.minus(&prime);
    if once.is_below(&prime) {
        once
    } else {
        once.minus(&prime)
    }
}
