//! Numbers below 2^256 as four digits to base 2^64 (limbs).
ghost use Rattle.std.specs.Prelude.{◌≡◌, ◌+◌, ◌*◌, ◌/◌, ◌%◌, ◌<◌, ◌^◌};
ghost use Rattle.nw_curve.specs.Field.{prime};
ghost use Rattle.nw_curve.specs.Weights.{value_of};

use super::Whole;

/// The base of the digits.
const WEIGHT: u128 = 1 << 64;
/// Half of the base.
const HALF: u64 = 1 << 63;

/// A number below 2^256 as four digits to base 2^64, lowest first.
#[derive(Clone, Copy, Debug)]
pub struct Limbs {
    pub first: u64,
    pub second: u64,
    pub third: u64,
    pub fourth: u64,
}

impl Limbs {
    /// The number with these digits, lowest first.
    #[inline(always)]
    pub fn new(first: u64, second: u64, third: u64, fourth: u64) -> Limbs
        ensures first { result.first ≡ first }
        ensures second { result.second ≡ second }
        ensures third { result.third ≡ third }
        ensures fourth { result.fourth ≡ fourth }
    {
        Limbs {
            first,
            second,
            third,
            fourth,
        }
    }
}

/// The sum of two digits and a carry: its digit, and the next carry.
#[inline(always)]
fn add_with_carry(a: u64, b: u64, carry: u64) -> (u64, u64)
    ensures { result.0 + result.1 * 2 ^ 64 ≡ a + b + carry }
{
    let sum = a as u128 + b as u128 + carry as u128;
    ((sum % WEIGHT) as u64, (sum / WEIGHT) as u64)
}

/// The sum of `sum` and `times` times `a`: its lowest digit, and the four digits above it.
#[inline(always)]
fn multiply_add(times: u64, a: &Limbs, sum: &Limbs) -> (u64, Limbs)
    ensures { result.0 + 2 ^ 64 * value_of result.1 ≡ times * value_of a.now + value_of sum.now }
{
    let (low, carry) = times.carrying_mul_add(a.first, sum.first, 0);
    let (first, carry) = times.carrying_mul_add(a.second, sum.second, carry);
    let (second, carry) = times.carrying_mul_add(a.third, sum.third, carry);
    let (third, fourth) = times.carrying_mul_add(a.fourth, sum.fourth, carry);
    (low, Limbs::new(first, second, third, fourth))
}

/// The product: its lower and its upper half.
#[inline(always)]
pub fn product(a: &Limbs, b: &Limbs) -> (Limbs, Limbs)
    ensures { value_of result.0 + 2 ^ 256 * value_of result.1 ≡ value_of a.now * value_of b.now }
{
    let (first, sum) = multiply_add(a.first, b, &Limbs::new(0, 0, 0, 0));
    let (second, sum) = multiply_add(a.second, b, &sum);
    let (third, sum) = multiply_add(a.third, b, &sum);
    let (fourth, high) = multiply_add(a.fourth, b, &sum);
    (Limbs::new(first, second, third, fourth), high)
}

/// The square: its lower and its upper half.
#[inline(always)]
pub fn square(a: &Limbs) -> (Limbs, Limbs)
    ensures { value_of result.0 + 2 ^ 256 * value_of result.1 ≡ value_of a.now * value_of a.now }
{
    let (cross, above, top) = cross_products(a);
    let (first, carry) = a.first.carrying_mul(a.first, 0);
    let (second, carry) = add_with_carry(doubled_digit(cross.first, 0), 0, carry);
    let (third, carry) = a
        .second
        .carrying_mul_add(a.second, doubled_digit(cross.second, cross.first), carry);
    let (fourth, carry) = add_with_carry(doubled_digit(cross.third, cross.second), 0, carry);
    let (fifth, carry) = a
        .third
        .carrying_mul_add(a.third, doubled_digit(cross.fourth, cross.third), carry);
    let (sixth, carry) = add_with_carry(doubled_digit(above, cross.fourth), 0, carry);
    let (seventh, carry) = a
        .fourth
        .carrying_mul_add(a.fourth, doubled_digit(top, above), carry);
    let eighth = top / HALF + carry;
    (
        Limbs::new(first, second, third, fourth),
        Limbs::new(fifth, sixth, seventh, eighth),
    )
}

/// The sum of the products of two different digits, each at its place, divided by 2^64: six digits.
#[inline(always)]
fn cross_products(a: &Limbs) -> (Limbs, u64, u64)
    ensures { value_of result.0 + 2 ^ 256 * result.1 + 2 ^ 320 * result.2
        ≡ a.now.first * a.now.second + 2 ^ 64 * (a.now.first * a.now.third)
        + 2 ^ 128 * (a.now.first * a.now.fourth + a.now.second * a.now.third)
        + 2 ^ 192 * (a.now.second * a.now.fourth) + 2 ^ 256 * (a.now.third * a.now.fourth) }
{
    let (first, carry) = a.first.carrying_mul(a.second, 0);
    let (second, carry) = a.first.carrying_mul(a.third, carry);
    let (third, fourth) = a.first.carrying_mul(a.fourth, carry);
    let (third, carry) = a.second.carrying_mul(a.third, third);
    let (fourth, fifth) = a.second.carrying_mul_add(a.fourth, fourth, carry);
    let (fifth, sixth) = a.third.carrying_mul(a.fourth, fifth);
    (Limbs::new(first, second, third, fourth), fifth, sixth)
}

/// A digit of twice a number, from the number's digit at this place and the digit below.
#[inline(always)]
fn doubled_digit(digit: u64, below: u64) -> u64
    ensures { result + digit / 2 ^ 63 * 2 ^ 64 ≡ 2 * digit + below / 2 ^ 63 }
{
    digit % HALF * 2 + below / HALF
}

/// 38 times the carry. A carry is worth 2^256, which is 38 modulo the prime.
#[inline(always)]
fn wrapped_carry(carry: u64) -> u64
    requires { carry < 2 }
    ensures { result ≡ 38 * carry }
{
    if carry > 0 { 38 } else { 0 }
}

/// The sum of a number and one below 2^32. The result is congruent, and may be above the prime.
#[inline(always)]
fn plus_small(limbs: &Limbs, more: u64) -> Limbs
    requires { more < 2 ^ 32 }
    ensures { value_of result % prime ≡ (value_of limbs.now + more) % prime }
{
    let (first, carry) = add_with_carry(limbs.first, more, 0);
    let (second, carry) = add_with_carry(limbs.second, carry, 0);
    let (third, carry) = add_with_carry(limbs.third, carry, 0);
    let (fourth, carry) = add_with_carry(limbs.fourth, carry, 0);
    Limbs::new(first + wrapped_carry(carry), second, third, fourth)
}

/// The difference of a number and one below 2^32. The result is congruent, and may be above the prime.
#[inline(always)]
fn minus_small(limbs: &Limbs, less: u64) -> Limbs
    requires { less < 2 ^ 32 }
    ensures { (value_of result + less) % prime ≡ value_of limbs.now % prime }
{
    let (first, borrow) = limbs.first.borrowing_sub(less, false);
    let (second, borrow) = limbs.second.borrowing_sub(0, borrow);
    let (third, borrow) = limbs.third.borrowing_sub(0, borrow);
    let (fourth, borrow) = limbs.fourth.borrowing_sub(0, borrow);
    Limbs::new(first - wrapped_carry(borrow as u64), second, third, fourth)
}

/// A number below 2^256 that is congruent to the number with these two halves. The upper half counts 38 times.
#[inline(always)]
pub fn wrapped(low: Limbs, high: Limbs) -> Limbs
    ensures { value_of result % prime ≡ (value_of low + 2 ^ 256 * value_of high) % prime }
{
    let (first, sum) = multiply_add(38, &high, &low);
    folded(
        &Limbs::new(first, sum.first, sum.second, sum.third),
        sum.fourth,
    )
}

/// A number below 2^256 that is congruent to the number with this fifth digit, which is below 2^32.
///
/// The part from 2^255 on counts 19 times. The sum of this and the lower 255 bits has no carry over 2^256, so each digit of the result is
/// known as soon as its sum is.
#[inline(always)]
fn folded(limbs: &Limbs, fifth: u64) -> Limbs
    requires { fifth < 2 ^ 32 }
    ensures { value_of result % prime ≡ (value_of limbs.now + 2 ^ 256 * fifth) % prime }
{
    let above = fifth * 2 + limbs.fourth / HALF;
    let (first, carry) = add_with_carry(limbs.first, 19 * above, 0);
    let (second, carry) = add_with_carry(limbs.second, 0, carry);
    let (third, carry) = add_with_carry(limbs.third, 0, carry);
    Limbs::new(first, second, third, limbs.fourth % HALF + carry)
}

/// A number below 2^256 that is congruent to the sum.
#[inline(always)]
pub fn plus(a: &Limbs, b: &Limbs) -> Limbs
    ensures { value_of result % prime ≡ (value_of a.now + value_of b.now) % prime }
{
    let (first, carry) = add_with_carry(a.first, b.first, 0);
    let (second, carry) = add_with_carry(a.second, b.second, carry);
    let (third, carry) = add_with_carry(a.third, b.third, carry);
    let (fourth, carry) = add_with_carry(a.fourth, b.fourth, carry);
    plus_small(
        &Limbs::new(first, second, third, fourth),
        wrapped_carry(carry),
    )
}

/// A number below 2^256 that is congruent to the difference.
#[inline(always)]
pub fn minus(a: &Limbs, b: &Limbs) -> Limbs
    ensures { (value_of result + value_of b.now) % prime ≡ value_of a.now % prime }
{
    let (first, borrow) = a.first.borrowing_sub(b.first, false);
    let (second, borrow) = a.second.borrowing_sub(b.second, borrow);
    let (third, borrow) = a.third.borrowing_sub(b.third, borrow);
    let (fourth, borrow) = a.fourth.borrowing_sub(b.fourth, borrow);
    minus_small(
        &Limbs::new(first, second, third, fourth),
        wrapped_carry(borrow as u64),
    )
}

/// The digits of a whole number.
pub fn unpacked(whole: &Whole) -> Limbs
    ensures { value_of result ≡ whole.now }
{
    let low = whole.low();
    let high = whole.high();
    Limbs::new(
        (low % WEIGHT) as u64,
        (low / WEIGHT) as u64,
        (high % WEIGHT) as u64,
        (high / WEIGHT) as u64,
    )
}

/// The whole number with these digits.
pub fn packed(limbs: &Limbs) -> Whole
    ensures { result ≡ value_of limbs.now }
{
    Whole::new(
        limbs.first as u128 + limbs.second as u128 * WEIGHT,
        limbs.third as u128 + limbs.fourth as u128 * WEIGHT,
    )
}
