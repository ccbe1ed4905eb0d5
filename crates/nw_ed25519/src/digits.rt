//! The digits of a number for a sum over tables of odd multiples.
ghost use Rattle.std.specs.Prelude.{◌≡◌, ◌≢◌, ◌==◌, ◌&&◌, ◌+◌, ◌-◌, ◌*◌, ◌/◌, ◌%◌, ◌^◌, ◌<◌, ◌≤◌, EachIndex, slice_index};
ghost use Rattle.nw_ed25519.specs.Digits.{digit_length, number_from_digits};

use nw_curve::Whole;

/// The number of digits.
pub const DIGITS: usize = 253;

/// The binary digits of the number, lowest first. Each is 0 or an odd number of at most `bits` bits, so most are 0.
pub fn digits_of(number: &Whole, bits: u32) -> [u8; 253]
    requires number { number.now < 2 ^ 253 }
    requires some { 0 < bits }
    requires few { bits ≤ 7 }
    ensures value { number_from_digits result ≡ number.now }
    ensures small { EachIndex result (λ i. slice_index result i < 2 ^ bits) }
    ensures odd { EachIndex result (λ i. slice_index result i ≢ 0 → slice_index result i % 2 ≡ 1) }
{
    let mut digits = [0; 253];
    let mut rest = Whole::new(number.low(), number.high());
    let mut place = 0;
    while place < DIGITS {
        let digit = lowest_digit(&rest, bits);
        let length = digit_length(digit, bits);
        digits[place] = digit;
        rest = rest.shifted_down(length);
        place += length as usize;
    }
    digits
}

/// The number of places up to the highest one at which a digit of one of the two numbers is not 0.
pub fn places_used(first: &[u8; 253], second: &[u8; 253]) -> usize
    ensures few { result ≤ 253 }
    ensures first { EachIndex first.now (λ i. result ≤ i → slice_index first.now i ≡ 0) }
    ensures second { EachIndex second.now (λ i. result ≤ i → slice_index second.now i ≡ 0) }
{
    let mut places = DIGITS;
    while places > 0 && are_both_zero(first[places - 1], second[places - 1]) {
        places -= 1;
    }
    places
}

/// Whether both digits are 0.
#[inline(always)]
fn are_both_zero(first: u8, second: u8) -> bool
    ensures { result ≡ ((first == 0) && (second == 0)) }
{
    first == 0 && second == 0
}

/// The lowest digit: 0 if the number is even, and otherwise its lowest `bits` bits.
#[inline(always)]
fn lowest_digit(number: &Whole, bits: u32) -> u8
    requires some { 0 < bits }
    requires few { bits ≤ 7 }
    ensures small { result < 2 ^ bits }
    ensures odd { result ≢ 0 → result % 2 ≡ 1 }
    ensures rest { number.now
        ≡ result + 2 ^ digit_length bits result * (number.now / 2 ^ digit_length bits result) }
{
    if number.is_odd() {
        lowest_bits(number.low(), bits)
    } else {
        0
    }
}

/// The number of places that a digit takes: all its bits, since only the lowest is a digit and the others are 0, or one if the digit is 0.
#[inline(always)]
fn digit_length(digit: u8, bits: u32) -> u32
    requires some { 0 < bits }
    requires few { bits ≤ 7 }
    ensures value { result ≡ digit_length bits digit }
    ensures some { 0 < result }
    ensures few { result ≤ 7 }
{
    if digit == 0 { 1 } else { bits }
}

/// The lowest `bits` bits.
#[inline(always)]
fn lowest_bits(number: u128, bits: u32) -> u8
    requires { bits ≤ 7 }
    ensures value { result ≡ number % 2 ^ bits }
    ensures small { result < 2 ^ bits }
{
    (number % (1 << bits)) as u8
}
