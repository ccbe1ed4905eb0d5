//! Whole numbers below 2^256.
ghost use Rattle.std.specs.Prelude.{◌≡◌, ◌==◌, ◌+◌, ◌-◌, ◌*◌, ◌/◌, ◌%◌, ◌<◌, ◌≤◌, ◌^◌};
ghost use Rattle.std.specs.Prelude.{nat_lt, length, if◌then◌else◌};
ghost use Rattle.std.specs.Hash.{le_bytes};
ghost use Rattle.std.specs.Int.{bit_at};
ghost use Rattle.nw_curve.specs.Bytes.{number_from_bytes};

use std::marker::Model;

/// Half of 2^128.
const HALF: u128 = 1 << 127;

/// A whole number below 2^256. In contracts it is a natural number.
#[derive(Debug, Drop)]
pub struct Whole {
    low: u128,
    high: u128,
}

impl Model for Whole {
    ghost use Rattle.std.specs.Prelude.{ℕ, ◌+◌, ◌*◌, ◌<◌, ◌^◌};

    ghost Value = { ℕ };

    ghost view = { λ w. w.low + 2 ^ 128 * w.high };

    ghost invariant = { λ w. (w.low < 2 ^ 128) × (w.high < 2 ^ 128) };
}

impl Whole {
    /// The number with this lower and upper half, of 128 bits each.
    #[inline(always)]
    pub fn new(low: u128, high: u128) -> Whole
        ensures { result ≡ low + 2 ^ 128 * high }
    {
        Whole { low, high }
    }

    /// The number that 32 bytes encode, lowest first.
    pub fn from_bytes(bytes: &[u8]) -> Whole
        requires { length bytes.now ≡ 32 }
        ensures number { result ≡ number_from_bytes bytes.now }
        ensures bound { result < 2 ^ 256 }
    {
        Whole {
            low: half_of(&bytes[..16]),
            high: half_of(&bytes[16..]),
        }
    }

    /// The 32 bytes of the number, lowest first.
    pub fn to_bytes(&self) -> [u8; 32]
        ensures { result ≡ le_bytes 32 self.now }
    {
        let mut bytes = [0; 32];
        bytes[..16].copy_from_slice(&self.low.to_le_bytes());
        bytes[16..].copy_from_slice(&self.high.to_le_bytes());
        bytes
    }

    /// The lower 128 bits.
    #[inline(always)]
    pub fn low(&self) -> u128
        ensures { result ≡ self.now % 2 ^ 128 }
    {
        self.low
    }

    /// The upper 128 bits.
    #[inline(always)]
    pub fn high(&self) -> u128
        ensures { result ≡ self.now / 2 ^ 128 }
    {
        self.high
    }

    /// Whether the number is odd.
    #[inline(always)]
    pub fn is_odd(&self) -> bool
        ensures { result ≡ (self.now % 2 == 1) }
    {
        self.low % 2 == 1
    }

    /// Whether the number is less than the other.
    pub fn is_below(&self, other: &Whole) -> bool
        ensures { result ≡ nat_lt self.now other.now }
    {
        self.high < other.high || self.high == other.high && self.low < other.low
    }

    /// Whether the numbers are equal.
    pub fn equals(&self, other: &Whole) -> bool
        ensures { result ≡ (self.now == other.now) }
    {
        self.high == other.high && self.low == other.low
    }

    /// The number divided by 2^`places`, rounded down.
    #[inline(always)]
    pub fn shifted_down(&self, places: u32) -> Whole
        requires some { 0 < places }
        requires few { places < 128 }
        ensures { result ≡ self.now / 2 ^ places }
    {
        Whole {
            low: (self.low >> places) + (self.high << (128 - places)),
            high: self.high >> places,
        }
    }

    /// Whether the bit at this place is set. Place 0 is the lowest bit.
    pub fn is_set(&self, place: u32) -> bool
        requires { place < 256 }
        ensures { result ≡ (bit_at self.now place == 1) }
    {
        if place < 128 {
            (self.low >> place) % 2 == 1
        } else {
            (self.high >> (place - 128)) % 2 == 1
        }
    }

    /// The number that the lower 255 bits form.
    pub fn without_top_bit(&self) -> Whole
        ensures { result ≡ self.now % 2 ^ 255 }
    {
        Whole {
            low: self.low,
            high: self.high % HALF,
        }
    }

    /// The number with `top` as its bit 255, which must be clear.
    pub fn with_top_bit(&self, top: bool) -> Whole
        requires { self.now < 2 ^ 255 }
        ensures { result ≡ self.now + (if top then 2 ^ 255 else 0) }
    {
        Whole {
            low: self.low,
            high: self.high + if top { HALF } else { 0 },
        }
    }

    /// The difference. The other number must not be larger.
    #[inline(always)]
    pub fn minus(&self, other: &Whole) -> Whole
        requires { other.now ≤ self.now }
        ensures { result ≡ self.now - other.now }
    {
        if other.low <= self.low {
            Whole {
                low: self.low - other.low,
                high: self.high - other.high,
            }
        } else {
            Whole {
                low: self.low + (u128::MAX - other.low) + 1,
                high: self.high - other.high - 1,
            }
        }
    }
}

/// The number that 16 bytes encode, lowest first.
fn half_of(bytes: &[u8]) -> u128
    requires { length bytes.now ≡ 16 }
    ensures { result ≡ number_from_bytes bytes.now }
{
    let mut half = [0; 16];
    half.copy_from_slice(bytes);
    u128::from_le_bytes(half)
}
