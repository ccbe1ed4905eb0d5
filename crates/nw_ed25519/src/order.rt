//! Numbers modulo the order of the base point.
ghost use Rattle.std.specs.Prelude.{◌≡◌, ◌+◌, ◌*◌, ◌%◌, ◌<◌, ◌≤◌, ◌^◌};
ghost use Rattle.nw_curve.specs.Bytes.{number_from_bytes};
ghost use Rattle.nw_ed25519.specs.Accepts.{order};
ghost use Rattle.nw_ed25519.specs.Words.{word_at};

use nw_curve::Whole;

/// The order of the base point: the L of RFC 8032, section 5.1.
#[tactic(auto, unfolding(crate::specs::Accepts::order))]
pub fn the_order() -> Whole
    ensures { result ≡ order }
{
    Whole::new(27742317777372353535851937790883648493, 1 << 124)
}

/// The number that 64 bytes encode, lowest first, modulo the order.
pub fn modulo_order(bytes: &[u8; 64]) -> Whole
    ensures { result ≡ number_from_bytes bytes.now % order }
{
    let mut remainder = Whole::new(0, 0);
    for done in 0..16 {
        remainder = append_word(&remainder, word_at(bytes, 4 * (15 - done)));
    }
    remainder
}

/// The number that four bytes from this place on encode, lowest first.
fn word_at(bytes: &[u8; 64], place: usize) -> u32
    requires { place ≤ 60 }
    ensures { result ≡ word_at bytes.now place }
{
    let lower = bytes[place] as u32 + bytes[place + 1] as u32 * (1 << 8);
    let upper = bytes[place + 2] as u32 + bytes[place + 3] as u32 * (1 << 8);
    lower + upper * (1 << 16)
}

/// The remainder modulo the order after four more bytes are appended below: one step of a long division.
///
/// The order is a little above 2^252. So the bits from 2^252 on are the quotient, or one more than it.
fn append_word(remainder: &Whole, word: u32) -> Whole
    requires { remainder.now < order }
    ensures { result ≡ (2 ^ 32 * remainder.now + word) % order }
{
    let times = (remainder.high() / (1 << 92)) as u64;
    let lower = Whole::new(
        remainder.low() % (1 << 96) * (1 << 32) + word as u128,
        remainder.high() % (1 << 92) * (1 << 32) + remainder.low() / (1 << 96),
    );
    let excess = excess(times);
    if lower.is_below(&excess) {
        the_order().minus(&excess.minus(&lower))
    } else {
        lower.minus(&excess)
    }
}

/// `times` times the difference of the order and 2^252.
#[tactic(auto, unfolding(crate::specs::Accepts::order))]
fn excess(times: u64) -> Whole
    ensures number { result + times * 2 ^ 252 ≡ times * order }
    ensures bound { result < 2 ^ 192 }
{
    let (first, carry) = times.carrying_mul(0x5812631a_5cf5d3ed, 0);
    let (second, third) = times.carrying_mul(0x14def9de_a2f79cd6, carry);
    Whole::new(first as u128 + second as u128 * (1 << 64), third as u128)
}
