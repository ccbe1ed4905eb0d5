//! The bits of a digest. Bit 0 is the highest bit of the first byte.
ghost use Rattle.std.specs.Prelude.{◌≡◌, ◌<◌, ℕ, length};
ghost use Rattle.std.specs.Bool.{MatchBool};
ghost use Rattle.std.specs.Option.{MatchOption};
ghost use Rattle.nw_digest.specs.Bytes.{AreBytes};
ghost use Rattle.nw_trie.specs.Bits.{DifferFirst, bit_of, byte_bit, list_bit};

use nw_digest::Digest;

/// Whether this bit of the digest is set.
pub(crate) fn is_set(digest: &Digest, bit: u8) -> bool
    ensures bit { result ≡ bit_of digest.now bit }
    ensures bytes { AreBytes digest.now.0 }
{
    list_is_set(&digest.0, bit)
}

/// Whether this bit of the bytes is set.
fn list_is_set(bytes: &[u8], bit: u8) -> bool
    requires { length bytes.now ≡ 32 }
    ensures bit { result ≡ list_bit bytes.now bit }
    ensures bytes { AreBytes bytes.now }
{
    byte_is_set(bytes[(bit / 8) as usize], bit % 8)
}

/// Whether this bit of the byte is set. Bit 0 is the highest.
fn byte_is_set(byte: u8, bit: u8) -> bool
    requires { bit < 8 }
    ensures { result ≡ byte_bit byte bit }
{
    (byte >> (7 - bit)) % 2 == 1
}

/// The first bit at which the bytes differ.
fn first_in_byte(a: u8, b: u8) -> u8
    requires { a ≡ b → ⊥ }
    ensures small { result < 8 }
    ensures same { (j : ℕ) → j < result → byte_bit a j ≡ byte_bit b j }
    ensures differ { byte_bit a result ≡ byte_bit b result → ⊥ }
{
    for bit in 0..7 {
        if byte_is_set(a, bit) != byte_is_set(b, bit) {
            return bit;
        }
    }
    7
}

/// The first bit at which the digests differ, or `None` if they are equal.
pub(crate) fn first_difference(a: &Digest, b: &Digest) -> Option<u8>
    ensures { MatchOption result (a.now ≡ b.now) (λ bit. DifferFirst bit a.now b.now) }
{
    for index in 0..32u8 {
        let (left, right) = (a.0[index as usize], b.0[index as usize]);
        if left != right {
            return Some(8 * index + first_in_byte(left, right));
        }
    }
    None
}
