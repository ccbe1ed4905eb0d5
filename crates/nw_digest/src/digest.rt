//! SHA-256 digests.
ghost use Rattle.std.specs.Prelude.{◌≡◌, ◌≤◌, ◌+◌, ◌*◌, drop, length};
ghost use Rattle.std.specs.Cmp.Lexicographic.{slice_cmp};
ghost use Rattle.std.specs.Ordering.{nat_cmp};
ghost use Rattle.std.specs.Int.{w64, from_be_bytes};
ghost use Rattle.sha2.specs.Sha256.{sha256};

use sha2::Sha256;
use std::cmp::Ordering;

/// A SHA-256 digest, ordered by its bytes.
#[derive(Clone, Copy, Debug)]
pub struct Digest(pub [u8; 32]);

impl PartialEq for Digest {
    ghost use Rattle.std.specs.Cmp.{on_per, partial_equiv_from_equiv};
    ghost use Rattle.std.specs.Cmp.Lexicographic.{nat_list_eq_equiv};
    ghost use Rattle.std.specs.Str.{bytes_eq};

    ghost eq = { λ a b. bytes_eq a.0 b.0 };

    ghost laws = { on_per (λ d. d.0) (partial_equiv_from_equiv nat_list_eq_equiv) };

    /// Compares all bytes, even after the first difference, so that the compiler can vectorize the loop.
    #[inline(always)]
    fn eq(&self, other: &Digest) -> bool {
        let mut same = true;
        for index in 0..32 {
            same &= self.0[index] == other.0[index];
        }
        same
    }
}

impl Eq for Digest {
    ghost use Rattle.std.specs.Cmp.{on_equiv};
    ghost use Rattle.std.specs.Cmp.Lexicographic.{nat_list_eq_equiv};

    ghost laws = { on_equiv (λ d. d.0) nat_list_eq_equiv };
}

impl PartialOrd for Digest {
    ghost use Rattle.std.specs.Prelude.{Some};
    ghost use Rattle.std.specs.Cmp.{on_po};
    ghost use Rattle.std.specs.Cmp.Lexicographic.{slice_cmp, texts_po};
    ghost use Rattle.std.specs.Ordering.{nat_cmp};

    ghost partial_cmp = { λ a b. Some (slice_cmp nat_cmp a.0 b.0) };

    ghost laws = { on_po (λ d. d.0) texts_po };

    fn partial_cmp(&self, other: &Digest) -> Option<Ordering> {
        Some(self.cmp(other))
    }
}

impl Ord for Digest {
    ghost use Rattle.std.specs.Prelude.{refl};
    ghost use Rattle.std.specs.Cmp.{on_total};
    ghost use Rattle.std.specs.Cmp.Lexicographic.{nat_list_cmp_total, slice_cmp, texts_ties};
    ghost use Rattle.std.specs.Ordering.{nat_cmp};

    ghost cmp = { λ a b. slice_cmp nat_cmp a.0 b.0 };

    ghost total = { on_total (λ d. d.0) nat_list_cmp_total };

    ghost matches_partial_cmp = { λ a b. refl };

    ghost matches_eq = { λ a b. texts_ties a.0 b.0 };

    #[inline(always)]
    fn cmp(&self, other: &Digest) -> Ordering {
        order(&self.0, &other.0)
    }
}

// The order of the first two words of eight bytes that differ, or `Equal` if none do.
#[inline(always)]
fn order(these: &[u8], those: &[u8]) -> Ordering
    requires { (length these.now ≡ 32) × (length those.now ≡ 32) }
    ensures { result ≡ slice_cmp nat_cmp these.now those.now }
{
    for index in 0..4 {
        let (one, two) = (word(these, index), word(those, index));
        if one != two {
            return one.cmp(&two);
        }
    }
    Ordering::Equal
}

// The number that eight bytes from byte 8 * `index` on spell, the first the most significant.
#[inline(always)]
fn word(bytes: &[u8], index: usize) -> u64
    requires { 8 * index + 8 ≤ length bytes.now }
    ensures { result ≡ from_be_bytes w64 (drop (8 * index) bytes.now) }
{
    let at = 8 * index;
    u64::from_be_bytes([
        bytes[at],
        bytes[at + 1],
        bytes[at + 2],
        bytes[at + 3],
        bytes[at + 4],
        bytes[at + 5],
        bytes[at + 6],
        bytes[at + 7],
    ])
}

/// The SHA-256 digest (FIPS 180-4) of the bytes. Allocates nothing.
pub fn digest_of(bytes: &[u8]) -> Digest
    ensures { result.0 ≡ sha256 bytes.now }
{
    Digest(<Sha256 as sha2::Digest>::digest(bytes))
}
