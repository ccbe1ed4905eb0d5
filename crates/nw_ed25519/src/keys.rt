//! Keys that are prepared for many verifications.
ghost use Rattle.std.specs.Prelude.{◌≡◌, false, take, IfOk, MatchOption};
ghost use Rattle.nw_codec.specs.Same.{same_bytes};
ghost use Rattle.nw_curve.specs.Curve.{base};
ghost use Rattle.nw_curve.specs.Coding.{decoded, encoded};
ghost use Rattle.nw_curve.specs.Inverse.{HasInverse};
ghost use Rattle.nw_ed25519.specs.Accepts.{accepts};
ghost use Rattle.nw_ed25519.specs.Comb.{rows};
ghost use Rattle.nw_ed25519.specs.Prepared.{key_rows, entries_of, bits_of};

use crate::comb::Comb;
use crate::order::the_order;
use crate::prepared::expected_by_combs;
use crate::scheme::challenge;
use nw_codec::Signature;
use nw_committee::Key;
use nw_curve::{Point, Whole};
use std::alloc::{AllocError, Global};

/// The base point, prepared for verifications: 384 KiB, which many keys share.
#[derive(Debug, Drop)]
pub struct PreparedBase {
    comb: Comb,
    ghost bits: { comb.bits ≡ 8 },
    ghost rows: { comb.entries.items ≡ rows 16 16 base },
}

impl PreparedBase {
    /// Prepares the base point.
    pub fn new(alloc: Global) -> Result<PreparedBase, AllocError> {
        let comb = Comb::of(alloc, Point::base(), 8)?;
        Ok(PreparedBase { comb })
    }
}

/// A key, prepared for verifications: 24 KiB, or none if the key is no point.
#[derive(Debug, Drop)]
pub struct PreparedKey {
    key: Key,
    comb: Option<Comb>,
    ghost bits: { bits_of comb ≡ 4 },
    ghost rows: { entries_of comb ≡ key_rows (decoded key.0) },
}

impl PreparedKey {
    /// Prepares the key.
    pub fn of(alloc: Global, key: Key) -> Result<PreparedKey, AllocError>
        ensures { IfOk result (λ it. it.key ≡ key) }
    {
        let comb = match Point::decoded(&key.0) {
            None => None,
            Some(point) => Some(Comb::of(alloc, point.negated(), 4)?),
        };
        Ok(PreparedKey { key, comb })
    }

    /// The key.
    pub fn key(&self) -> &Key
        ensures { result.now ≡ self.now.key }
    {
        &self.key
    }

    /// Whether Ed25519 accepts the signature for the text under the key. Allocates nothing.
    pub fn verify(&self, base: &PreparedBase, text: &[u8], signature: &Signature) -> bool
        ensures { result ≡ accepts self.now.key text.now signature.now }
    {
        let r = &signature.0[..32];
        match self.expected(base, text, signature) {
            None => false,
            Some(point) => r == point.encoded().as_slice(),
        }
    }

    /// The point whose encoding must be the signature's R, or `None` if Ed25519 accepts no signature with this S and key. So a caller can
    /// encode the points of many signatures at once. Allocates nothing.
    pub fn expected(&self, base: &PreparedBase, text: &[u8], signature: &Signature) -> Option<Point>
        ensures { MatchOption result (accepts self.now.key text.now signature.now ≡ false)
            (λ point. HasInverse point.z
            × (accepts self.now.key text.now signature.now ≡ same_bytes (take 32 signature.now.0) (encoded point))) }
    {
        let s = Whole::from_bytes(&signature.0[32..]);
        if !s.is_below(&the_order()) {
            return None;
        }
        match &self.comb {
            None => None,
            Some(comb) => {
                let k = challenge(&signature.0[..32], &self.key, text);
                Some(expected_by_combs(&base.comb, comb, &s, &k))
            }
        }
    }
}
