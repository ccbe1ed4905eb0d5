//! The signature scheme.
ghost use Rattle.std.specs.Prelude.{◌≡◌, ◌<◌, length, take};
ghost use Rattle.nw_ed25519.specs.Accepts.{accepts, challenge};

use crate::order::{modulo_order, the_order};
use crate::sum::expected;
use nw_codec::Signature;
use nw_committee::Key;
use nw_curve::{Point, Whole};
use nw_sig::Scheme;
use sha2::{Digest, Sha512};

/// The Ed25519 scheme. It only verifies: keys and signatures are made elsewhere.
#[derive(Clone, Copy, Debug, PartialEq, Eq)]
pub struct Ed25519;

impl Scheme for Ed25519 {
    ghost accepts = { accepts };

    #[tactic(auto, unfolding(crate::specs::Accepts::accepts))]
    fn verify(key: &Key, text: &[u8], signature: &Signature) -> bool {
        let r = &signature.0[..32];
        let s = Whole::from_bytes(&signature.0[32..]);
        if !s.is_below(&the_order()) {
            return false;
        }
        match Point::decoded(&key.0) {
            None => false,
            Some(point) => r == expected(&s, &challenge(r, key, text), point).as_slice(),
        }
    }
}

/// SHA-512 of R, the key and the text, as a number modulo the order.
#[tactic(auto, unfolding(crate::specs::Accepts::challenge))]
pub fn challenge(r: &[u8], key: &Key, text: &[u8]) -> Whole
    ensures { result ≡ challenge r.now key.now.0 text.now }
{
    let mut hasher = Sha512::new();
    hasher.update(r);
    hasher.update(&key.0);
    hasher.update(text);
    modulo_order(&hasher.finalize())
}
