//! The interfaces of signature schemes and of signers.
ghost use Rattle.std.specs.Prelude.{◌≡◌, ℕ, List, Bool, true};
ghost use Rattle.nw_committee.specs.declared.member.Key.{Key};
ghost use Rattle.nw_codec.specs.declared.certificate.Signature.{Signature};

use nw_codec::Signature;
use nw_committee::Key;

/// A signature scheme. The type fixes its meaning: under which key it accepts which signature for which text.
pub trait Scheme {
    /// The meaning of the scheme: whether it accepts this signature for this text under this key.
    ghost accepts: { Key → List ℕ → Signature → Bool };

    /// Whether the scheme accepts the signature for the text under the key. Allocates nothing.
    fn verify(key: &Key, text: &[u8], signature: &Signature) -> bool
        ensures { result ≡ accepts key.now text.now signature.now };
}

/// A value that signs texts for one member. Its scheme accepts each of its signatures under its key.
pub trait Signer {
    /// The scheme that accepts the signatures.
    type Scheme: Scheme;

    /// The key under which the signatures are accepted.
    ghost key: { Self → Key };

    /// The signatures that `sign` may return for a text.
    ghost signs: { Self → List ℕ → Signature → Type 0 };

    /// The key under which the signatures are accepted.
    fn key(&self) -> Key
        ensures { result ≡ key self.now };

    /// A signature for the text. Allocates nothing.
    fn sign(&self, text: &[u8]) -> Signature
        ensures { signs self.now text.now result };

    /// Law: the scheme accepts each signature that `sign` may return, under the signer's key.
    ghost accepted: { (signer : Self) (text : List ℕ) (signature : Signature)
        → signs signer text signature → Self.Scheme.accepts (key signer) text signature ≡ true };
}
