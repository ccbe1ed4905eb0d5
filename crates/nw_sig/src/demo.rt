//! A scheme for tests and demonstrations. It is not secure: keys are public, and anyone who knows a key can sign with it.
ghost use Rattle.std.specs.Prelude.{◌≡◌, ◌++◌};
ghost use Rattle.sha2.specs.Sha256.{sha256};
ghost use Rattle.nw_sig.specs.Demo.{demo_signature, demo_accepts};

use crate::{Scheme, Signer};
use nw_codec::Signature;
use nw_committee::Key;
use sha2::{Digest, Sha256};

/// The scheme whose signature is SHA-256 of the key and the text, written twice.
#[derive(Clone, Copy, Debug, PartialEq, Eq)]
pub struct DemoScheme;

impl Scheme for DemoScheme {
    ghost accepts = { demo_accepts };

    fn verify(key: &Key, text: &[u8], signature: &Signature) -> bool {
        *signature == demo_signature(key, text)
    }
}

/// A signer for the demonstration scheme. It signs with its public key.
#[derive(Clone, Copy, Debug, PartialEq, Eq)]
pub struct DemoSigner {
    key: Key,
}

impl DemoSigner {
    /// The signer with this key.
    pub fn new(key: Key) -> DemoSigner
        ensures { ⟦<DemoSigner as Signer>⟧.key result ≡ key }
    {
        DemoSigner { key }
    }
}

impl Signer for DemoSigner {
    type Scheme = DemoScheme;

    ghost key = { λ s. s.key };

    ghost signs = { λ s text signature. signature ≡ demo_signature s.key text };

    fn key(&self) -> Key {
        self.key
    }

    fn sign(&self, text: &[u8]) -> Signature {
        demo_signature(&self.key, text)
    }

    ghost use Rattle.nw_sig.specs.Demo.{demo_signature-accepted};

    ghost accepted = { λ s text. demo_signature-accepted s.key text };
}

/// SHA-256 of the key and the text, written twice.
fn demo_signature(key: &Key, text: &[u8]) -> Signature
    ensures { result ≡ demo_signature key.now text.now }
{
    let half = keyed_digest(key, text);
    let mut bytes = [0; 64];
    bytes[..32].copy_from_slice(&half);
    bytes[32..].copy_from_slice(&half);
    Signature(bytes)
}

/// SHA-256 of the key and the text.
fn keyed_digest(key: &Key, text: &[u8]) -> [u8; 32]
    ensures { result ≡ sha256 (key.now.0 ++ text.now) }
{
    let mut hasher = Sha256::new();
    hasher.update(&key.0);
    hasher.update(text);
    hasher.finalize()
}
