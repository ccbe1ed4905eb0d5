//! Members of a committee.
ghost use Rattle.std.specs.Prelude.{◌≡◌, ℕ};

use nw_codec::{Ref, Seal};

/// A public key of 32 bytes.
#[derive(Clone, Copy, Debug, PartialEq, Eq)]
pub struct Key(pub [u8; 32]);

/// A member of a committee.
#[derive(Clone, Copy, Debug, PartialEq, Eq)]
pub struct Member {
    /// The key under which the member's signatures are accepted.
    pub key: Key,
    /// The weight in a quorum. In a committee it is from 1 to 1,000,000.
    pub weight: u32,
}

/// A value that names a member by its number: a reference names its author, and a seal its signer.
pub trait Numbered {
    ghost number_of: { Self → ℕ };

    /// The number of the named member.
    fn number(&self) -> u16
        ensures { result ≡ number_of self.now };
}

impl Numbered for u16 {
    ghost number_of = { λ n. n };

    fn number(&self) -> u16 {
        *self
    }
}

impl Numbered for Ref {
    ghost number_of = { λ r. r.author };

    fn number(&self) -> u16 {
        self.author
    }
}

impl Numbered for Seal {
    ghost number_of = { λ s. s.signer };

    fn number(&self) -> u16 {
        self.signer
    }
}
