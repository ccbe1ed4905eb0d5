//! Plain values that cross between C and the store.
ghost use Rattle.std.specs.Prelude.{◌≡◌, ◌<◌, ◌^◌};
ghost use Rattle.std.specs.Option.{SomeIff};
ghost use Rattle.nw_c.specs.Plain.{digest_in, subject_in, subject_of};

use nw_codec::Subject;
use nw_digest::{Digest, Round};

/// A digest: 32 bytes of SHA-256.
#[repr(C)]
#[derive(Clone, Copy)]
pub struct CDigest {
    pub bytes: [u8; 32],
}

/// An Ed25519 signature of 64 bytes.
#[repr(C)]
#[derive(Clone, Copy)]
pub struct CSignature {
    pub bytes: [u8; 64],
}

/// The digest of a block with the block's round and author. Votes and certificates are for a subject.
#[repr(C)]
#[derive(Clone, Copy)]
pub struct CSubject {
    pub digest: CDigest,
    pub round: u64,
    pub author: u16,
}

/// What a call or a reply is: its kind, and the number or digest that the kind's comment names. A number or digest that it does not name is
/// 0.
#[repr(C)]
#[derive(Clone, Copy)]
pub struct CTagged {
    pub kind: i32,
    pub number: u64,
    pub digest: CDigest,
}

impl CSubject {
    /// The subject as C sees it.
    pub(crate) fn of(subject: &Subject) -> CSubject
        ensures { result ≡ subject_of subject.now }
    {
        CSubject {
            digest: CDigest::of(&subject.digest),
            round: subject.round.get(),
            author: subject.author,
        }
    }

    /// The subject as a value of the store, or `None` if the round is not below 2^48.
    pub fn get(&self) -> Option<Subject>
        ensures { SomeIff result (self.now.round < 2 ^ 48) (subject_in self.now) }
    {
        Some(Subject {
            digest: self.digest.get(),
            round: Round::new(self.round)?,
            author: self.author,
        })
    }
}

impl CDigest {
    /// The digest as C sees it.
    pub fn of(digest: &Digest) -> CDigest
        ensures { digest_in result ≡ digest.now }
    {
        let bytes = digest.0;
        CDigest { bytes }
    }

    /// The digest as a value of the store.
    pub fn get(&self) -> Digest
        ensures { result ≡ digest_in self.now }
    {
        Digest(self.bytes)
    }
}

/// A call or reply of this kind, with neither a number nor a digest.
pub(crate) fn plain(kind: i32) -> CTagged
    ensures { result.kind ≡ kind }
{
    numbered(kind, 0)
}

/// A call or reply of this kind with a number.
pub(crate) fn numbered(kind: i32, number: u64) -> CTagged
    ensures kind { result.kind ≡ kind }
    ensures number { result.number ≡ number }
{
    CTagged {
        kind,
        number,
        digest: CDigest { bytes: [0; 32] },
    }
}

/// A call or reply of this kind with a digest.
pub(crate) fn named(kind: i32, digest: &Digest) -> CTagged
    ensures kind { result.kind ≡ kind }
    ensures digest { digest_in result.digest ≡ digest.now }
{
    CTagged {
        kind,
        number: 0,
        digest: CDigest::of(digest),
    }
}
