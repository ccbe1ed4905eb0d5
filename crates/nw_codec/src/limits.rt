//! The constants and limits of the format.

/// The first byte of a block's message.
pub const BLOCK_TAG: u8 = 1;
/// The first byte of a certificate's message.
pub const CERTIFICATE_TAG: u8 = 2;
/// The first byte of a vote's message.
pub const VOTE_TAG: u8 = 3;
/// The first byte of a body.
pub const VERSION: u8 = 1;

/// The size of a signature in bytes.
pub(crate) const SIGNATURE_BYTES: usize = 64;
/// The size of a subject in bytes: a digest, a round and an author.
pub const SUBJECT_BYTES: usize = 40;
/// The size of a parent in bytes: its author and its digest.
pub const PARENT_BYTES: usize = 34;
/// The size of a seal in bytes: its signer and its signature.
pub const SEAL_BYTES: usize = 66;

/// The greatest number of parents of a block.
pub const MAX_PARENTS: usize = 100;
/// The greatest number of transactions of a block.
pub const MAX_TRANSACTIONS: usize = 1024;
/// The greatest size of a transaction in bytes.
pub const MAX_TRANSACTION: usize = 65_536;
/// The greatest size of a body in bytes.
pub const MAX_BODY: usize = 1_048_576;
/// The greatest number of votes of a certificate.
pub const MAX_VOTES: usize = 100;
