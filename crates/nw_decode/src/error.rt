//! Errors of decoding.
ghost use Rattle.std.specs.Prelude.{◌≡◌};

use nw_digest::NoMemory;
use thiserror::Error;

/// Why a text was not decoded: its first fault in reading order, or an allocation failure.
#[derive(Clone, Copy, Debug, PartialEq, Eq, Error)]
pub enum DecodeError {
    /// Fewer bytes are left than the next field needs.
    #[error("the text ends before the message does")]
    Short,
    /// Bytes follow the last field.
    #[error("bytes follow the message")]
    Trailing,
    /// The first byte is not 1 (block), 2 (certificate) or 3 (vote).
    #[error("unknown kind of message")]
    Tag,
    /// The version of the body is not 1.
    #[error("unknown version")]
    Version,
    /// More than 100 parents.
    #[error("too many parents")]
    TooManyParents,
    /// A parent's author is not greater than the preceding one.
    #[error("parents out of order")]
    ParentOrder,
    /// More than 1,024 transactions.
    #[error("too many transactions")]
    TooManyTransactions,
    /// A transaction of more than 65,536 bytes.
    #[error("transaction too long")]
    TransactionTooLong,
    /// A body of more than 1,048,576 bytes.
    #[error("body too long")]
    BodyTooLong,
    /// More than 100 votes.
    #[error("too many votes")]
    TooManyVotes,
    /// A vote's signer is not greater than the preceding one.
    #[error("votes out of order")]
    VoteOrder,
    /// An allocation failed. The text is a valid block or certificate message.
    #[error("out of memory")]
    NoMemory,
}

impl From<NoMemory> for DecodeError {
    ghost use Rattle.std.specs.Prelude.{◌≡◌};
    ghost use Rattle.nw_decode.specs.declared.error.DecodeError.TheVariants.{NoMemory};

    ghost from_gives = { λ _ e. e ≡ NoMemory };

    fn from(_error: NoMemory) -> DecodeError {
        DecodeError::NoMemory
    }
}
