//! Blocks, certificates and votes, and their encoding as bytes.
//!
//! Each value that fits the limits has exactly one text. `docs/FORMATS.md` describes the grammar. nw_decode reads these texts.
//!
//! A block's *body* is its encoding without a tag and a signature; its digest is that of the body. A *subject* is the digest, the
//! round and the author of a block, which its votes and its certificate name. A *seal* is a signer with its signature of a vote.
#![tactic(auto)]

mod block;
mod certificate;
mod encode;
mod error;
mod laws;
mod limits;
mod message;
mod subject;
mod transactions;
mod vote;

pub use block::{Block, Ref};
pub use certificate::{Certificate, Seal, Signature};
pub use encode::{block_digest, encode_body, encode_message};
pub use error::EncodeError;
pub use laws::body_has_its_size;
pub use limits::{
    BLOCK_TAG, CERTIFICATE_TAG, MAX_BODY, MAX_PARENTS, MAX_TRANSACTION, MAX_TRANSACTIONS,
    MAX_VOTES, PARENT_BYTES, SEAL_BYTES, SUBJECT_BYTES, VERSION, VOTE_TAG,
};
pub use message::Message;
pub use subject::Subject;
pub use transactions::{Transactions, TransactionsIter};
pub use vote::Vote;
