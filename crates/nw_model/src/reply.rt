//! The replies of a store.
ghost use Rattle.std.specs.Prelude.{◌≡◌, IfOk};

use crate::Wanted;
use nw_codec::{Block, Certificate};
use nw_digest::{Digest, NoMemory, Round, Sequence, Shared};
use std::alloc::Global;

/// The reply to a write. Only `Stored` changes the store.
#[derive(Clone, Copy, Debug, PartialEq, Eq)]
pub enum WriteReply {
    /// The block's round is below this garbage round.
    Collected(Round),
    /// The block's round is at or above the garbage round plus the window.
    TooFar,
    /// The same block is held under the digest already.
    Held,
    /// Another block is held under the digest.
    Clash,
    /// The digest is certified for another round or author.
    Misfit,
    /// The block's round and author have this other first digest, and the written digest is not certified.
    Equivocates(Digest),
    /// The number of held blocks has reached its limit.
    Full,
    /// The block is held from now on.
    Stored {
        /// Whether the store votes for the block: its round and author had no first digest.
        vote: bool,
    },
}

/// The reply to a certificate. Only `Certified` changes the store.
#[derive(Clone, Copy, Debug, PartialEq, Eq)]
pub enum CertifyReply {
    /// The certificate's round is below this garbage round.
    Collected(Round),
    /// The certificate's round is at or above the garbage round plus the window.
    TooFar,
    /// The digest is certified for the same round and author.
    Already,
    /// The digest is certified for another round or author, or the block held under it has another.
    Misfit,
    /// This other digest is certified for the round and author.
    Conflict(Digest),
    /// The number of certificates has reached its limit.
    Full,
    /// The certificate is kept from now on.
    Certified,
}

/// The reason why a causal read gets no list.
#[derive(Clone, Copy, Debug, PartialEq, Eq)]
pub enum CausalReply {
    /// No block is held under the digest.
    Unknown,
    /// The block is held, but the digest is not certified.
    Uncertified,
    /// The block is held and certified, but an ancestor above the garbage round has a reference that is not satisfied.
    Incomplete,
}

/// The reply to a collection. Only `Raised` changes the store.
#[derive(Clone, Copy, Debug, PartialEq, Eq)]
pub enum CollectReply {
    /// The round is not above this garbage round.
    NotHigher(Round),
    /// The round is the garbage round from now on, and everything of lower rounds is dropped.
    Raised {
        /// The number of dropped blocks.
        dropped: u64,
    },
}

/// The reply to `Status`: how much the store keeps, and how many parents it wants.
#[derive(Clone, Copy, Debug, PartialEq, Eq)]
pub struct Counts {
    /// The garbage round.
    pub floor: Round,
    /// The number of held blocks.
    pub blocks: u64,
    /// The number of certificates.
    pub certificates: u64,
    /// The number of complete blocks.
    pub complete: u64,
    /// The number of wanted parents.
    pub wanted: u64,
}

/// The reply to a call.
#[derive(Debug, Drop)]
pub enum Reply {
    /// To a write.
    Write(WriteReply),
    /// To a certificate.
    Certify(CertifyReply),
    /// To a call for a certificate: the one that is kept for the digest, if there is one.
    Certificate(Option<Shared<Certificate>>),
    /// To a read: the block that is held under the digest, if there is one.
    Read(Option<Shared<Block>>),
    /// To a causal read that gets no list: the reason.
    Causal(CausalReply),
    /// To a causal read of a complete digest, in place of the list. Histories always record `Ready` and never the list.
    Ready,
    /// To a causal read of a complete digest: the blocks of its ancestors, strictly ascending by round and author.
    List(Sequence<Shared<Block>>),
    /// To a collection.
    Collect(CollectReply),
    /// To a call for missing parents: the first wanted parents, strictly ascending by round, author and digest.
    Missing(Sequence<Wanted>),
    /// To a call for the missing parents of a block: these, strictly ascending by round, author and digest. `None` if no block is held
    /// under the digest.
    MissingOf(Option<Sequence<Wanted>>),
    /// To a call for the status.
    Status(Counts),
}

impl Reply {
    /// A copy of the reply, which shares its blocks and certificate. `NoMemory` if allocation fails, or if one of them has too many owners.
    pub fn try_clone(&self, alloc: Global) -> Result<Reply, NoMemory>
        ensures { IfOk result (λ copy. copy ≡ self.now) }
    {
        Ok(match self {
            Reply::Write(reply) => Reply::Write(*reply),
            Reply::Certify(reply) => Reply::Certify(*reply),
            Reply::Certificate(None) => Reply::Certificate(None),
            Reply::Certificate(Some(certificate)) => {
                Reply::Certificate(Some(certificate.try_clone()?))
            }
            Reply::Read(None) => Reply::Read(None),
            Reply::Read(Some(block)) => Reply::Read(Some(block.try_clone()?)),
            Reply::Causal(reply) => Reply::Causal(*reply),
            Reply::Ready => Reply::Ready,
            Reply::List(blocks) => Reply::List(clone_all(alloc, blocks)?),
            Reply::Collect(reply) => Reply::Collect(*reply),
            Reply::Missing(wanted) => Reply::Missing(copy_all(alloc, wanted)?),
            Reply::MissingOf(None) => Reply::MissingOf(None),
            Reply::MissingOf(Some(missing)) => Reply::MissingOf(Some(copy_all(alloc, missing)?)),
            Reply::Status(counts) => Reply::Status(*counts),
        })
    }
}

/// A copy of the list, which shares the blocks.
fn clone_all(
    alloc: Global,
    blocks: &Sequence<Shared<Block>>,
) -> Result<Sequence<Shared<Block>>, NoMemory>
    ensures { IfOk result (λ copy. copy ≡ blocks.now) }
{
    let mut copy = Vec::with_capacity(alloc, blocks.as_slice().len())?;
    for block in blocks.as_slice() {
        copy.push(block.try_clone()?)?;
    }
    Ok(Sequence::new(copy))
}

/// A copy of the list.
fn copy_all(alloc: Global, wanted: &Sequence<Wanted>) -> Result<Sequence<Wanted>, NoMemory>
    ensures { IfOk result (λ copy. copy ≡ wanted.now) }
{
    Ok(Sequence::new(wanted.as_slice().to_vec(alloc)?))
}
