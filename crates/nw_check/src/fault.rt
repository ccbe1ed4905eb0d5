//! Why a check fails, and why a vote is not counted.
use nw_digest::NoMemory;
use std::alloc::AllocError;
use thiserror::Error;

/// Why the check of a block fails: the first rule that it breaks, or an allocation failure.
#[derive(Clone, Copy, Debug, PartialEq, Eq, Error)]
pub enum BlockFault {
    /// The author is not a member.
    #[error("author")]
    Author,
    /// The author of a parent is not a member.
    #[error("parent author")]
    ParentAuthor,
    /// The block is of round 0 and has parents.
    #[error("genesis parents")]
    GenesisParents,
    /// The block is of a later round, and the authors of its parents do not reach the quorum.
    #[error("few parents")]
    FewParents,
    /// The scheme does not accept the signature under the author's key.
    #[error("signature")]
    Signature,
    /// An allocation failed. The block is well formed.
    #[error("out of memory")]
    NoMemory,
}

impl From<NoMemory> for BlockFault {
    ghost use Rattle.std.specs.Prelude.{◌≡◌};
    ghost use Rattle.nw_check.specs.declared.fault.BlockFault.TheVariants as fault;

    ghost from_gives = { λ _ e. e ≡ fault.NoMemory };

    fn from(_error: NoMemory) -> BlockFault {
        BlockFault::NoMemory
    }
}

/// Why the check of a certificate fails: the first rule that it breaks, or an allocation failure.
#[derive(Clone, Copy, Debug, PartialEq, Eq, Error)]
pub enum CertFault {
    /// The author is not a member.
    #[error("author")]
    Author,
    /// A signer is not a member.
    #[error("signer")]
    Signer,
    /// The signers do not reach the quorum.
    #[error("few votes")]
    FewVotes,
    /// The scheme does not accept the signature of this signer's vote. It accepts those of all votes before it.
    #[error("signature {signer}")]
    Signature { signer: u16 },
    /// An allocation failed. The certificate is valid.
    #[error("out of memory")]
    NoMemory,
}

impl From<NoMemory> for CertFault {
    ghost use Rattle.std.specs.Prelude.{◌≡◌};
    ghost use Rattle.nw_check.specs.declared.fault.CertFault.TheVariants as fault;

    ghost from_gives = { λ _ e. e ≡ fault.NoMemory };

    fn from(_error: NoMemory) -> CertFault {
        CertFault::NoMemory
    }
}

/// Why `Gather::new` returns no gatherer.
#[derive(Clone, Copy, Debug, PartialEq, Eq, Error)]
pub enum StartFault {
    /// The author of the block is not a member.
    #[error("author")]
    Author,
    /// An allocation failed. The author is a member.
    #[error("out of memory")]
    NoMemory,
}

impl From<NoMemory> for StartFault {
    ghost use Rattle.std.specs.Prelude.{◌≡◌};
    ghost use Rattle.nw_check.specs.declared.fault.StartFault.TheVariants as fault;

    ghost from_gives = { λ _ e. e ≡ fault.NoMemory };

    fn from(_error: NoMemory) -> StartFault {
        StartFault::NoMemory
    }
}

/// Whether the counted votes reach the quorum.
#[derive(Clone, Copy, Debug, PartialEq, Eq)]
pub enum Counted {
    /// The signers of the counted votes do not reach the quorum yet.
    Counted,
    /// The signers of the counted votes reach the quorum.
    Quorum,
}

/// Why a vote is not counted: the first reason that applies.
#[derive(Clone, Copy, Debug, PartialEq, Eq, Error)]
pub enum GatherFault {
    /// The vote is for another block: its digest, round or author differs.
    #[error("other block")]
    OtherBlock,
    /// A vote by this signer was already counted.
    #[error("repeated")]
    Repeated,
    /// The signer is not a member.
    #[error("signer")]
    Signer,
    /// The scheme does not accept the signature under the signer's key.
    #[error("signature")]
    Signature,
    /// An allocation failed. No other reason applies.
    #[error("out of memory")]
    NoMemory,
}

impl From<NoMemory> for GatherFault {
    ghost use Rattle.std.specs.Prelude.{◌≡◌};
    ghost use Rattle.nw_check.specs.declared.fault.GatherFault.TheVariants as fault;

    ghost from_gives = { λ _ e. e ≡ fault.NoMemory };

    fn from(_error: NoMemory) -> GatherFault {
        GatherFault::NoMemory
    }
}

/// Why `Gather::finish` returns no certificate.
#[derive(Clone, Copy, Debug, PartialEq, Eq, Error)]
pub enum FinishFault {
    /// The signers of the counted votes do not reach the quorum.
    #[error("few votes")]
    FewVotes,
    /// An allocation failed. The signers reach the quorum.
    #[error("out of memory")]
    NoMemory,
}

impl From<NoMemory> for FinishFault {
    ghost use Rattle.std.specs.Prelude.{◌≡◌};
    ghost use Rattle.nw_check.specs.declared.fault.FinishFault.TheVariants as fault;

    ghost from_gives = { λ _ e. e ≡ fault.NoMemory };

    fn from(_error: NoMemory) -> FinishFault {
        FinishFault::NoMemory
    }
}

impl From<AllocError> for FinishFault {
    ghost use Rattle.std.specs.Prelude.{◌≡◌};
    ghost use Rattle.nw_check.specs.declared.fault.FinishFault.TheVariants as fault;

    ghost from_gives = { λ _ e. e ≡ fault.NoMemory };

    fn from(_error: AllocError) -> FinishFault {
        FinishFault::NoMemory
    }
}
