//! The kinds of texts.
ghost use Rattle.std.specs.Prelude.{◌≡◌, pos};
ghost use Rattle.nw_c.specs.Messages.{IsMessageOf, block_kind, cert_kind, text_kind};
ghost use Rattle.nw_c.specs.Plain.{subject_of};

use crate::plain::CSubject;
use nw_check::{BlockFault, CertFault, Checked};
use nw_codec::Subject;
use nw_decode::DecodeError;
use nw_digest::{Digest, Round};
use nw_ed25519::Ed25519;

/// A block. A checked one is well formed.
pub(crate) const BLOCK: i32 = 101;
/// A certificate. A checked one is valid.
pub(crate) const CERTIFICATE: i32 = 102;
/// A vote. Its signature is not checked until it is added to the gathered votes.
pub(crate) const VOTE: i32 = 103;
/// The text ends too early.
pub(crate) const TEXT_SHORT: i32 = 110;
/// Bytes follow the message.
pub(crate) const TEXT_TRAILING: i32 = 111;
/// The first byte is not that of a message.
pub(crate) const TEXT_TAG: i32 = 112;
/// The version of the block is not 1.
pub(crate) const TEXT_VERSION: i32 = 113;
/// The block has more than 100 parents.
pub(crate) const TEXT_MANY_PARENTS: i32 = 114;
/// The parents' authors do not ascend strictly.
pub(crate) const TEXT_PARENT_ORDER: i32 = 115;
/// The block has more than 1,024 transactions.
pub(crate) const TEXT_MANY_TRANSACTIONS: i32 = 116;
/// A transaction has more than 65,536 bytes.
pub(crate) const TEXT_LONG_TRANSACTION: i32 = 117;
/// The body has more than 1,048,576 bytes.
pub(crate) const TEXT_LONG_BODY: i32 = 118;
/// The certificate has more than 100 votes.
pub(crate) const TEXT_MANY_VOTES: i32 = 119;
/// The signers do not ascend strictly.
pub(crate) const TEXT_VOTE_ORDER: i32 = 120;
/// The block's author is not a member.
pub(crate) const BLOCK_AUTHOR: i32 = 130;
/// A parent's author is not a member.
pub(crate) const BLOCK_PARENT_AUTHOR: i32 = 131;
/// A block of round 0 has parents.
pub(crate) const BLOCK_GENESIS_PARENTS: i32 = 132;
/// The parents' authors do not reach a quorum.
pub(crate) const BLOCK_FEW_PARENTS: i32 = 133;
/// The block's signature is not its author's.
pub(crate) const BLOCK_SIGNATURE: i32 = 134;
/// The certificate's author is not a member.
pub(crate) const CERT_AUTHOR: i32 = 140;
/// A signer is not a member.
pub(crate) const CERT_SIGNER: i32 = 141;
/// The signers do not reach a quorum.
pub(crate) const CERT_FEW_VOTES: i32 = 142;
/// The signature of `signer` is not that member's. All signatures before it are correct.
pub(crate) const CERT_SIGNATURE: i32 = 143;

/// What a checked text is, or what its first bytes say: its kind, the subject of a block, certificate or vote, and the signer of a vote
/// or of a wrong signature. Fields that the kind does not use are 0.
#[repr(C)]
#[derive(Clone, Copy)]
pub struct CMessage {
    pub kind: i32,
    pub signer: u16,
    pub subject: CSubject,
}

/// The kind of a text that is not a message. A checked text never has the fault `NoMemory`.
fn kind_of_text(fault: DecodeError) -> i32
    ensures { result ≡ text_kind fault }
{
    match fault {
        DecodeError::Short => TEXT_SHORT,
        DecodeError::Trailing => TEXT_TRAILING,
        DecodeError::Tag => TEXT_TAG,
        DecodeError::Version => TEXT_VERSION,
        DecodeError::TooManyParents => TEXT_MANY_PARENTS,
        DecodeError::ParentOrder => TEXT_PARENT_ORDER,
        DecodeError::TooManyTransactions => TEXT_MANY_TRANSACTIONS,
        DecodeError::TransactionTooLong => TEXT_LONG_TRANSACTION,
        DecodeError::BodyTooLong => TEXT_LONG_BODY,
        DecodeError::TooManyVotes => TEXT_MANY_VOTES,
        DecodeError::VoteOrder => TEXT_VOTE_ORDER,
        DecodeError::NoMemory => 0,
    }
}

/// The kind of a block that breaks a rule. A checked block never has the fault `NoMemory`.
fn kind_of_block(fault: BlockFault) -> i32
    ensures { result ≡ block_kind fault }
{
    match fault {
        BlockFault::Author => BLOCK_AUTHOR,
        BlockFault::ParentAuthor => BLOCK_PARENT_AUTHOR,
        BlockFault::GenesisParents => BLOCK_GENESIS_PARENTS,
        BlockFault::FewParents => BLOCK_FEW_PARENTS,
        BlockFault::Signature => BLOCK_SIGNATURE,
        BlockFault::NoMemory => 0,
    }
}

/// The kind of a certificate that breaks a rule. A checked certificate never has the fault `NoMemory`.
fn kind_of_cert(fault: &CertFault) -> i32
    ensures { result ≡ cert_kind fault.now }
{
    match fault {
        CertFault::Author => CERT_AUTHOR,
        CertFault::Signer => CERT_SIGNER,
        CertFault::FewVotes => CERT_FEW_VOTES,
        CertFault::Signature { .. } => CERT_SIGNATURE,
        CertFault::NoMemory => 0,
    }
}

/// A message of this kind, signer and subject.
pub(crate) fn about(kind: i32, signer: u16, subject: &Subject) -> CMessage
    ensures kind { result.kind ≡ kind }
    ensures signer { result.signer ≡ signer }
    ensures subject { result.subject ≡ subject_of subject.now }
{
    CMessage {
        kind,
        signer,
        subject: CSubject::of(subject),
    }
}

/// A message of this kind and signer, without a subject.
fn faulty(kind: i32, signer: u16) -> CMessage
    ensures kind { result.kind ≡ kind }
    ensures signer { result.signer ≡ signer }
{
    let subject = Subject {
        digest: Digest([0; 32]),
        round: Round::ZERO,
        author: 0,
    };
    about(kind, signer, &subject)
}

/// What the checked text is.
pub(crate) fn message_of(checked: &Checked<Ed25519>) -> CMessage
    ensures { IsMessageOf checked.now result }
{
    match checked {
        Checked::Block(checked) => {
            let subject = checked.block().get().subject(checked.digest());
            about(BLOCK, 0, &subject)
        }
        Checked::Cert(checked) => about(CERTIFICATE, 0, &checked.certificate().get().subject()),
        Checked::Vote(vote) => about(VOTE, vote.signer, &vote.subject()),
        Checked::BadText(fault) => faulty(kind_of_text(*fault), 0),
        Checked::BadBlock(fault) => faulty(kind_of_block(*fault), 0),
        Checked::BadCert(fault) => {
            let signer = match fault {
                CertFault::Signature { signer } => *signer,
                _ => 0,
            };
            faulty(kind_of_cert(fault), signer)
        }
    }
}
