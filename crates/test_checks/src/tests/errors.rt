//! The texts of errors.
use super::*;
use nw_check::{FinishFault, GatherFault, StartFault};
use nw_codec::EncodeError;
use nw_committee::CommitteeFault;
use nw_intake::{GateShut, IntakeFault};
use nw_script::LineFault;
use std::alloc::AllocError;
use std::fmt::Display;

const OF_DECODING: [(DecodeError, &str); 12] = [
    (DecodeError::Short, "the text ends before the message does"),
    (DecodeError::Trailing, "bytes follow the message"),
    (DecodeError::Tag, "unknown kind of message"),
    (DecodeError::Version, "unknown version"),
    (DecodeError::TooManyParents, "too many parents"),
    (DecodeError::ParentOrder, "parents out of order"),
    (DecodeError::TooManyTransactions, "too many transactions"),
    (DecodeError::TransactionTooLong, "transaction too long"),
    (DecodeError::BodyTooLong, "body too long"),
    (DecodeError::TooManyVotes, "too many votes"),
    (DecodeError::VoteOrder, "votes out of order"),
    (DecodeError::NoMemory, "out of memory"),
];

const OF_ENCODING: [(EncodeError, &str); 2] = [
    (EncodeError::OverLimit, "over a limit or out of order"),
    (EncodeError::NoMemory, "out of memory"),
];

const OF_COMMITTEES: [(CommitteeFault, &str); 4] = [
    (
        CommitteeFault::BadSize,
        "no committee has this number of members",
    ),
    (CommitteeFault::RepeatedKey, "two members have the same key"),
    (CommitteeFault::NoMemory, "out of memory"),
    (
        CommitteeFault::BadWeight,
        "a weight is not from 1 to 1,000,000",
    ),
];

const OF_LINES: [(LineFault, &str); 2] = [
    (LineFault::Bad, "bad line"),
    (LineFault::NoMemory, "out of memory"),
];

const OF_BLOCKS: [(BlockFault, &str); 6] = [
    (BlockFault::Author, "author"),
    (BlockFault::ParentAuthor, "parent author"),
    (BlockFault::GenesisParents, "genesis parents"),
    (BlockFault::FewParents, "few parents"),
    (BlockFault::Signature, "signature"),
    (BlockFault::NoMemory, "out of memory"),
];

const OF_CERTIFICATES: [(CertFault, &str); 5] = [
    (CertFault::Author, "author"),
    (CertFault::Signer, "signer"),
    (CertFault::FewVotes, "few votes"),
    (CertFault::Signature { signer: 7 }, "signature 7"),
    (CertFault::NoMemory, "out of memory"),
];

const OF_GATHERERS: [(StartFault, &str); 2] = [
    (StartFault::Author, "author"),
    (StartFault::NoMemory, "out of memory"),
];

const OF_VOTES: [(GatherFault, &str); 5] = [
    (GatherFault::OtherBlock, "other block"),
    (GatherFault::Repeated, "repeated"),
    (GatherFault::Signer, "signer"),
    (GatherFault::Signature, "signature"),
    (GatherFault::NoMemory, "out of memory"),
];

const OF_FINISHING: [(FinishFault, &str); 2] = [
    (FinishFault::FewVotes, "few votes"),
    (FinishFault::NoMemory, "out of memory"),
];

const OF_WORKERS: [(IntakeFault, &str); 4] = [
    (
        IntakeFault::BadWorkers,
        "the number of workers is not from 1 to 16",
    ),
    (IntakeFault::NoMemory, "out of memory"),
    (IntakeFault::Spawn, "a thread could not be started"),
    (IntakeFault::GateShut, "a gate did not let a thread pass"),
];

/// The first text of the table that differs from the text of its error, if there is one.
fn wrong_text<T: Display>(
    alloc: Global,
    table: &[(T, &'static str)],
) -> Result<Option<&'static str>, AllocError> {
    for (error, text) in table {
        if format!(in alloc; "{error}")?.as_str() != *text {
            return Ok(Some(*text));
        }
    }
    Ok(None)
}

#[test]
fn errors_of_formats_have_their_texts(rt: HostRuntime) -> Result<(), Fail> {
    let alloc = rt.alloc();
    let wrong = [
        wrong_text(alloc, &[(NoMemory, "out of memory")])?,
        wrong_text(alloc, &OF_DECODING)?,
        wrong_text(alloc, &OF_ENCODING)?,
        wrong_text(alloc, &OF_COMMITTEES)?,
        wrong_text(alloc, &OF_LINES)?,
    ];
    assert_eq!(rt; wrong, [None; 5]);
    Ok(())
}

#[test]
fn errors_of_checks_have_their_texts(rt: HostRuntime) -> Result<(), Fail> {
    let alloc = rt.alloc();
    let wrong = [
        wrong_text(alloc, &OF_BLOCKS)?,
        wrong_text(alloc, &OF_CERTIFICATES)?,
        wrong_text(alloc, &OF_GATHERERS)?,
        wrong_text(alloc, &OF_VOTES)?,
        wrong_text(alloc, &OF_FINISHING)?,
        wrong_text(alloc, &OF_WORKERS)?,
        wrong_text(alloc, &[(GateShut, "a gate did not let a thread pass")])?,
    ];
    assert_eq!(rt; wrong, [None; 7]);
    Ok(())
}
