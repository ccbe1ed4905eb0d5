//! Messages that OpenSSL signed, from their bytes to a causal read.
use super::key_of;
use nw_book::{Book, Command, Limits};
use nw_check::{CertFault, Checked, CheckedBlock, CheckedCert, check_message, check_message_by};
use nw_committee::Committee;
use nw_digest::{Digest, Shared};
use nw_ed25519::Ed25519;
use nw_prepared::PreparedCommittee;
use std::alloc::Global;
use std::test::Fail;

/// More room than one block, its certificate and three calls need.
const LIMITS: Limits = Limits {
    blocks: 4,
    events: 8,
    window: 2,
    sessions: 1,
};

/// The members' public keys.
const KEYS: [&str; 4] = [
    "b1e281447549fd943d16645ad3dc9eadac410bf57b088568b28330f362eb6440",
    "a4c8790bcd552bd37255db13022ca7099eaaa854aa4cc11ad56c412fffe96287",
    "e90752e3d0e88b2a60d5ebab0c1dff2c3a6f96207fc64d01c76c491ce226cdf5",
    "4ddf389f3afa80659373ef6aa9da2a431d1745cb3c93f8bcc5179b2f3d08135b",
];

/// The first member's block of round 0, with the transaction `x`, as a message.
const BLOCK: &str =
    "01010000000000000000000000010000000178100df078007058a2a433eb0e865f10d7120fa20e3f\
    6c89ac9c35510f7d4e6a92faa7cc8417b30d9dbcdbc42b864b0828ad172bee46ecebf8f0aa3572d4\
    c65406";

/// The block's certificate with the votes of members 0, 1 and 3, as a message.
const CERTIFICATE: &str =
    "02ad5f105076afa169e3887acc36005405d73a816843e97e749449384f3c19f20500000000000000\
    00000300009af1d2533135fb248c8f10d4cc4553277987ca1d852e79d4f63b0762f35cfe4177e476\
    93ee5d3b12f7c6687209012153b24a01910872017e1ac6663d4d51940b0001f5ec3d8ffa342a1d86\
    a25996f8a9197715ada0a4304927a1dd8283bda92c8821f86c1eaefe90d13d1782417c7f09441dbf\
    f9e38033e293b20683de0f7129390e00033655174b2e79551c84048623072f7fb6c96d10e628fd83\
    136a1499a9ad2549057a9d18964278f188ffd3f4e6143b14b950f3e078290f084e841738b7d4d830\
    0e";

/// The same certificate, but member 2 signed the vote of member 3.
const FORGED: &str =
    "02ad5f105076afa169e3887acc36005405d73a816843e97e749449384f3c19f20500000000000000\
    00000300009af1d2533135fb248c8f10d4cc4553277987ca1d852e79d4f63b0762f35cfe4177e476\
    93ee5d3b12f7c6687209012153b24a01910872017e1ac6663d4d51940b0001f5ec3d8ffa342a1d86\
    a25996f8a9197715ada0a4304927a1dd8283bda92c8821f86c1eaefe90d13d1782417c7f09441dbf\
    f9e38033e293b20683de0f7129390e000392cf437b99bef745f7931b51c88f98a0db19f6d093c48c\
    3dc1ca0bb8a7a0fca34fd4405feaadc08fce8e77d02960738ce63f1214d3be64ded13150198aee21\
    06";

/// The committee with these members.
fn committee(alloc: Global) -> Result<Shared<Committee>, Fail> {
    let mut keys = Vec::new(alloc);
    for key in KEYS {
        keys.push(key_of(key)?)?;
    }
    Ok(Shared::new(alloc, Committee::new(alloc, keys)?)?)
}

/// The result of the message's check.
fn checked(
    alloc: Global,
    committee: &Shared<Committee>,
    message: &str,
) -> Result<Checked<Ed25519>, Fail> {
    let text = hex::decode(alloc, message)?;
    Ok(check_message(alloc, committee, text.as_slice())?)
}

/// The block, if the message is a block.
fn block_of(checked: Checked<Ed25519>) -> Option<CheckedBlock<Ed25519>> {
    match checked {
        Checked::Block(block) => Some(block),
        other => {
            drop(other);
            None
        }
    }
}

/// The certificate, if the message is a certificate.
fn certificate_of(checked: Checked<Ed25519>) -> Option<CheckedCert<Ed25519>> {
    match checked {
        Checked::Cert(certificate) => Some(certificate),
        other => {
            drop(other);
            None
        }
    }
}

/// Makes the call as session 0's call with this number.
fn step(
    alloc: Global,
    book: &mut Book<Ed25519>,
    number: u32,
    command: &Command<Ed25519>,
) -> Result<(), Fail> {
    drop(book.step(alloc, 0, number, command)?);
    Ok(())
}

/// Writes and certifies the block. Returns the number of blocks in its causal list.
fn read_back(
    alloc: Global,
    committee: &Shared<Committee>,
    book: &mut Book<Ed25519>,
) -> Result<usize, Fail> {
    let block = block_of(checked(alloc, committee, BLOCK)?).ok_or("not a block")?;
    let digest = block.digest();
    let written = step(alloc, book, 1, &Command::Write(&block));
    drop(block);
    written?;
    let certificate = certificate_of(checked(alloc, committee, CERTIFICATE)?).ok_or(
        "not a certificate",
    )?;
    let certified = step(alloc, book, 2, &Command::Certify(&certificate));
    drop(certificate);
    certified?;
    let ticket = book.open(alloc, 0, 3, digest)?.ok().ok_or("incomplete")?;
    let blocks = ticket.walk(alloc);
    drop(ticket);
    Ok(blocks?.len())
}

/// The number of blocks in the causal list, and whether the forged certificate passes its check.
fn read_back_and_try_forged(
    alloc: Global,
    committee: &Shared<Committee>,
    book: &mut Book<Ed25519>,
) -> Result<(usize, bool), Fail> {
    let count = read_back(alloc, committee, book)?;
    let forged = certificate_of(checked(alloc, committee, FORGED)?);
    Ok((count, forged.is_some()))
}

#[test]
fn a_block_and_its_certificate_are_stored_and_a_forged_one_is_refused(
    rt: HostRuntime,
) -> Result<(), Fail> {
    let members = committee(rt.alloc())?;
    let mut book = Book::new(rt.alloc(), members.try_clone()?, LIMITS)?;
    let outcome = read_back_and_try_forged(rt.alloc(), &members, &mut book);
    drop(book);
    drop(members);
    assert_eq!(rt; outcome?, (1, false));
    Ok(())
}

/// The result of the message's check by the prepared committee.
fn checked_by(
    alloc: Global,
    prepared: &PreparedCommittee,
    message: &str,
) -> Result<Checked<Ed25519>, Fail> {
    let text = hex::decode(alloc, message)?;
    Ok(check_message_by(alloc, prepared.committee(), prepared, text.as_slice())?)
}

/// Whether the prepared committee accepts the block and its certificate, and names the forged vote.
fn gives_the_same(alloc: Global, prepared: &PreparedCommittee) -> Result<bool, Fail> {
    let block = block_of(checked_by(alloc, prepared, BLOCK)?).is_some();
    let certificate = certificate_of(checked_by(alloc, prepared, CERTIFICATE)?).is_some();
    let forged = matches!(
        checked_by(alloc, prepared, FORGED)?,
        Checked::BadCert(CertFault::Signature { signer: 3 })
    );
    Ok(block && certificate && forged)
}

#[test]
fn a_prepared_committee_accepts_the_same_messages(rt: HostRuntime) -> Result<(), Fail> {
    let prepared = PreparedCommittee::new(rt.alloc(), committee(rt.alloc())?)?;
    let same = gives_the_same(rt.alloc(), &prepared);
    drop(prepared);
    assert!(rt; same?);
    Ok(())
}
