//! Calls that allocate nothing, made while all allocations fail.
use super::*;
use nw_check::{BlockFault, CertFault, Checked, check_block, check_cert, check_message, valid};
use nw_codec::{
    Block, EncodeError, Ref, Signature, Transactions, block_digest, encode_body, encode_message,
};
use nw_decode::{DecodeError, decode_message};
use nw_digest::digest_of;
use nw_sig::{DemoScheme, DemoSigner, Scheme, Signer, text_of_block, text_of_vote};
use samples::fallible::{checked_block, checked_certificate, vote};

/// A text and its fault. The text is a list of bytes, each with a repeat count.
type Text = (&'static [(u8, usize)], DecodeError);

/// A text for each fault except `BodyTooLong`.
const TEXTS: [Text; 10] = [
    (&[], DecodeError::Short),
    (&[(3, 1), (0, 107)], DecodeError::Trailing),
    (&[(4, 1)], DecodeError::Tag),
    (&[(1, 1), (2, 1)], DecodeError::Version),
    (&[(1, 2), (0, 9), (101, 1)], DecodeError::TooManyParents),
    (&[(1, 2), (0, 9), (2, 1), (0, 36)], DecodeError::ParentOrder),
    (
        &[(1, 2), (0, 10), (4, 1), (1, 1)],
        DecodeError::TooManyTransactions,
    ),
    (
        &[(1, 2), (0, 11), (1, 1), (0, 1), (1, 1), (0, 1), (1, 1)],
        DecodeError::TransactionTooLong,
    ),
    (&[(2, 1), (0, 41), (101, 1)], DecodeError::TooManyVotes),
    (&[(2, 1), (0, 41), (2, 1), (0, 68)], DecodeError::VoteOrder),
];

/// The text with these bytes, each repeated as its count says.
fn text_of(alloc: Global, bytes: &[(u8, usize)]) -> Result<Vec<u8>, NoMemory> {
    let mut text = Vec::new(alloc);
    for (byte, times) in bytes {
        text.resize(text.len().saturating_add(*times), *byte)?;
    }
    Ok(text)
}

/// A block's message up to the length of its 16th transaction. Each transaction has 65,536 bytes.
fn long_text(alloc: Global) -> Result<Vec<u8>, NoMemory> {
    let mut text = text_of(alloc, &[(1, 2), (0, 11), (16, 1), (0, 1), (1, 1), (0, 2)])?;
    for _ in 1..16 {
        text.resize(text.len().saturating_add(65_536), b'x')?;
        text.extend_from_slice(&[0, 1, 0, 0])?;
    }
    Ok(text)
}

/// The fault that decoding and checking the text both report, or `None` if they do not agree on one.
fn fault_in(alloc: Global, four: &Shared<Committee>, text: &[u8]) -> Option<DecodeError> {
    fail_allocations(alloc);
    let decoded = decode_message(alloc, text).err();
    let checked = check_message::<DemoScheme>(alloc, four, text);
    allow_allocations(alloc);
    match checked {
        Ok(Checked::BadText(fault)) if decoded == Some(fault) => Some(fault),
        _ => None,
    }
}

/// Whether each of [`TEXTS`] has its fault, and a body that is too long has `BodyTooLong`.
fn have_faults(alloc: Global, four: &Shared<Committee>) -> Result<bool, NoMemory> {
    for (bytes, fault) in TEXTS {
        let text = retry!(NoMemory, text_of(alloc, bytes))?;
        if fault_in(alloc, four, &text) != Some(fault) {
            return Ok(false);
        }
    }
    let long = retry!(NoMemory, long_text(alloc))?;
    Ok(fault_in(alloc, four, &long) == Some(DecodeError::BodyTooLong))
}

/// Whether the check of a vote's message returns the vote without an allocation.
fn finds_a_vote(alloc: Global, four: &Shared<Committee>) -> Result<bool, Fail> {
    let vote = vote(four.get(), VOTED, SLOT, 1);
    let text = texts::text_of(alloc, &Message::Vote(vote))?;
    fail_allocations(alloc);
    let checked = check_message::<DemoScheme>(alloc, four, &text);
    allow_allocations(alloc);
    Ok(matches!(&checked, Ok(Checked::Vote(found)) if *found == vote))
}

/// A block of the slot, with parents of these authors.
fn block_over(alloc: Global, slot: Slot, authors: &[u16]) -> Result<Block, NoMemory> {
    let mut parents = Vec::new(alloc);
    for author in authors {
        parents.push(Ref {
            author: *author,
            digest: VOTED,
        })?;
    }
    unsigned(alloc, slot, &parents, b"x")
}

/// Whether a block and a certificate that do not fit are not encoded, and a transaction that is too long is not added, without an
/// allocation.
fn are_over_limit(alloc: Global, four: &Committee) -> Result<bool, Fail> {
    let block = retry!(NoMemory, block_over(alloc, SLOT, &[1, 0]))?;
    let certificate = certificate_message(alloc, four, &[1, 0])?;
    let signature = Signature([0; 64]);
    let long = retry!(NoMemory, text_of(alloc, &[(b'x', 65_537)]))?;
    fail_allocations(alloc);
    let fits = block.fits() || matches!(&certificate, Message::Certificate(it) if it.fits());
    let refused = [
        Transactions::new(alloc).push(&long).err(),
        encode_body(alloc, &block).err(),
        encode_message(alloc, &certificate).err(),
        encode_message(alloc, &Message::Block { block, signature }).err(),
    ];
    allow_allocations(alloc);
    Ok(!fits && refused == [Some(EncodeError::OverLimit); 4])
}

/// Whether digests, signed texts and signatures are made, and signatures are verified, without an allocation.
fn is_signed(alloc: Global, four: &Committee) -> Result<bool, Fail> {
    let block = retry!(NoMemory, block_over(alloc, SLOT, &[]))?;
    let body = retry!(EncodeError::NoMemory, encode_body(alloc, &block))?;
    let key = *four.key(1).ok_or("there are four members")?;
    fail_allocations(alloc);
    let (fits, digest) = (block.fits(), digest_of(&body));
    let is_its_digest = fits && block_digest(&block) == digest;
    let (signer, text) = (DemoSigner::new(key), text_of_block(&digest));
    let other = text_of_vote(&block.subject(digest));
    let signature = signer.sign(&text);
    let is_verified = DemoScheme::verify(&signer.key(), &text, &signature)
        && !DemoScheme::verify(&key, &other, &signature);
    allow_allocations(alloc);
    Ok(is_its_digest && is_verified)
}

/// Whether the methods and comparisons of committees give the right results without an allocation.
fn committees_answer(alloc: Global, four: &Committee) -> Result<bool, Fail> {
    let same = retry!(NoMemory, committee(alloc, &[0, 1, 2, 3]))?;
    let other = retry!(NoMemory, committee(alloc, &[0, 1, 2, 4]))?;
    fail_allocations(alloc);
    let sizes = (four.size(), four.total(), four.quorum(), four.weight(3));
    let members = four.key(3).is_some() && four.key(4).is_none() && four.weight(4).is_none();
    let reached = four.reaches_quorum(&[0, 1, 2]) && !four.reaches_quorum(&[0, 1]);
    let compared = four == same.get() && four != other.get();
    allow_allocations(alloc);
    Ok(sizes == (4, 4, 3, Some(1)) && members && reached && compared)
}

/// Bad blocks: round, author, authors of parents, signer, and fault.
const BLOCKS: [(u64, u16, &[u16], u16, BlockFault); 5] = [
    (0, 4, &[], 0, BlockFault::Author),
    (0, 0, &[1, 4], 0, BlockFault::ParentAuthor),
    (0, 0, &[1], 0, BlockFault::GenesisParents),
    (1, 0, &[0, 1], 0, BlockFault::FewParents),
    (1, 0, &[0, 1, 2], 1, BlockFault::Signature),
];

/// Whether each of [`BLOCKS`] has its fault. They are checked while all allocations fail.
fn blocks_have_faults(alloc: Global, four: &Shared<Committee>) -> Result<bool, NoMemory> {
    for (number, author, authors, signer, fault) in BLOCKS {
        let slot = (Round::new(number).unwrap_or(Round::ZERO), author);
        let block = retry!(NoMemory, block_over(alloc, slot, authors))?;
        let Some(signature) = signature(four.get(), &block, signer) else {
            drop(block);
            return Ok(false);
        };
        fail_allocations(alloc);
        let found = check_block::<DemoScheme>(alloc, four, block, signature).err();
        allow_allocations(alloc);
        if found != Some(fault) {
            return Ok(false);
        }
    }
    Ok(true)
}

/// Bad certificates: author, signers, and fault.
const CERTIFICATES: [(u16, &[u16], CertFault); 4] = [
    (4, &[0, 1, 2], CertFault::Author),
    (0, &[0, 1, 4], CertFault::Signer),
    (0, &[0, 1], CertFault::FewVotes),
    (0, &[0, 1, 2], CertFault::Signature { signer: 0 }),
];

/// Whether each of [`CERTIFICATES`] has its fault. They are checked while all allocations fail. Their votes are for author 1, so they are
/// forged.
fn certificates_have_faults(alloc: Global, four: &Shared<Committee>) -> Result<bool, NoMemory> {
    let slot = (Round::ZERO, 1);
    for (author, signers, fault) in CERTIFICATES {
        let mut certificate = retry!(
            NoMemory,
            certificate(alloc, four.get(), VOTED, slot, signers)
        )?;
        certificate.author = author;
        fail_allocations(alloc);
        let fits = certificate.fits();
        let is_valid = valid::<DemoScheme>(four.get(), VOTED, &certificate);
        let found = if fits {
            check_cert::<DemoScheme>(alloc, four, certificate).err()
        } else {
            None
        };
        allow_allocations(alloc);
        if is_valid || found != Some(fault) {
            return Ok(false);
        }
    }
    Ok(true)
}

/// Whether checked values give access to their parts, and a certificate is valid only for its own digest, without an allocation.
fn checked_values_answer(alloc: Global, four: &Shared<Committee>) -> Result<bool, Fail> {
    let block = retry!(
        BlockFault::NoMemory,
        checked_block(alloc, four, SLOT, &[], b"x", 0)
    )?;
    let three = retry!(
        CertFault::NoMemory,
        checked_certificate(alloc, four, VOTED, SLOT, &[0, 1, 2])
    )?;
    fail_allocations(alloc);
    let is_block = block.block().get().fits()
        && block.digest() == block_digest(block.block().get())
        && block.committee().get() == four.get();
    let is_certificate = three.certificate().get().digest == VOTED
        && three.digest() == VOTED
        && three.committee().get() == four.get();
    let certificate = three.certificate().get();
    let is_valid = valid::<DemoScheme>(four.get(), VOTED, certificate)
        && !valid::<DemoScheme>(four.get(), block.digest(), certificate);
    allow_allocations(alloc);
    Ok(is_block && is_certificate && is_valid)
}

/// The results of all calls, each of which must be true.
fn all_results(alloc: Global, four: &Shared<Committee>) -> Result<[bool; 10], Fail> {
    Ok([
        have_faults(alloc, four)?,
        finds_a_vote(alloc, four)?,
        are_over_limit(alloc, four.get())?,
        written::are_written(alloc, four.get())?,
        written::is_certificate_written(alloc, four.get())?,
        is_signed(alloc, four.get())?,
        committees_answer(alloc, four.get())?,
        blocks_have_faults(alloc, four)?,
        certificates_have_faults(alloc, four)?,
        checked_values_answer(alloc, four)?,
    ])
}

#[test]
fn calls_without_allocation(rt: HostRuntime) -> Result<(), Fail> {
    let four = four(rt.alloc())?;
    let right = all_results(rt.alloc(), &four);
    let no_workers_refused = workers::refuses_no_workers(&rt, rt.alloc(), &four);
    drop(four);
    assert_eq!(rt; right?, [true; 10]);
    assert!(rt; no_workers_refused);
    Ok(())
}
