//! Messages with one altered byte.
use super::signed::{block, certificate};
use super::*;
use Found::{BadBlock, BadCert, BadText};
use nw_decode::DecodeError::{
    Short, Tag, TooManyParents, TooManyTransactions, TooManyVotes, Trailing, TransactionTooLong,
    Version, VoteOrder,
};

/// A change of one byte: what it shows, the place of the byte, counted from 0, the new byte, and what is found.
type Change = (&'static str, usize, u8, Found);

/// The result of checking the text with this byte at the place.
fn altered(
    alloc: Global,
    committee: &Shared<Committee>,
    text: &[u8],
    place: usize,
    byte: u8,
) -> Result<Found, Fail> {
    let mut altered = text.to_vec(alloc)?;
    *altered.get_mut(place).ok_or("the text is shorter")? = byte;
    Ok(judge(alloc, committee, &altered)?)
}

/// Replaces the byte at the place with each other byte. Returns the number of these texts, how many of them are accepted, and how many
/// have this fault.
fn count_at(
    alloc: Global,
    committee: &Shared<Committee>,
    text: &[u8],
    place: usize,
    fault: Found,
) -> Result<[usize; 3], Fail> {
    let [mut tried, mut accepted, mut faulty] = [0usize; 3];
    for byte in 0..=255 {
        if text.get(place) != Some(&byte) {
            tried = tried.saturating_add(1);
            match altered(alloc, committee, text, place, byte)? {
                Found::Block | Found::Cert | Found::Vote => accepted = accepted.saturating_add(1),
                found if found == fault => faulty = faulty.saturating_add(1),
                _ => {}
            }
        }
    }
    Ok([tried, accepted, faulty])
}

/// Replaces each byte with each other byte. Returns the number of these texts, how many of them are accepted, and how many of those with
/// an altered last byte have this fault.
fn count(
    alloc: Global,
    committee: &Shared<Committee>,
    text: &[u8],
    fault: Found,
) -> Result<[usize; 3], Fail> {
    let mut counted = [0usize; 3];
    for place in 0..text.len() {
        let [tried, accepted, faulty] = count_at(alloc, committee, text, place, fault)?;
        counted = [
            counted[0].saturating_add(tried),
            counted[1].saturating_add(accepted),
            faulty,
        ];
    }
    Ok(counted)
}

#[test]
fn each_byte_of_a_block_altered(rt: HostRuntime) -> Result<(), Fail> {
    let one = committee(rt.alloc(), 1)?;
    let text = block(rt.alloc(), one.get(), 0)?;
    assert!(rt; judge(rt.alloc(), &one, &text)? == Found::Block);
    let fault = Found::BadBlock(BlockFault::Signature);
    assert_eq!(rt; count(rt.alloc(), &one, &text, fault)?, [83 * 255, 0, 255]);
    Ok(())
}

/// Replaces each byte of a certificate of three votes. Returns what is found without a change, and the counts.
fn of_certificate(alloc: Global, is_weighted: bool) -> Result<(Found, [usize; 3]), Fail> {
    let four = four(alloc, is_weighted)?;
    let text = certificate(alloc, four.get())?;
    let fault = Found::BadCert(CertFault::Signature { signer: 2 });
    Ok((
        judge(alloc, &four, &text)?,
        count(alloc, &four, &text, fault)?,
    ))
}

#[test]
fn each_byte_of_a_certificate_altered(rt: HostRuntime) -> Result<(), Fail> {
    let (found, counts) = of_certificate(rt.alloc(), false)?;
    assert!(rt; found == Found::Cert);
    assert_eq!(rt; counts, [241 * 255, 0, 255]);
    Ok(())
}

#[test]
fn each_byte_of_a_certificate_altered_under_weights(rt: HostRuntime) -> Result<(), Fail> {
    let (found, counts) = of_certificate(rt.alloc(), true)?;
    assert!(rt; found == Found::Cert);
    assert_eq!(rt; counts, [241 * 255, 0, 255]);
    Ok(())
}

/// Changes of a block of a committee of one. The first eight make it no message.
const OF_A_BLOCK: [Change; 11] = [
    ("no kind of message", 0, 4, BadText(Tag)),
    ("another version", 1, 2, BadText(Version)),
    ("101 parents", 11, 101, BadText(TooManyParents)),
    ("1,025 transactions", 12, 4, BadText(TooManyTransactions)),
    ("no transaction", 13, 0, BadText(Trailing)),
    (
        "a transaction of 65,537 bytes",
        15,
        1,
        BadText(TransactionTooLong),
    ),
    ("a transaction of no byte", 17, 0, BadText(Trailing)),
    ("a transaction of two bytes", 17, 2, BadText(Short)),
    (
        "an author who is no member",
        3,
        1,
        BadBlock(BlockFault::Author),
    ),
    (
        "round 1 without parents",
        9,
        1,
        BadBlock(BlockFault::FewParents),
    ),
    (
        "another transaction",
        18,
        121,
        BadBlock(BlockFault::Signature),
    ),
];

/// Changes of a certificate of a committee of four. The first nine make it no message.
const OF_A_CERTIFICATE: [Change; 16] = [
    ("a block of another version", 0, 1, BadText(Version)),
    ("a vote", 0, 3, BadText(Trailing)),
    ("no kind of message", 0, 4, BadText(Tag)),
    ("259 votes", 41, 1, BadText(TooManyVotes)),
    ("101 votes", 42, 101, BadText(TooManyVotes)),
    ("two votes", 42, 2, BadText(Trailing)),
    ("four votes", 42, 4, BadText(Short)),
    ("the second signer first", 44, 1, BadText(VoteOrder)),
    ("the second signer last", 176, 1, BadText(VoteOrder)),
    (
        "another digest",
        1,
        0,
        BadCert(CertFault::Signature { signer: 0 }),
    ),
    (
        "another round",
        38,
        1,
        BadCert(CertFault::Signature { signer: 0 }),
    ),
    (
        "another author",
        40,
        1,
        BadCert(CertFault::Signature { signer: 0 }),
    ),
    (
        "an author who is no member",
        40,
        4,
        BadCert(CertFault::Author),
    ),
    (
        "a signer who is no member",
        176,
        4,
        BadCert(CertFault::Signer),
    ),
    (
        "another signer",
        176,
        3,
        BadCert(CertFault::Signature { signer: 3 }),
    ),
    (
        "another signature of member 1",
        111,
        0,
        BadCert(CertFault::Signature { signer: 1 }),
    ),
];

/// The first of the changes after which something else is found.
fn first_other(
    alloc: Global,
    committee: &Shared<Committee>,
    text: &[u8],
    changes: &[Change],
) -> Result<Option<&'static str>, Fail> {
    for (shows, place, byte, found) in changes {
        if altered(alloc, committee, text, *place, *byte)? != *found {
            return Ok(Some(*shows));
        }
    }
    Ok(None)
}

#[test]
fn each_field_altered(rt: HostRuntime) -> Result<(), Fail> {
    let one = committee(rt.alloc(), 1)?;
    let text = block(rt.alloc(), one.get(), 0)?;
    assert_eq!(rt; first_other(rt.alloc(), &one, &text, &OF_A_BLOCK)?, None);
    let four = committee(rt.alloc(), 4)?;
    let text = certificate(rt.alloc(), four.get())?;
    assert_eq!(rt;
        first_other(rt.alloc(), &four, &text, &OF_A_CERTIFICATE)?,
        None
    );
    Ok(())
}
