//! Makes random calls on both stores.
use super::both::Both;
use super::words::{REPLIES, words};
use super::*;
use nw_codec::Subject;
use nw_model::{Call, CausalReply, CertifyReply, Look, Reply, WriteReply};
use nw_plain::{Base, Plain};
use rand_core::utils::NextWord;
use rand_pcg::Pcg32;
use std::collections::BTreeSet;
use std::mem;

/// The number of calls.
const CALLS: u32 = 20_000;

/// The window of the stores, in rounds.
const WINDOW: u32 = 7;
/// The bound on held blocks. It is below the number of slots of four authors in the window, so the stores become full.
const ROOM: u32 = 24;

/// The name of a block, drawn from the word. Each of four authors has two blocks in a round; the first is drawn far more often. The round
/// is usually in the window.
fn named(word: u32, floor: Round) -> Name {
    let round = (floor.get() + u64::from(word % 9)).saturating_sub(1);
    let fork = if word / 64 % 16 == 0 { 1 } else { 0 };
    (round, (word / 16 % 4) as u16, fork)
}

/// A reference to an author's block of the round, drawn from the word. One in 64 names another author. One in 64 is to a block of the
/// preceding round.
fn reference(word: u32, round: u64, author: u16) -> Ref {
    let fork = if word / 4 % 32 == 0 { 1 } else { 0 };
    let round = if word / 128 % 64 == 0 {
        round.saturating_sub(1)
    } else {
        round
    };
    Ref {
        author: if word / 8_192 % 64 == 0 {
            author ^ 1
        } else {
            author
        },
        digest: digest_of((round, author, fork)),
    }
}

/// The references of the named block. The same name and variant always get the same references.
fn drawn_references(alloc: Global, name: Name, variant: u8) -> Result<Vec<Ref>, NoMemory> {
    let stream = (u64::from(name.1) * 256 + u64::from(name.2)) * 256 + u64::from(variant);
    let mut random = Pcg32::new(name.0, stream);
    let mut references = Vec::new(alloc);
    for author in 0..4 {
        let word = random.next_word();
        if word % 2 == 0 {
            references.push(reference(word, name.0.saturating_sub(1), author))?;
        }
    }
    Ok(references)
}

/// The named block. For one word in 32 it is another block of the slot.
fn block(alloc: Global, name: Name, word: u32) -> Result<Shared<Block>, NoMemory> {
    let variant = if word % 32 == 0 { 1 } else { 0 };
    let references = drawn_references(alloc, name, variant)?;
    block_of(alloc, (name.0, name.1), references, &[variant])
}

/// A certificate for the named block. For one word in 32 it is for another author's slot.
fn drawn_certificate(
    alloc: Global,
    name: Name,
    word: u32,
) -> Result<Shared<Certificate>, NoMemory> {
    let author = if word % 32 == 0 { name.1 ^ 1 } else { name.1 };
    certificate(alloc, digest_of(name), (name.0, author))
}

/// A random call.
fn next_call(alloc: Global, random: &mut Pcg32, floor: Round) -> Result<Call, NoMemory> {
    let name = named(random.next_word(), floor);
    let word = random.next_word();
    let more = word / 64;
    Ok(match word % 64 {
        0 => Call::Collect(round(floor.get() + u64::from(more % 4))?),
        1..25 => Call::Write(digest_of(name), block(alloc, name, more)?),
        25..47 => Call::Certify(drawn_certificate(alloc, name, more)?),
        47..50 => Call::Certificate(digest_of(name)),
        50..53 => Call::Read(digest_of(name)),
        53..57 => Call::Causal(digest_of(name)),
        57 => Call::MissingOf(digest_of(name)),
        58..60 => Call::Missing((more % 16) as u16),
        60..62 => Call::AskWrite(block(alloc, name, more)?.get().subject(digest_of(name))),
        62 => Call::AskCertify(drawn_certificate(alloc, name, more)?.get().subject()),
        _ => Call::Status,
    })
}

/// Makes a random call, and adds the name of its reply to `seen`. Returns whether the replies are equal.
fn make_next_call(
    alloc: Global,
    both: &mut Both,
    random: &mut Pcg32,
    seen: &mut BTreeSet<&'static str>,
) -> Result<bool, NoMemory> {
    let call = next_call(alloc, random, both.dag.status().floor)?;
    match both.call(alloc, &call) {
        Ok(Some(reply)) => {
            seen.insert(words(&reply))?;
            Ok(true)
        }
        Ok(None) => Ok(false),
        Err(refused) => Err(refused),
    }
}

/// Whether a copy of the tables has the state of the plain store. The plain store goes on as another copy.
fn is_copied(alloc: Global, both: &mut Both) -> Result<bool, NoMemory> {
    let copy = both.dag.copy(alloc)?;
    let expected = Base::of(mem::replace(&mut both.plain, copy));
    let copied = Base::of(both.dag.copy(alloc)?);
    Ok(expected.is_same(&copied))
}

/// What a vote or a certificate for this slot would name, if no block has its digest.
fn unknown(round: Round, author: u16) -> Subject {
    Subject {
        digest: Digest([255; 32]),
        round,
        author,
    }
}

/// The slot's first digest, by the plain store's reply to a question about a digest without a block. The round is in the window.
fn first_digest(plain: &mut Plain, round: Round, author: u16) -> Result<Option<Digest>, NoMemory> {
    match plain.call(&Call::AskWrite(unknown(round, author)))? {
        Reply::Write(WriteReply::Equivocates(first)) => Ok(Some(first)),
        _ => Ok(None),
    }
}

/// The slot's certified digest, by the plain store's reply to such a question.
fn certified_digest(
    plain: &mut Plain,
    round: Round,
    author: u16,
) -> Result<Option<Digest>, NoMemory> {
    match plain.call(&Call::AskCertify(unknown(round, author)))? {
        Reply::Certify(CertifyReply::Conflict(other)) => Ok(Some(other)),
        _ => Ok(None),
    }
}

/// The newest round of the window in which one of eight authors has a digest, or the garbage round.
fn newest(plain: &mut Plain, floor: Round) -> Result<Round, NoMemory> {
    let mut newest = floor;
    for place in 0..8 * WINDOW {
        let (round, author) = (
            round(floor.get() + u64::from(place / 8))?,
            (place % 8) as u16,
        );
        let first = first_digest(plain, round, author)?;
        if first.is_some() || certified_digest(plain, round, author)?.is_some() {
            newest = round;
        }
    }
    Ok(newest)
}

/// How many parents the block misses, by the plain store's reply. 0 if there is no block.
fn missing(plain: &mut Plain, first: Option<Digest>) -> Result<usize, NoMemory> {
    let Some(digest) = first else {
        return Ok(0);
    };
    match &plain.call(&Call::MissingOf(digest))? {
        Reply::MissingOf(Some(missing)) => Ok(missing.as_slice().len()),
        _ => Ok(0),
    }
}

/// Whether the certified digest stands, and whether it is complete, by the plain store's reply to a causal read of it.
fn stands(plain: &mut Plain, certified: Option<Digest>) -> Result<(bool, bool), NoMemory> {
    let Some(digest) = certified else {
        return Ok((false, false));
    };
    match plain.call(&Call::Causal(digest))? {
        Reply::List(_) => Ok((true, true)),
        Reply::Causal(CausalReply::Incomplete) => Ok((true, false)),
        _ => Ok((false, false)),
    }
}

/// The look at the slot that the plain store's replies tell. The round is in the window.
fn expected_look(
    plain: &mut Plain,
    floor: Round,
    newest: Round,
    round: Round,
    author: u16,
) -> Result<Look, NoMemory> {
    let first = first_digest(plain, round, author)?;
    let certified = certified_digest(plain, round, author)?;
    let missing = missing(plain, first)?;
    let (stands, complete) = stands(plain, certified)?;
    Ok(Look {
        floor,
        newest,
        first,
        missing,
        certified,
        stands,
        complete,
    })
}

/// Whether looks at all rounds of the window are the expected ones.
fn looks_as_expected(alloc: Global, both: &mut Both) -> Result<bool, NoMemory> {
    let floor = both.dag.status().floor;
    let newest = newest(&mut both.plain, floor)?;
    for number in 0..u64::from(WINDOW) {
        let round = round(floor.get() + number)?;
        if !round_looks_as_expected(alloc, both, newest, round)? {
            return Ok(false);
        }
    }
    Ok(true)
}

/// Whether looks at the round, and at its slots of eight authors, are the expected ones.
fn round_looks_as_expected(
    alloc: Global,
    both: &mut Both,
    newest: Round,
    round: Round,
) -> Result<bool, NoMemory> {
    let floor = both.dag.status().floor;
    let mut expected = Vec::new(alloc);
    for author in 0..8 {
        let look = expected_look(&mut both.plain, floor, newest, round, author)?;
        if both.dag.look(round, author) != look {
            return Ok(false);
        }
        if look.first.is_some() || look.certified.is_some() {
            expected.push((author, look))?;
        }
    }
    let looks = both.dag.look_round(alloc, round)?;
    Ok(looks.as_slice() == expected.as_slice())
}

/// Makes random calls. After every 512 calls it compacts the tables, and compares a copy of them and looks with the plain store. Returns
/// the number of kinds of replies, or `None` if the stores differ.
fn count_replies(alloc: Global, both: &mut Both, calls: u32) -> Result<Option<usize>, NoMemory> {
    let seen = &mut BTreeSet::new(alloc);
    let mut random = Pcg32::new(1, 1);
    for number in 1..=calls {
        if !make_next_call(alloc, both, &mut random, seen)? {
            return Ok(None);
        }
        if number % 512 == 0 {
            both.dag.compact(alloc)?;
            if !is_copied(alloc, both)? || !looks_as_expected(alloc, both)? {
                return Ok(None);
            }
        }
    }
    Ok(Some(seen.len()))
}

/// The same as `count_replies`, for new stores. It is also `None` if memory runs out.
fn replies_of(alloc: Global, calls: u32) -> Option<usize> {
    let mut both = Both::new(alloc, ROOM, WINDOW);
    let counted = count_replies(alloc, &mut both, calls);
    counted.unwrap_or(None)
}

#[test]
fn random_calls_get_the_replies_of_the_plain_store(rt: HostRuntime) {
    assert_eq!(rt; replies_of(rt.alloc(), CALLS), Some(REPLIES));
}
