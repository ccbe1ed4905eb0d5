//! Worked examples of calls on small stores. A `Dag` and a `Plain` must both give the expected replies.
use super::both::Both;
use super::words::words;
use super::*;
use nw_model::{Call, CertifyReply, CollectReply, Reply, Wanted, WriteReply};

mod tables;

/// A call of an example.
enum ExampleCall {
    /// Writes the named block with these parents.
    Write(Name, &'static [Name]),
    /// Writes the named block with these parents, but names this author in the references.
    Naming(Name, u16, &'static [Name]),
    /// Writes another block, for this slot and without parents, under the digest of the named block.
    Under(Name, Slot),
    /// Certifies the named block.
    Certify(Name),
    /// Certifies the named block for another slot.
    CertifyAs(Name, Slot),
    Certificate(Name),
    Read(Name),
    Causal(Name),
    Collect(u64),
    Missing(u16),
    MissingOf(Name),
    Status,
}

/// The expected reply of both stores.
enum Expected {
    /// The reply with this name.
    Is(&'static str),
    /// `Equivocates`: the named block is the first of the slot.
    Equivocates(Name),
    /// `Conflict`: the named block is certified for the slot.
    Conflict(Name),
    /// `Collected`: the round is below this garbage round.
    Below(u64),
    /// The named block.
    Found(Name),
    /// A certificate for this slot.
    Kept(Slot),
    /// A list of blocks with these slots.
    List(&'static [Slot]),
    /// `Raised`, with this number of dropped blocks.
    Raised(u64),
    /// `NotHigher`, with this garbage round.
    NotHigher(u64),
    /// Wanted parents with these slots, under the digests of the named blocks.
    Wanted(&'static [(Slot, Name)]),
    /// The garbage round, and the numbers of blocks, certificates, complete blocks and wanted parents.
    Counts([u64; 5]),
}

/// Calls on two new stores with a window of four rounds, and their expected replies.
struct Example {
    purpose: &'static str,
    /// The bound on the number of blocks.
    room: u32,
    calls: &'static [(ExampleCall, Expected)],
}

/// The write of the named block with these parents. If `author` is given, the references name it instead of the parents' authors.
fn write(
    alloc: Global,
    name: Name,
    parents: &[Name],
    author: Option<u16>,
) -> Result<Call, NoMemory> {
    let references = references(alloc, parents, author)?;
    let block = block_of(alloc, (name.0, name.1), references, &[name.2])?;
    Ok(Call::Write(digest_of(name), block))
}

fn certify(alloc: Global, name: Name, slot: Slot) -> Result<Call, NoMemory> {
    Ok(Call::Certify(certificate(alloc, digest_of(name), slot)?))
}

fn call_of(alloc: Global, call: &ExampleCall) -> Result<Call, NoMemory> {
    match call {
        ExampleCall::Write(name, parents) => write(alloc, *name, parents, None),
        ExampleCall::Naming(name, author, parents) => write(alloc, *name, parents, Some(*author)),
        ExampleCall::Under(name, slot) => {
            let other = block_of(alloc, *slot, Vec::new(alloc), b"other")?;
            Ok(Call::Write(digest_of(*name), other))
        }
        ExampleCall::Certify(name) => certify(alloc, *name, (name.0, name.1)),
        ExampleCall::CertifyAs(name, slot) => certify(alloc, *name, *slot),
        ExampleCall::Certificate(name) => Ok(Call::Certificate(digest_of(*name))),
        ExampleCall::Read(name) => Ok(Call::Read(digest_of(*name))),
        ExampleCall::Causal(name) => Ok(Call::Causal(digest_of(*name))),
        ExampleCall::Collect(number) => Ok(Call::Collect(round(*number)?)),
        ExampleCall::Missing(most) => Ok(Call::Missing(*most)),
        ExampleCall::MissingOf(name) => Ok(Call::MissingOf(digest_of(*name))),
        ExampleCall::Status => Ok(Call::Status),
    }
}

/// Whether the found parents are the wanted ones, in order.
fn are_wanted(found: &[Wanted], wanted: &[(Slot, Name)]) -> bool {
    for (one, (slot, name)) in found.iter().zip(wanted) {
        if (one.round.get(), one.author) != *slot || one.digest != digest_of(*name) {
            return false;
        }
    }
    found.len() == wanted.len()
}

/// Whether it is the named block.
fn is_block(block: &Block, name: Name) -> bool {
    (block.round.get(), block.author) == (name.0, name.1)
        && block.transactions.len() == 1
        && block.transactions.iter().next() == Some(&[name.2])
}

/// Whether the reply is the expected one, for replies with a digest or a number.
fn has_detail(reply: &Reply, expected: &Expected) -> bool {
    match (reply, expected) {
        (Reply::Write(WriteReply::Equivocates(first)), Expected::Equivocates(name)) => {
            *first == digest_of(*name)
        }
        (Reply::Certify(CertifyReply::Conflict(other)), Expected::Conflict(name)) => {
            *other == digest_of(*name)
        }
        (Reply::Write(WriteReply::Collected(floor)), Expected::Below(number))
        | (Reply::Certify(CertifyReply::Collected(floor)), Expected::Below(number))
        | (Reply::Collect(CollectReply::NotHigher(floor)), Expected::NotHigher(number)) => {
            floor.get() == *number
        }
        (Reply::Collect(CollectReply::Raised { dropped }), Expected::Raised(number)) => {
            dropped == number
        }
        _ => false,
    }
}

/// Whether the reply is the expected one.
fn is_expected(reply: &Reply, expected: &Expected) -> bool {
    match (reply, expected) {
        (reply, Expected::Is(named)) => words(reply) == *named,
        (Reply::Read(Some(block)), Expected::Found(name)) => is_block(block.get(), *name),
        (Reply::Certificate(Some(kept)), Expected::Kept(slot)) => {
            (kept.get().round.get(), kept.get().author) == *slot
        }
        (Reply::List(blocks), Expected::List(slots)) => have_slots(blocks.as_slice(), slots),
        (Reply::Missing(found) | Reply::MissingOf(Some(found)), Expected::Wanted(wanted)) =>
            are_wanted(found.as_slice(), wanted),
        (Reply::Status(counts), Expected::Counts(numbers)) => {
            [
                counts.floor.get(),
                counts.blocks,
                counts.certificates,
                counts.complete,
                counts.wanted,
            ] == *numbers
        }
        _ => has_detail(reply, expected),
    }
}

/// Whether both stores give the expected reply to the call.
fn is_answered(
    both: &mut Both,
    alloc: Global,
    call: &ExampleCall,
    expected: &Expected,
) -> Result<bool, NoMemory> {
    let call = call_of(alloc, call)?;
    match both.call(alloc, &call) {
        Ok(Some(reply)) => Ok(is_expected(&reply, expected)),
        Ok(None) => Ok(false),
        Err(refused) => Err(refused),
    }
}

/// Whether both stores, which must be new, give the expected reply to each call in turn.
fn are_answered(both: &mut Both, alloc: Global, example: &Example) -> Result<bool, NoMemory> {
    for (call, expected) in example.calls {
        if !is_answered(both, alloc, call, expected)? {
            return Ok(false);
        }
    }
    Ok(true)
}

/// Whether new stores give the expected replies of the example.
fn is_played(alloc: Global, example: &Example) -> bool {
    let mut both = Both::new(alloc, example.room, 4);
    let answered = are_answered(&mut both, alloc, example);
    matches!(answered, Ok(true))
}

/// What the first of these examples shows that is not played as written.
fn first_other(alloc: Global, examples: &[Example]) -> Option<&'static str> {
    for example in examples {
        if !is_played(alloc, example) {
            return Some(example.purpose);
        }
    }
    None
}

#[test]
fn the_tables_answer_as_the_plain_store(rt: HostRuntime) {
    assert_eq!(rt; first_other(rt.alloc(), &tables::replies::EXAMPLES), None);
    assert_eq!(rt; first_other(rt.alloc(), &tables::parents::EXAMPLES), None);
}
