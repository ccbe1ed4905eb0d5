//! Examples of calls on a `Plain`.
use super::dags::certificate_of;
use super::*;
use nw_model::{Call, CausalReply, CertifyReply, CollectReply, Reply, WriteReply};
use nw_plain::{Base, Plain};
use samples::{references, shared_block};

/// A call of the example. A round and an author name a block. Blocks of round 0 have no parents, and the block of round 1 has three.
enum ExampleCall {
    Write(u8, u8),
    Certify(u8, u8),
    Causal,
    Collect,
    Read,
}

/// The digest and the slot of the block of this round and author.
fn named(number: u8, author: u8) -> (Digest, (Round, u16)) {
    let slot = (round(number), u16::from(author));
    (name(number % 2, author % 3), slot)
}

/// The call that an entry of the example describes.
fn call_of(alloc: Global, call: &ExampleCall) -> Result<Call, NoMemory> {
    Ok(match call {
        ExampleCall::Write(number, author) => {
            let (digest, slot) = named(*number, *author);
            let parents = match number {
                0 => Vec::new(alloc),
                _ => references(alloc)?,
            };
            Call::Write(digest, shared_block(alloc, slot, parents, b"x")?)
        }
        ExampleCall::Certify(number, author) => {
            let (digest, slot) = named(*number, *author);
            Call::Certify(certificate_of(alloc, digest, slot)?)
        }
        ExampleCall::Causal => Call::Causal(name(1, 0)),
        ExampleCall::Collect => Call::Collect(round(2)),
        ExampleCall::Read => Call::Read(name(1, 0)),
    })
}

/// The name of a reply of the example, or `another reply`.
fn words(reply: &Reply) -> &'static str {
    match reply {
        Reply::Write(WriteReply::Stored { vote: true }) => "stored vote",
        Reply::Certify(CertifyReply::Certified) => "certified",
        Reply::List(blocks) if have_slots(blocks.as_slice(), &[(0, 0), (0, 1), (0, 2), (1, 0)]) => {
            "all four"
        }
        Reply::Collect(CollectReply::Raised { dropped: 4 }) => "raised 4",
        Reply::Read(None) | Reply::Causal(CausalReply::Unknown) => "unknown",
        _ => "another reply",
    }
}

/// Makes the call on the store, through a copy of the call. Returns the name of a copy of the reply.
fn reply_to(
    plain: &mut Plain,
    alloc: Global,
    call: &ExampleCall,
) -> Result<&'static str, NoMemory> {
    let call = retry!(NoMemory, call_of(alloc, call))?;
    let copy = retry!(NoMemory, call.try_clone())?;
    let reply = retry!(NoMemory, plain.call(&copy))?;
    Ok(words(&retry!(NoMemory, reply.try_clone(alloc))?))
}

const EXAMPLE: [(ExampleCall, &str); 12] = [
    (ExampleCall::Write(0, 0), "stored vote"),
    (ExampleCall::Write(0, 1), "stored vote"),
    (ExampleCall::Write(0, 2), "stored vote"),
    (ExampleCall::Write(1, 0), "stored vote"),
    (ExampleCall::Certify(0, 0), "certified"),
    (ExampleCall::Certify(0, 1), "certified"),
    (ExampleCall::Certify(0, 2), "certified"),
    (ExampleCall::Certify(1, 0), "certified"),
    (ExampleCall::Causal, "all four"),
    (ExampleCall::Collect, "raised 4"),
    (ExampleCall::Read, "unknown"),
    (ExampleCall::Causal, "unknown"),
];

/// The number of calls that get the expected reply, up to the first that does not.
fn count_expected(
    plain: &mut Plain,
    alloc: Global,
    table: &[(ExampleCall, &str)],
) -> Result<usize, NoMemory> {
    for (place, (call, expected)) in table.iter().enumerate() {
        if reply_to(plain, alloc, call)? != *expected {
            return Ok(place);
        }
    }
    Ok(table.len())
}

/// The number of expected replies of the example's last part that a store over the base gives.
fn count_over(alloc: Global, base: &Base) -> Result<usize, NoMemory> {
    let mut plain = retry!(NoMemory, Plain::over(alloc, base))?;
    count_expected(&mut plain, alloc, &EXAMPLE[8..])
}

/// A store after the example's first part: four certified blocks. `NoMemory` also if a call gets another reply.
pub(super) fn first_eight(alloc: Global) -> Result<Plain, NoMemory> {
    let mut plain = Plain::new(alloc, 64, 64);
    match count_expected(&mut plain, alloc, &EXAMPLE[..8])? {
        8 => Ok(plain),
        _ => Err(NoMemory),
    }
}

/// Whether the base has the block, the certificate and the first digest of the slot whose number and author these are.
fn has_entries(base: &Base, number: u8, author: u8) -> bool {
    let (digest, slot) = named(number, author);
    let is_block = base
        .block(&digest)
        .is_some_and(|block| (block.round, block.author) == slot);
    let is_certified = base.certificate(&digest).is_some_and(|kept| kept.digest == digest
        && (kept.round, kept.author) == slot);
    is_block && is_certified && base.first(slot.0, slot.1) == Some(digest)
}

/// Whether the base has the example's state before its last part.
pub(super) fn has_four(base: &Base) -> bool {
    !base.is_opening()
        && base.floor() == Round::ZERO
        && has_entries(base, 0, 0)
        && has_entries(base, 0, 1)
        && has_entries(base, 0, 2)
        && has_entries(base, 1, 0)
        && base.is_same(base)
}

#[test]
fn a_plain_store_replies_and_another_continues_from_its_base(rt: HostRuntime) {
    let plain = first_eight(rt.alloc()).expect(&rt, "allocation succeeds");
    let base = Base::of(plain);
    assert!(rt; has_four(&base));
    assert_eq!(rt; count_over(rt.alloc(), &base), Ok(4));
    let mut less = Plain::new(rt.alloc(), 64, 64);
    assert_eq!(rt; count_expected(&mut less, rt.alloc(), &EXAMPLE[..7]), Ok(7));
    assert!(rt; !base.is_same(&Base::of(less)));
}
