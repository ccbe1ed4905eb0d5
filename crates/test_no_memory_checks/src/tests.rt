use nw_codec::Message;
use nw_committee::Committee;
use nw_digest::{NoMemory, Round, Shared};
use samples::fallible::{Slot, VOTED, certificate, committee, signature, unsigned};
use samples::{allow_allocations, fail_allocations, retry};
use std::alloc::Global;
use std::test::Fail;

mod checks;
mod committees;
mod gathers;
mod texts;
mod without;
mod workers;
mod written;

/// The slot of most blocks, votes and certificates.
const SLOT: Slot = (Round::ZERO, 0);

/// A committee of four members.
fn four(alloc: Global) -> Result<Shared<Committee>, NoMemory> {
    retry!(NoMemory, committee(alloc, &[0, 1, 2, 3]))
}

/// The message of a block of round 0 by member 0, signed by this signer.
fn block_message(alloc: Global, four: &Committee, signer: u16) -> Result<Message, Fail> {
    let block = retry!(NoMemory, unsigned(alloc, SLOT, &[], b"x"))?;
    match signature(four, &block, signer) {
        Some(signature) => Ok(Message::Block { block, signature }),
        None => {
            drop(block);
            Err(Fail::from("the block breaks a limit"))
        }
    }
}

/// The message of a certificate with the votes of these signers.
fn certificate_message(
    alloc: Global,
    four: &Committee,
    signers: &[u16],
) -> Result<Message, NoMemory> {
    let certificate = retry!(NoMemory, certificate(alloc, four, VOTED, SLOT, signers))?;
    Ok(Message::Certificate(certificate))
}
