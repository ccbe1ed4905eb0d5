use nw_codec::Block;
use nw_digest::{Digest, NoMemory, Round, Shared};
use nw_generation::View;
use samples::{allow_allocations, fail_allocations, name, retry, round};
use std::alloc::Global;

mod dags;
mod generations;
mod plains;
mod tables;
mod views;
mod without;

/// A digest with this first and last byte, and zeros between them.
fn digest(first: u8, last: u8) -> Digest {
    let mut bytes = [0; 32];
    bytes[0] = first;
    bytes[31] = last;
    Digest(bytes)
}

/// Whether the blocks have these rounds and authors, in order.
fn have_slots(blocks: &[Shared<Block>], slots: &[(u64, u16)]) -> bool {
    for (block, slot) in blocks.iter().zip(slots) {
        let block = block.get();
        if (block.round.get(), block.author) != *slot {
            return false;
        }
    }
    blocks.len() == slots.len()
}
