//! Random calls, compared with ordered maps and sets, and cases that random calls do not reach.
use nw_digest::{Digest, NoMemory, Round};
use rand_core::utils::NextWord;
use rand_pcg::Pcg32;
use std::alloc::{Allocator, Global};
use std::process::Abort;

mod chunks;
mod log;
mod map;
mod rounds;
mod trie;
mod waiting;

/// A digest with this first and this last byte, and zeros between.
fn digest(first: u8, last: u8) -> Digest {
    let mut bytes = [0; 32];
    bytes[0] = first;
    bytes[31] = last;
    Digest(bytes)
}

/// The round with this number, which is below 2^48.
fn round(number: u64) -> Result<Round, NoMemory> {
    Round::new(number).ok_or(NoMemory)
}
