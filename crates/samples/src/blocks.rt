//! Sample blocks, and the digests that name them.
ghost use Rattle.std.specs.Prelude.{◌≡◌, ◌+◌, ◌*◌, ◌<◌, IfOk};
ghost use Rattle.samples.specs.Sample.{NameBases, name_of};

use nw_codec::{Block, Ref, Transactions};
use nw_digest::{Digest, NoMemory, Round, Sequence, Shared};
use std::alloc::Global;

/// The digest of the sample block of this round and author: 32 bytes, each of them 16 * `round` + `author`. It is not a SHA-256 hash.
pub fn name(round: u8, author: u8) -> Digest
    requires { 16 * round + author < 256 }
    ensures { result ≡ name_of (round, author) }
{
    Digest([16 * round + author; 32])
}

/// The round with this number.
pub fn round(number: u8) -> Round
    ensures { result ≡ number }
{
    match Round::new(u64::from(number)) {
        Some(round) => round,
        None => unreachable!(),
    }
}

/// A block with this round and author, these parents, and one transaction.
pub fn shared_block(
    alloc: Global,
    slot: (Round, u16),
    parents: Vec<Ref>,
    text: &[u8],
) -> Result<Shared<Block>, NoMemory>
    ensures { IfOk result
        (λ b. (b.round ≡ slot.0) × (b.author ≡ slot.1) × (b.parents ≡ parents.items)) }
{
    let mut transactions = Transactions::new(alloc);
    transactions.push(text).map_err(|_| NoMemory)?;
    let block = Block {
        author: slot.1,
        round: slot.0,
        parents: Sequence::new(parents),
        transactions,
    };
    Ok(Shared::new(alloc, block)?)
}

/// References to the blocks of round 0 of authors 0, 1 and 2.
pub fn references(alloc: Global) -> Result<Vec<Ref>, NoMemory>
    ensures { IfOk result (λ refs. NameBases 3 refs.items) }
{
    let mut refs = Vec::new(alloc);
    for author in 0..3u8 {
        refs.push(Ref {
            author: author as u16,
            digest: name(0, author),
        })?;
    }
    Ok(refs)
}
