//! Making blocks from their parts.
ghost use Rattle.std.specs.Prelude.{◌≡◌, ◌^◌, ◌∷◌, ◌<◌, [], pos, map, IfOk, IfErr, true, false};
ghost use Rattle.nw_c.specs.Blocks.{AreCutFrom, CannotBeCut, IsMadeBlock, IsNoBlock, parent_in};
ghost use Rattle.nw_c.specs.Kinds.{IsUnchanged};
ghost use Rattle.nw_c.specs.Codes.{IsFirstUnmet, IsOneOf};
ghost use Rattle.nw_c.specs.declared.codes.TheConstants.{BAD_ROUND, DONE, NO_MEMORY, OPEN, OVER_LIMIT};

use super::CParent;
use crate::codes::{BAD_ROUND, NO_MEMORY, OPEN, OVER_LIMIT};
use crate::content::Content;
use crate::handle::{BlockHandle, put};
use crate::hashed::HashedBlock;
use nw_codec::{
    Block, EncodeError, MAX_PARENTS, MAX_TRANSACTIONS, Ref, Transactions, block_digest,
};
use nw_digest::{NoMemory, Round, Sequence, Shared};
use std::alloc::Global;

/// The parents in the caller's array.
fn parents_of(alloc: Global, listed: &[CParent]) -> Result<Vec<Ref>, NoMemory>
    ensures { IfOk result (λ parents. parents.items ≡ map parent_in listed.now) }
{
    Ok(
        listed
            .iter()
            .map(|parent| Ref {
                author: parent.author,
                digest: parent.digest.get(),
            })
            .collect(alloc)?,
    )
}

/// Cuts the bytes into transactions of these lengths, in order. The error is the code to return.
fn transactions_of(alloc: Global, bytes: &[u8], lengths: &[u32]) -> Result<Transactions, i32>
    ensures made { IfOk result (AreCutFrom bytes.now lengths.now) }
    ensures named { IfErr result (IsOneOf (NO_MEMORY ∷ OVER_LIMIT ∷ [])) }
    ensures over_limit { IfErr result
        (λ why. why ≡ OVER_LIMIT → CannotBeCut bytes.now lengths.now) }
{
    let mut transactions = Transactions::new(alloc);
    let mut left = bytes;
    for length in lengths {
        let Some((transaction, rest)) = left.split_at_checked(*length as usize) else {
            return Err(OVER_LIMIT);
        };
        match transactions.push(transaction) {
            Ok(()) => left = rest,
            Err(EncodeError::OverLimit) => return Err(OVER_LIMIT),
            Err(EncodeError::NoMemory) => return Err(NO_MEMORY),
        }
    }
    if !left.is_empty() {
        return Err(OVER_LIMIT);
    }
    Ok(transactions)
}

/// Makes a block of this author and round. `transactions` has the bytes of all transactions, one after another, and `lengths` has the size
/// of each. Parents must ascend strictly by author. A block has at most 100 parents, 1,024 transactions of at most 65,536 bytes each, and a
/// body of 1,048,576 bytes. Returns `NW_BAD_ROUND` if the round is not below 2^48. Returns `NW_OVER_LIMIT` if the parents do not ascend, a
/// limit is exceeded, or the sizes do not add up to the number of bytes. It checks nothing against a committee.
#[unsafe(no_mangle)]
pub extern "C" fn nw_block_new(
    alloc: Global,
    author: u16,
    round: u64,
    parents: &[CParent],
    transactions: &[u8],
    lengths: &[u32],
    out: &mut BlockHandle,
) -> i32
    ensures made { result ≡ pos 0
        → IsMadeBlock author round parents.now transactions.now lengths.now out.new.value }
    ensures unchanged { (result ≡ pos 0 → ⊥) → IsUnchanged out.old out.new }
    ensures opened { result ≡ pos 0 → out.new.held ≡ true }
    ensures over_limit { result ≡ OVER_LIMIT
        → IsNoBlock author round parents.now transactions.now lengths.now }
    ensures code { IsFirstUnmet
        ((OPEN, out.old.held ≡ false) ∷ (BAD_ROUND, round < 2 ^ 48) ∷ [])
        (DONE ∷ NO_MEMORY ∷ OVER_LIMIT ∷ []) result }
{
    if out.is_open() {
        return OPEN;
    }
    let Some(round) = Round::new(round) else {
        return BAD_ROUND;
    };
    // Before anything is copied.
    if parents.len() > MAX_PARENTS || lengths.len() > MAX_TRANSACTIONS {
        return OVER_LIMIT;
    }
    let transactions = match transactions_of(alloc, transactions, lengths) {
        Ok(transactions) => transactions,
        Err(why) => return why,
    };
    let Ok(parents) = parents_of(alloc, parents) else {
        return NO_MEMORY;
    };
    let block = Block {
        author,
        round,
        parents: Sequence::new(parents),
        transactions,
    };
    if !block.fits() {
        return OVER_LIMIT;
    }
    let digest = block_digest(&block);
    match Shared::new(alloc, block) {
        Ok(block) => put(alloc, out, Content::Block(HashedBlock::new(digest, block))),
        Err(_) => NO_MEMORY,
    }
}
