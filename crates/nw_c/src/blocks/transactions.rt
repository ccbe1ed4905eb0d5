//! Copying the transactions of a block.
ghost use Rattle.std.specs.Prelude.{◌≡◌, ◌∷◌, ◌≤◌, [], pos, length, map, take, true};
ghost use Rattle.std.specs.List.{flat_map};
ghost use Rattle.nw_c.specs.Blocks.{AreCutFrom, HasNoRoom, HasTransactions, NeedMoreThan};
ghost use Rattle.nw_c.specs.Kinds.{IsUnchanged, HoldsBlock};
ghost use Rattle.nw_c.specs.Codes.{IsFirstUnmet};
ghost use Rattle.nw_c.specs.declared.codes.TheConstants.{CLOSED, DONE, OTHER_KIND, SMALL};

use crate::codes::{CLOSED, DONE, OTHER_KIND, SMALL};
use crate::content::Content;
use crate::handle::BlockHandle;
use nw_codec::Transactions;

/// The number of bytes of all transactions together. It visits none of them.
fn size_of_all(transactions: &Transactions) -> usize
    ensures { result ≡ length (flat_map (λ t. t) transactions.now) }
{
    transactions.size() - 4 * transactions.len()
}

/// Copies the transactions, one after another, and their lengths.
fn copy_all(transactions: &Transactions, bytes: &mut [u8], lengths: &mut [u32])
    requires room { length (flat_map (λ t. t) transactions.now) ≤ length bytes.old }
    requires places { length transactions.now ≤ length lengths.old }
    ensures bytes { take (length (flat_map (λ t. t) transactions.now)) bytes.new
        ≡ flat_map (λ t. t) transactions.now }
    ensures lengths { take (length transactions.now) lengths.new ≡ map length transactions.now }
{
    let (mut start, mut index) = (0, 0);
    for transaction in transactions.iter() {
        let end = start + transaction.len();
        bytes[start..end].copy_from_slice(transaction);
        lengths[index] = transaction.len() as u32;
        start = end;
        index += 1;
    }
}

/// Writes the size of all transactions to `needed`, and copies them with their lengths. Returns `SMALL` if there is no room.
fn copied(
    transactions: &Transactions,
    bytes: &mut [u8],
    lengths: &mut [u32],
    needed: &mut usize,
) -> i32
    ensures done { result ≡ pos 0 → AreCutFrom (take needed.new bytes.new)
        (take (length transactions.now) lengths.new) transactions.now }
    ensures small { (result ≡ pos 0 → ⊥)
        → (result ≡ SMALL) × (needed.new ≡ length (flat_map (λ t. t) transactions.now))
        × NeedMoreThan (length bytes.old) (length lengths.old) transactions.now }
    ensures fits { result ≡ pos 0 → needed.new ≤ length bytes.old }
    ensures unchanged { (result ≡ pos 0 → ⊥) → (bytes.new ≡ bytes.old) × (lengths.new ≡ lengths.old) }
{
    let size = size_of_all(transactions);
    *needed = size;
    if size > bytes.len() || transactions.len() > lengths.len() {
        return SMALL;
    }
    copy_all(transactions, bytes, lengths);
    DONE
}

/// Copies all transactions of the block to the buffer, one after another, and their sizes to `lengths`, in the form that `nw_block_new`
/// takes. Writes the size of all together to `needed`. Returns `NW_SMALL` if the buffer is smaller than that, or if `lengths` has fewer
/// places than the block has transactions (`nw_block_counts`).
#[unsafe(no_mangle)]
pub extern "C" fn nw_block_transactions(
    block: &mut BlockHandle,
    buffer: &mut [u8],
    lengths: &mut [u32],
    needed: &mut usize,
) -> i32
    ensures transactions { result ≡ pos 0
        → HasTransactions block.old.value (take needed.new buffer.new) lengths.new }
    ensures same { IsUnchanged block.old block.new }
    ensures small { result ≡ SMALL
        → HasNoRoom block.old.value (length buffer.old) (length lengths.old) needed.new }
    ensures unchanged { (result ≡ pos 0 → ⊥) → (buffer.new ≡ buffer.old) × (lengths.new ≡ lengths.old) }
    ensures fits { result ≡ pos 0 → needed.new ≤ length buffer.old }
    ensures needed { (result ≡ pos 0 → ⊥) → (result ≡ SMALL → ⊥) → needed.new ≡ needed.old }
    ensures code { IsFirstUnmet
        ((CLOSED, block.old.held ≡ true) ∷ (OTHER_KIND, HoldsBlock block.old.value) ∷ [])
        (DONE ∷ SMALL ∷ []) result }
{
    if !block.is_open() {
        return CLOSED;
    }
    match block.lend() {
        Content::Block(held) => copied(&held.block().transactions, buffer, lengths, needed),
        _ => OTHER_KIND,
    }
}
