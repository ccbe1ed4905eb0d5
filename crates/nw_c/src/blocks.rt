//! Reading blocks: their parts, bodies and messages.
ghost use Rattle.std.specs.Prelude.{◌≡◌, ◌∷◌, ◌≤◌, [], pos, take, true, length};
ghost use Rattle.nw_c.specs.Blocks.{HasBody, HasCounts, HasLongBody, HasMessage, HasNoParentAt, HasParentAt, HasSubject};
ghost use Rattle.nw_c.specs.Kinds.{IsUnchanged, HoldsBlock};
ghost use Rattle.nw_c.specs.Plain.{IsTooLong};
ghost use Rattle.nw_c.specs.Codes.{IsFirstUnmet};
ghost use Rattle.nw_c.specs.declared.codes.TheConstants.{ABSENT, CLOSED, DONE, OTHER_KIND, SMALL};

use crate::codes::{ABSENT, CLOSED, DONE, OTHER_KIND};
use crate::content::Content;
use crate::handle::BlockHandle;
use crate::plain::{CDigest, CSignature, CSubject};
use crate::texts::{hand_out_block, hand_out_body};
use nw_codec::Signature;

mod making;
mod transactions;

/// A parent of a block: its author and its digest.
#[repr(C)]
#[derive(Clone, Copy)]
pub struct CParent {
    pub author: u16,
    pub digest: CDigest,
}

/// Writes the digest, round and author of the block. It hashes nothing: every block handle keeps its digest.
#[unsafe(no_mangle)]
pub extern "C" fn nw_block_subject(block: &mut BlockHandle, out: &mut CSubject) -> i32
    ensures subject { result ≡ pos 0 → HasSubject block.old.value out.new }
    ensures same { IsUnchanged block.old block.new }
    ensures unchanged { (result ≡ pos 0 → ⊥) → out.new ≡ out.old }
    ensures code { IsFirstUnmet
        ((CLOSED, block.old.held ≡ true) ∷ (OTHER_KIND, HoldsBlock block.old.value) ∷ [])
        (DONE ∷ []) result }
{
    if !block.is_open() {
        return CLOSED;
    }
    let Content::Block(held) = block.lend() else {
        return OTHER_KIND;
    };
    *out = CSubject::of(&held.block().subject(held.digest()));
    DONE
}

/// Writes how many parents and how many transactions the block has.
#[unsafe(no_mangle)]
pub extern "C" fn nw_block_counts(
    block: &mut BlockHandle,
    parents: &mut usize,
    transactions: &mut usize,
) -> i32
    ensures counts { result ≡ pos 0 → HasCounts block.old.value parents.new transactions.new }
    ensures same { IsUnchanged block.old block.new }
    ensures unchanged { (result ≡ pos 0 → ⊥) → (parents.new ≡ parents.old) × (transactions.new ≡ transactions.old) }
    ensures code { IsFirstUnmet
        ((CLOSED, block.old.held ≡ true) ∷ (OTHER_KIND, HoldsBlock block.old.value) ∷ [])
        (DONE ∷ []) result }
{
    if !block.is_open() {
        return CLOSED;
    }
    match block.lend() {
        Content::Block(held) => {
            *parents = held.block().parents.as_slice().len();
            *transactions = held.block().transactions.len();
            DONE
        }
        _ => OTHER_KIND,
    }
}

/// Writes the parent at the index, counted from 0. Parents ascend by author. Returns `NW_ABSENT` if the block has no such parent.
#[unsafe(no_mangle)]
pub extern "C" fn nw_block_parent(block: &mut BlockHandle, index: usize, out: &mut CParent) -> i32
    ensures parent { result ≡ pos 0 → HasParentAt block.old.value index out.new }
    ensures same { IsUnchanged block.old block.new }
    ensures absent { result ≡ ABSENT → HasNoParentAt block.old.value index }
    ensures unchanged { (result ≡ pos 0 → ⊥) → out.new ≡ out.old }
    ensures code { IsFirstUnmet
        ((CLOSED, block.old.held ≡ true) ∷ (OTHER_KIND, HoldsBlock block.old.value) ∷ [])
        (DONE ∷ ABSENT ∷ []) result }
{
    if !block.is_open() {
        return CLOSED;
    }
    let Content::Block(held) = block.lend() else {
        return OTHER_KIND;
    };
    match held.block().parents.as_slice().get(index) {
        Some(parent) => {
            *out = CParent {
                author: parent.author,
                digest: CDigest::of(&parent.digest),
            };
            DONE
        }
        None => ABSENT,
    }
}

/// Writes the encoded body of the block to the buffer. The block's digest is SHA-256 of these bytes. Writes their size to `needed`. Returns
/// `NW_SMALL` if the buffer is smaller. It needs no memory.
#[unsafe(no_mangle)]
pub extern "C" fn nw_block_body(
    block: &mut BlockHandle,
    buffer: &mut [u8],
    needed: &mut usize,
) -> i32
    ensures body { result ≡ pos 0 → HasBody block.old.value (take needed.new buffer.new) }
    ensures same { IsUnchanged block.old block.new }
    ensures small { result ≡ SMALL → HasLongBody block.old.value (length buffer.old) needed.new }
    ensures unchanged { (result ≡ pos 0 → ⊥) → buffer.new ≡ buffer.old }
    ensures needed { (result ≡ pos 0 → ⊥) → (result ≡ SMALL → ⊥) → needed.new ≡ needed.old }
    ensures code { IsFirstUnmet
        ((CLOSED, block.old.held ≡ true) ∷ (OTHER_KIND, HoldsBlock block.old.value) ∷ (SMALL, needed.new ≤ length buffer.old) ∷ [])
        (DONE ∷ []) result }
{
    if !block.is_open() {
        return CLOSED;
    }
    match block.lend() {
        Content::Block(held) => hand_out_body(held.block(), buffer, needed),
        _ => OTHER_KIND,
    }
}

/// Writes the message of the block with this signature, which can be sent to other members. Writes its size to `needed`. Returns `NW_SMALL`
/// if the buffer is smaller. It does not check the signature, and needs no memory.
#[unsafe(no_mangle)]
pub extern "C" fn nw_block_message(
    block: &mut BlockHandle,
    signature: &CSignature,
    buffer: &mut [u8],
    needed: &mut usize,
) -> i32
    ensures message { result ≡ pos 0 → HasMessage block.old.value signature.now (take needed.new buffer.new) }
    ensures same { IsUnchanged block.old block.new }
    ensures small { result ≡ SMALL
        → IsTooLong (HasMessage block.old.value signature.now) (length buffer.old) needed.new }
    ensures unchanged { (result ≡ pos 0 → ⊥) → buffer.new ≡ buffer.old }
    ensures needed { (result ≡ pos 0 → ⊥) → (result ≡ SMALL → ⊥) → needed.new ≡ needed.old }
    ensures code { IsFirstUnmet
        ((CLOSED, block.old.held ≡ true) ∷ (OTHER_KIND, HoldsBlock block.old.value) ∷ (SMALL, needed.new ≤ length buffer.old) ∷ [])
        (DONE ∷ []) result }
{
    if !block.is_open() {
        return CLOSED;
    }
    match block.lend() {
        Content::Block(held) => {
            let signature = Signature(signature.bytes);
            hand_out_block(held.block(), &signature, buffer, needed)
        }
        _ => OTHER_KIND,
    }
}
