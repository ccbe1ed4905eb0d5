//! Decodes blocks. One pass checks the text and keeps its parts, and then the block is built from these parts.
ghost use Rattle.std.specs.Prelude.{◌≡◌, ℕ, ◌+◌, ◌*◌, ◌≤◌, ◌∷◌, ◌++◌};
ghost use Rattle.std.specs.Prelude.{length, All, MatchResult, IfOk};
ghost use Rattle.std.specs.List.{flat_map};
ghost use Rattle.nw_codec.specs.declared.block.Block.{Block};
ghost use Rattle.nw_codec.specs.declared.message.Message.TheVariants as messages;
ghost use Rattle.nw_decode.specs.Faults.{AtVersion, AtParentCount, AtTransactionCount};
ghost use Rattle.nw_decode.specs.Faults.{AtTransactionLength, AtSignature};
ghost use Rattle.nw_decode.specs.Faults.{at_transactions, Reaches, FaultFrom};
ghost use Rattle.nw_codec.specs.Grammar.{parent_bytes};
ghost use Rattle.nw_codec.specs.Limits.{longest_body};
ghost use Rattle.nw_decode.specs.Parts.{HeadAt, ParentsAt, TransactionsAt, AreBlockParts, Decodes};
ghost use Rattle.nw_codec.specs.Spelled.{Spells};
ghost use Rattle.nw_codec.specs.Typed.{IsRef};

use super::fields::{
    field, first, number_of, read_count, read_items, read_last_signature, read_number, read_round,
    until,
};
use crate::DecodeError;
use nw_codec::{
    BLOCK_TAG, Block, MAX_BODY, MAX_PARENTS, MAX_TRANSACTION, MAX_TRANSACTIONS, Message,
    PARENT_BYTES, Ref, Signature, Transactions, VERSION,
};
use nw_digest::{Digest, NoMemory, Round, Sequence};
use std::alloc::Global;

/// The checked fields of a block's text. The parents and the transactions are still encoded.
#[derive(Drop)]
struct BlockParts<'a> {
    author: u16,
    round: u64,
    parents: &'a [u8],
    transaction_count: usize,
    transactions: &'a [u8],
    signature: Signature,
}

/// The message of a block. The text is a body and a signature, without the tag.
pub(super) fn decode_block(alloc: Global, text: &[u8]) -> Result<Message, DecodeError>
    ensures { Decodes (BLOCK_TAG ∷ text.now) result }
{
    let parts = read_block(text)?;
    let signature = parts.signature;
    Ok(Message::Block {
        block: block_of(alloc, parts)?,
        signature,
    })
}

/// The parts of a text that is a body and a signature.
fn read_block(text: &[u8]) -> Result<BlockParts<'_>, DecodeError>
    ensures { MatchResult result
        (λ p. (b : Block) × Spells (BLOCK_TAG ∷ text.now) (messages.Block b p.signature)
        × AreBlockParts b p.author p.round p.parents.now p.transaction_count p.transactions.now)
        (λ e. FaultFrom AtVersion text.now e) }
{
    let (author, round, rest) = read_head(text)?;
    let (parents, rest) = read_parents(rest)?;
    let size = 11 + parents.len();
    let (transaction_count, transactions, rest) = read_transactions(size, rest)?;
    let signature = read_last_signature(rest)?;
    Ok(BlockParts {
        author,
        round,
        parents,
        transaction_count,
        transactions,
        signature,
    })
}

/// The author and the round of the body at the front of the text, and the rest.
fn read_head(text: &[u8]) -> Result<(u16, u64, &[u8]), DecodeError>
    ensures { MatchResult result (λ x. HeadAt text.now x.0 x.1 x.2.now)
        (λ e. FaultFrom AtVersion text.now e) }
{
    let (version, rest) = field::<1>(text)?;
    if version[0] != VERSION {
        return Err(DecodeError::Version);
    }
    let (author, rest) = read_number(rest)?;
    let (round, rest) = read_round(rest)?;
    Ok((author, round, rest))
}

/// Reads the number of parents and the parents. Returns the text of the parents, and the rest.
fn read_parents(text: &[u8]) -> Result<(&[u8], &[u8]), DecodeError>
    ensures { MatchResult result
        (λ x. (length x.0.now ≤ 3400) × ParentsAt text.now x.0.now x.1.now
        × Reaches AtParentCount text.now (AtTransactionCount (11 + length x.0.now)) x.1.now)
        (λ e. FaultFrom AtParentCount text.now e) }
{
    let (count, rest) = read_count(MAX_PARENTS, DecodeError::TooManyParents, text)?;
    read_items::<32>(count, DecodeError::ParentOrder, rest)
}

/// The number of transactions, their text and the rest. `size` is the number of bytes of the body so far.
fn read_transactions(size: usize, text: &[u8]) -> Result<(usize, &[u8], &[u8]), DecodeError>
    requires { size ≤ 3411 }
    ensures { MatchResult result
        (λ x. TransactionsAt text.now x.0 x.1.now x.2.now
        × Reaches (AtTransactionCount size) text.now AtSignature x.2.now)
        (λ e. FaultFrom (AtTransactionCount size) text.now e) }
{
    let over = DecodeError::TooManyTransactions;
    let (count, rest) = read_count(MAX_TRANSACTIONS, over, text)?;
    let after = after_transactions(count, size + 2, rest)?;
    Ok((count, until(rest, after), after))
}

/// The rest after `count` transactions. `size` is the number of bytes of the body so far.
fn after_transactions(count: usize, size: usize, text: &[u8]) -> Result<&[u8], DecodeError>
    requires { size ≤ longest_body }
    ensures { MatchResult result
        (λ rest. Reaches (at_transactions count size) text.now AtSignature rest.now)
        (λ e. FaultFrom (at_transactions count size) text.now e) }
{
    let mut size = size;
    let mut rest = text;
    for _ in 0..count {
        let (more, after) = after_transaction(size, rest)?;
        size = more;
        rest = after;
    }
    Ok(rest)
}

/// The number of bytes of the body up to the end of the transaction at the front, and the rest. `size` is this number
/// before the transaction.
fn after_transaction(size: usize, text: &[u8]) -> Result<(usize, &[u8]), DecodeError>
    requires { size ≤ longest_body }
    ensures { (more : ℕ) → MatchResult result
        (λ x. (x.0 ≤ longest_body)
        × Reaches (AtTransactionLength more size) text.now (at_transactions more x.0) x.1.now)
        (λ e. FaultFrom (AtTransactionLength more size) text.now e) }
{
    let (len, rest) = field::<4>(text)?;
    let len = u32::from_be_bytes(*len) as usize;
    if len > MAX_TRANSACTION {
        return Err(DecodeError::TransactionTooLong);
    }
    let size = size + 4 + len;
    if size > MAX_BODY {
        return Err(DecodeError::BodyTooLong);
    }
    if rest.len() < len {
        return Err(DecodeError::Short);
    }
    Ok((size, &rest[len..]))
}

/// The block with these parts. Fails with `NoMemory` if an allocation fails.
fn block_of(alloc: Global, parts: BlockParts<'_>) -> Result<Block, NoMemory>
    requires { (b : Block) × AreBlockParts b parts.author parts.round parts.parents.now
        parts.transaction_count parts.transactions.now }
    ensures { (b : Block) → AreBlockParts b parts.entry.author parts.entry.round
        parts.entry.parents.now parts.entry.transaction_count parts.entry.transactions.now
        → IfOk result (λ block. block ≡ b) }
{
    let parents = parents_of(alloc, parts.parents)?;
    let transactions = Transactions::of_text(alloc, parts.transaction_count, parts.transactions)?;
    Ok(Block {
        author: parts.author,
        round: Round::new(parts.round).unwrap(),
        parents,
        transactions,
    })
}

/// The parents that the text encodes.
fn parents_of(alloc: Global, text: &[u8]) -> Result<Sequence<Ref>, NoMemory>
    requires { (count : ℕ) × (length text.now ≡ 34 * count) }
    ensures { IfOk result
        (λ parents. All IsRef parents × (text.now ≡ flat_map parent_bytes parents)) }
{
    let count = text.len() / PARENT_BYTES;
    let mut parents = Vec::with_capacity(alloc, count)?;
    let mut rest = text;
    for _ in 0..count {
        let (parent, after) = parent_of(rest);
        parents.push(parent)?;
        rest = after;
    }
    Ok(Sequence::new(parents))
}

/// The parent at the front of the text, and the rest.
fn parent_of(text: &[u8]) -> (Ref, &[u8])
    requires { 34 ≤ length text.now }
    ensures { IsRef result.0 × (text.now ≡ parent_bytes result.0 ++ result.1.now) }
{
    let (author, rest) = number_of(text);
    let (digest, rest) = first::<32>(rest);
    (
        Ref {
            author,
            digest: Digest(*digest),
        },
        rest,
    )
}
