//! The transactions of a block.
ghost use Rattle.std.specs.Prelude.{◌≡◌, ◌↔◌, ◌<◌, ◌≤◌, ◌==◌, ◌^◌, ◌++◌, ◌∷◌, []};
ghost use Rattle.std.specs.Prelude.{IfOk, OnOk, OnErr, IsErrOf, All, length, take, drop};
ghost use Rattle.std.specs.Iterator.{YieldsFirstRef, item_count};
ghost use Rattle.std.specs.List.{flat_map};
ghost use Rattle.nw_codec.specs.Packed.{ArePacked, cut, length_at, transaction_bytes};
ghost use Rattle.nw_codec.specs.Fits.{transactions_size};
ghost use Rattle.nw_codec.specs.Limits.{longest_transaction};

use crate::EncodeError;
use crate::limits::MAX_TRANSACTION;
use nw_digest::NoMemory;
use std::alloc::Global;
use std::marker::Model;

/// The transactions of a block, encoded as in its body: before each transaction comes its length in four bytes. Contracts see
/// them as a list.
#[derive(Debug, Drop)]
pub struct Transactions {
    count: usize,
    text: Vec<u8>,
}

impl Model for Transactions {
    ghost use Rattle.std.specs.Prelude.{List, ℕ};
    ghost use Rattle.nw_codec.specs.Packed.{ArePacked, cut};

    ghost Value = { List (List ℕ) };

    ghost view = { λ t. cut t.count t.text.items };

    ghost invariant = { λ t. ArePacked t.count t.text.items };
}

impl Transactions {
    /// No transactions. Makes no allocation.
    pub fn new(alloc: Global) -> Transactions
        ensures { result ≡ [] }
    {
        Transactions {
            count: 0,
            text: Vec::new(alloc),
        }
    }

    /// Adds the transaction at the end. Fails with `OverLimit` exactly when it has more than 65,536 bytes, and with `NoMemory`
    /// if an allocation fails. An error leaves the transactions unchanged.
    pub fn push(&mut self, transaction: &[u8]) -> Result<(), EncodeError>
        ensures pushed { OnOk result (self.new ≡ self.old ++ transaction.now ∷ []) }
        ensures unchanged { OnErr result (self.new ≡ self.old) }
        ensures over_limit { IsErrOf result EncodeError.OverLimit ↔ longest_transaction < length transaction.now }
    {
        if transaction.len() > MAX_TRANSACTION {
            return Err(EncodeError::OverLimit);
        }
        append(&mut self.text, transaction)?;
        self.count += 1;
        Ok(())
    }

    /// The number of transactions. Each has at most 65,536 bytes.
    pub fn len(&self) -> usize
        ensures count { result ≡ length self.now }
        ensures short { All (λ t. length t ≤ longest_transaction) self.now }
    {
        self.count
    }

    /// Whether the block has no transactions.
    pub fn is_empty(&self) -> bool
        ensures { result ≡ (length self.now == 0) }
    {
        self.count == 0
    }

    /// The transactions in order. Makes no allocation.
    pub fn iter(&self) -> TransactionsIter<'_>
        ensures { result ≡ self.now }
    {
        TransactionsIter {
            left: self.count,
            text: self.text.as_slice(),
        }
    }

    /// Their encoding in the body.
    pub(crate) fn text(&self) -> &[u8]
        ensures { result.now ≡ flat_map transaction_bytes self.now }
    {
        self.text.as_slice()
    }

    /// The size of their encoding in a body, in bytes: each takes its own and 4 for its length.
    pub fn size(&self) -> usize
        ensures size { result ≡ transactions_size self.now }
        ensures low { result < 2 ^ 63 }
    {
        self.text.len()
    }

    /// The `count` transactions that the text encodes. Fails with `NoMemory` if the allocation fails.
    pub fn of_text(alloc: Global, count: usize, text: &[u8]) -> Result<Transactions, NoMemory>
        requires { ArePacked count text.now }
        ensures { IfOk result (λ transactions. transactions ≡ cut count text.now) }
    {
        Ok(Transactions {
            count,
            text: Vec::from_slice(alloc, text)?,
        })
    }
}

/// Appends the length of the transaction and the transaction.
fn append(text: &mut Vec<u8>, transaction: &[u8]) -> Result<(), NoMemory>
    requires { length transaction.now ≤ longest_transaction }
    ensures appended { OnOk result
        (text.new.items ≡ text.old.items ++ transaction_bytes transaction.now) }
    ensures unchanged { OnErr result (text.new.items ≡ text.old.items) }
{
    text.reserve(4 + transaction.len())?;
    // Both fit into the reserved memory.
    let length = (transaction.len() as u32).to_be_bytes();
    let _length = text.extend_from_slice(&length);
    let _bytes = text.extend_from_slice(transaction);
    Ok(())
}

/// The transaction at the front of the text, and the rest.
fn first_transaction(text: &[u8]) -> (&[u8], &[u8])
    requires length { 4 ≤ length text.now }
    requires bytes { length_at text.now ≤ length (drop 4 text.now) }
    ensures front { result.0.now ≡ take (length_at text.now) (drop 4 text.now) }
    ensures back { result.1.now ≡ drop (length_at text.now) (drop 4 text.now) }
{
    let (len, rest) = text.split_first_chunk::<4>().unwrap();
    rest.split_at(u32::from_be_bytes(*len) as usize)
}

impl PartialEq for Transactions {
    ghost use Rattle.std.specs.Cmp.Lexicographic.{pointwise, lists_per, nat_list_eq_equiv};
    ghost use Rattle.std.specs.Cmp.{partial_equiv_from_equiv};
    ghost use Rattle.nw_codec.specs.Same.{same_bytes};

    ghost eq = { pointwise same_bytes };

    ghost laws = { lists_per (partial_equiv_from_equiv nat_list_eq_equiv) };

    fn eq(&self, other: &Transactions) -> bool {
        self.count == other.count && self.text == other.text
    }
}

impl Eq for Transactions {
    ghost use Rattle.std.specs.Cmp.Lexicographic.{lists_equiv, nat_list_eq_equiv};

    ghost laws = { lists_equiv nat_list_eq_equiv };
}

/// The remaining transactions in order. Contracts see them as a list. Iterating makes no allocation.
#[derive(Debug, Drop)]
pub struct TransactionsIter<'a> {
    left: usize,
    text: &'a [u8],
}

impl<'a> Model for TransactionsIter<'a> {
    ghost use Rattle.std.specs.Prelude.{List, ℕ};
    ghost use Rattle.nw_codec.specs.Packed.{ArePacked, cut};

    ghost Value = { List (List ℕ) };

    ghost view = { λ i. cut i.left i.text.now };

    ghost invariant = { λ i. ArePacked i.left i.text.now };
}

impl<'a> Iterator for TransactionsIter<'a> {
    type Item = &'a [u8];

    ghost next_gives = { YieldsFirstRef (λ left. left) };

    ghost remaining = { item_count (λ left. left) };

    fn next(&mut self) -> Option<&'a [u8]> {
        self.left = self.left.checked_sub(1)?;
        let (transaction, rest) = first_transaction(self.text);
        self.text = rest;
        Some(transaction)
    }
}
