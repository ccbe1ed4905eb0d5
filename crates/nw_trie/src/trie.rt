//! Maps from digests to values.
ghost use Rattle.std.specs.Prelude.{◌≡◌, ◌+◌, [], ◌↔◌};
ghost use Rattle.std.specs.Prelude.{length, is_some, IsTrue, IfOk, IfErr, OnOk, OnErr};
ghost use Rattle.std.specs.Prelude.{if◌then◌else◌, filter, nat_le};
ghost use Rattle.std.specs.Option.{option_copied, option_copied_mut};
ghost use Rattle.std.specs.Map.{keys_of, lookup, remove_entry};
ghost use Rattle.std.specs.BTreeMap.{insert_entry, is_at};
ghost use Rattle.std.specs.List.Sorted.{IsStrictlySortedBy};
ghost use Rattle.std.specs.Borrow.{sem};
ghost use Rattle.nw_digest.specs.Order.{digest_cmp};
ghost use Rattle.nw_trie.specs.Lent.{trie_follows_value};

use crate::iter::Iter;
use crate::tree::Tree;
use nw_digest::{Digest, InRound, NoMemory, Round};
use std::alloc::Allocator;
use std::marker::Model;

/// A map from digests to values. It takes all its memory from one allocator. Contracts see the entries, ascending by digest.
#[derive(Drop)]
pub struct Trie<V: Drop, A: Allocator> {
    tree: Tree<V, A>,
    len: usize,
    alloc: A,
}

impl<V: Drop, A: Allocator> Model for Trie<V, A> {
    ghost use Rattle.std.specs.Prelude.{◌≡◌, List, length};
    ghost use Rattle.nw_digest.specs.declared.digest.Digest.{Digest};

    ghost Value = { List (Digest × V) };

    ghost view = { λ t. t.tree };

    ghost invariant = { λ t. t.len ≡ length t.tree };
}

impl<V: Drop, A: Allocator> Trie<V, A> {
    /// An empty trie. Allocates nothing.
    pub fn new_in(alloc: A) -> Trie<V, A>
        ensures { result ≡ [] }
    {
        Trie {
            tree: Tree::empty(),
            len: 0,
            alloc,
        }
    }

    /// The number of entries.
    pub fn len(&self) -> usize
        ensures len { result ≡ length self.now }
    {
        self.len
    }

    /// Whether the trie is empty.
    pub fn is_empty(&self) -> bool
        ensures { IsTrue result ↔ (length self.now ≡ 0) }
    {
        self.len == 0
    }

    /// The value of the digest, or `None` if it has none. A lookup passes at most 256 forks and compares one digest.
    pub fn get(&self, digest: &Digest) -> Option<&V>
        ensures value { option_copied result ≡ lookup (is_at (digest_cmp digest.now)) self.now }
    {
        self.tree.get(digest)
    }

    /// The value of the digest, to be changed in place, or `None` if it has none. All other entries stay.
    pub fn get_mut(&mut self, digest: &Digest) -> Option<&mut V>
        ensures* writes_back { sem 𝓛 (trie_follows_value V.row A.row A.Allocator self.entry
            digest.now result) }
        ensures value { option_copied_mut result ≡ lookup (is_at (digest_cmp digest.now)) self.old }
    {
        if self.get(digest).is_none() {
            return None;
        }
        Some(self.tree.value_mut(digest))
    }

    /// The entries, ascending by digest.
    pub fn iter(&self) -> Iter<'_, V, A>
        ensures all { result ≡ self.now }
        ensures ordered { IsStrictlySortedBy digest_cmp (keys_of self.now) }
    {
        Iter::new(&self.tree)
    }

    /// Sets the value of the digest, and returns its old value if it had one. Replacing a value allocates nothing.
    ///
    /// `NoMemory`, with the new value, if an allocation fails, or if there are `usize::MAX` entries already (more than any
    /// memory can hold). Then the trie is unchanged.
    pub fn insert(&mut self, digest: Digest, value: V) -> Result<Option<V>, (NoMemory, V)>
    where
        A: Clone,
        // On success the digest has the value, and its old value is returned.
        ensures old { IfOk result (λ old. old ≡ lookup (is_at (digest_cmp digest)) self.old) }
        ensures entries { OnOk result (self.new ≡ insert_entry digest_cmp self.old digest value) }
        ensures len { IfOk result
            (λ old. length self.new ≡ length self.old + (if is_some old then 0 else 1)) }

        // On failure the value is returned and the entries stay. Only inserting a new digest can fail.
        ensures value_returned { IfErr result (λ refused. refused.1 ≡ value) }
        ensures absent { OnErr result (lookup (is_at (digest_cmp digest)) self.old ≡ None) }
        ensures unchanged { OnErr result (self.new ≡ self.old) }
    {
        if self.len == usize::MAX && self.get(&digest).is_none() {
            return Err((NoMemory, value));
        }
        match self.tree.insert(&self.alloc, digest, value) {
            Err(value) => Err((NoMemory, value)),
            Ok(old) => {
                if old.is_none() {
                    self.len += 1;
                }
                Ok(old)
            }
        }
    }

    /// Sets the value of the digest, and drops its old value if it had one.
    ///
    /// `NoMemory` if `insert` fails. Then the digest had no value, the new value is dropped, and the trie is unchanged.
    pub fn put(&mut self, digest: Digest, value: V) -> Result<(), NoMemory>
    where
        A: Clone,
        ensures put { OnOk result (self.new ≡ insert_entry digest_cmp self.old digest value) }
        ensures absent { OnErr result (lookup (is_at (digest_cmp digest)) self.old ≡ None) }
        ensures unchanged { OnErr result (self.new ≡ self.old) }
    {
        match self.insert(digest, value) {
            Ok(_before) => Ok(()),
            Err((refused, _value)) => Err(refused),
        }
    }

    /// Removes the entry of the digest and returns its value, or `None` if there is no such entry.
    pub fn remove(&mut self, digest: &Digest) -> Option<V>
        ensures value { result ≡ lookup (is_at (digest_cmp digest.now)) self.old }
        ensures entries { self.new ≡ remove_entry (is_at (digest_cmp digest.now)) self.old }
        ensures len { length self.new + (if is_some result then 1 else 0) ≡ length self.old }
    {
        let value = self.tree.remove(digest)?;
        self.len -= 1;
        Some(value)
    }

    /// Drops the entries whose values belong to rounds below the floor, and returns how many were dropped.
    pub fn retain_rounds(&mut self, floor: Round) -> usize
    where
        V: InRound,
        ensures kept { self.new ≡ filter (λ entry. nat_le floor (V.round_of entry.1)) self.old }
        ensures dropped { length self.new + result ≡ length self.old }
        ensures ordered { IsStrictlySortedBy digest_cmp (keys_of self.old) }
    {
        let dropped = self.tree.retain_rounds(floor);
        self.len -= dropped;
        dropped
    }
}
