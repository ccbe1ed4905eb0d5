//! Maps from digests to values, in many trees.
ghost use Rattle.std.specs.Prelude.{◌≡◌, ◌+◌, ◌<◌, ◌≤◌, [], length, is_some};
ghost use Rattle.std.specs.Prelude.{IfOk, IsTrue, OnOk, OnErr, None, ◌↔◌, if◌then◌else◌};
ghost use Rattle.std.specs.Bool.{MatchBool};
ghost use Rattle.std.specs.Option.{option_copied};
ghost use Rattle.std.specs.Map.{lookup, remove_entry};
ghost use Rattle.std.specs.BTreeMap.{insert_entry, is_at};
ghost use Rattle.nw_digest.specs.Order.{digest_cmp};
ghost use Rattle.nw_digest.specs.Bytes.{AreBytes};
ghost use Rattle.nw_trie.specs.Places.{AreAtPlaces, joined, place_of};

use crate::tree::Tree;
use nw_digest::{Digest, NoMemory, note_bytes};
use std::alloc::Allocator;
use std::marker::Model;
use std::mem;

/// The largest number of bits by which digests are spread over trees.
const MOST_BITS: u8 = 24;

/// A map from digests to values, for many look-ups. It takes all its memory from one allocator. Contracts see the entries, ascending by
/// digest.
///
/// The first bits of a digest tell the tree of its entry. There are at least as many trees as entries, up to 2^24 trees, unless an
/// allocation failed. So a look-up passes less than one fork on average, if the digests are spread evenly, and at most 256 in any case.
#[derive(Drop)]
pub struct DigestMap<V: Drop, A: Allocator> {
    /// In the order of the bits. There is a tree for each value of these bits, or there is no tree at all.
    trees: Vec<Tree<V, A>, A>,
    /// How many bits tell which tree a digest belongs to.
    bits: u8,
    len: usize,
    alloc: A,
}

impl<V: Drop, A: Allocator> Model for DigestMap<V, A> {
    ghost use Rattle.std.specs.Prelude.{List};
    ghost use Rattle.nw_digest.specs.declared.digest.Digest.{Digest};
    ghost use Rattle.nw_trie.specs.Places.{AreSpread, joined};

    ghost Value = { List (Digest × V) };

    ghost view = { λ m. joined m.trees.items };

    ghost invariant = { λ m. AreSpread m.bits m.trees.items m.len };
}

impl<V: Drop, A: Allocator + Copy> DigestMap<V, A> {
    /// An empty map. Allocates nothing.
    pub fn new_in(alloc: A) -> DigestMap<V, A>
        ensures { result ≡ [] }
    {
        DigestMap {
            trees: Vec::new(alloc),
            bits: 0,
            len: 0,
            alloc,
        }
    }

    /// The number of entries.
    pub fn len(&self) -> usize
        ensures len { result ≡ length self.now }
    {
        self.len
    }

    /// The value of the digest, or `None` if it has none.
    pub fn get(&self, digest: &Digest) -> Option<&V>
        ensures value { option_copied result ≡ lookup (is_at (digest_cmp digest.now)) self.now }
    {
        let place = place(digest, self.bits);
        match self.trees.get(place) {
            None => None,
            Some(tree) => tree.get(digest),
        }
    }

    /// Sets the value of the digest, and drops its old value if it had one.
    ///
    /// `NoMemory` if the digest had no value, and an allocation fails or there are `usize::MAX` entries already (more than any memory can
    /// hold). Then the new value is dropped, and the map is unchanged.
    pub fn put(&mut self, digest: Digest, value: V) -> Result<(), NoMemory>
        ensures put { OnOk result (self.new ≡ insert_entry digest_cmp self.old digest value) }
        ensures absent { OnErr result (lookup (is_at (digest_cmp digest)) self.old ≡ None) }
        ensures unchanged { OnErr result (self.new ≡ self.old) }
    {
        if self.is_full_for(&digest) {
            return Err(NoMemory);
        }
        self.spread();
        let old = insert_at(&self.alloc, &mut self.trees, self.bits, digest, value)?;
        if old.is_none() {
            self.len += 1;
        }
        Ok(())
    }

    /// Removes the entry of the digest and returns its value, or `None` if there is no such entry.
    pub fn remove(&mut self, digest: &Digest) -> Option<V>
        ensures value { result ≡ lookup (is_at (digest_cmp digest.now)) self.old }
        ensures entries { self.new ≡ remove_entry (is_at (digest_cmp digest.now)) self.old }
    {
        let value = remove_at(&mut self.trees, self.bits, digest);
        if value.is_some() {
            self.len -= 1;
        }
        value
    }

    /// Whether there are `usize::MAX` entries, and none of the digest.
    fn is_full_for(&self, digest: &Digest) -> bool
        ensures { IsTrue result ↔ (length self.now ≡ usize.MAX)
            × (lookup (is_at (digest_cmp digest.now)) self.now ≡ None) }
    {
        self.len == usize::MAX && self.get(digest).is_none()
    }

    /// Makes the first tree, or spreads the entries over twice as many trees. The entries stay the same. If an allocation fails or there
    /// are enough trees, nothing changes.
    fn spread(&mut self)
        ensures { self.new ≡ self.old }
    {
        if self.len < self.trees.len() {
            return;
        }
        if self.trees.is_empty() {
            if self.trees.reserve(1).is_ok() {
                self.trees.push_reserved(Tree::empty());
            }
        } else if self.bits < MOST_BITS {
            if spread_by(self.alloc, &mut self.trees, self.bits) {
                self.bits += 1;
            }
        }
    }
}

/// Spreads the entries over twice as many trees, by one bit more. Returns whether it did. If an allocation fails, nothing changes.
fn spread_by<V: Drop, A: Allocator + Copy>(
    alloc: A,
    trees: &mut Vec<Tree<V, A>, A>,
    bits: u8,
) -> bool
    requires few { bits < 24 }
    requires places { AreAtPlaces bits 0 trees.old.items }
    ensures spread { MatchBool result
        (AreAtPlaces (bits + 1) 0 trees.new.items × (joined trees.new.items ≡ joined trees.old.items))
        (trees.new ≡ trees.old) }
{
    let Ok(mut halves) = Vec::with_capacity(alloc, trees.len().saturating_mul(2)) else {
        return false;
    };
    for tree in mem::replace(trees, Vec::new(alloc)) {
        let (unset, set) = tree.halves(bits);
        halves.push_reserved(unset);
        halves.push_reserved(set);
    }
    *trees = halves;
    true
}

/// Sets the value of the digest in its tree, and returns its old value if it had one.
///
/// `NoMemory` if the digest had no value, and an allocation fails or there is no tree. Then nothing changes.
fn insert_at<V: Drop, A: Allocator + Clone>(
    alloc: &A,
    trees: &mut Vec<Tree<V, A>, A>,
    bits: u8,
    digest: Digest,
    value: V,
) -> Result<Option<V>, NoMemory>
    requires few { bits ≤ 24 }
    requires places { AreAtPlaces bits 0 trees.old.items }
    ensures old { IfOk result
        (λ old. old ≡ lookup (is_at (digest_cmp digest)) (joined trees.old.items)) }
    ensures entries { OnOk result
        (joined trees.new.items ≡ insert_entry digest_cmp (joined trees.old.items) digest value) }
    ensures len { IfOk result (λ old. length (joined trees.new.items)
        ≡ length (joined trees.old.items) + (if is_some old then 0 else 1)) }
    ensures places { AreAtPlaces bits 0 trees.new.items }
    ensures absent { OnErr result
        (lookup (is_at (digest_cmp digest)) (joined trees.old.items) ≡ None) }
    ensures unchanged { OnErr result (joined trees.new.items ≡ joined trees.old.items) }
{
    let place = place(&digest, bits);
    let Some(tree) = trees.get_mut(place) else {
        return Err(NoMemory);
    };
    match tree.insert(alloc, digest, value) {
        Err(_value) => Err(NoMemory),
        Ok(old) => Ok(old),
    }
}

/// Removes the digest from its tree and returns its value, or `None` if it has none.
fn remove_at<V: Drop, A: Allocator>(
    trees: &mut Vec<Tree<V, A>, A>,
    bits: u8,
    digest: &Digest,
) -> Option<V>
    requires few { bits ≤ 24 }
    requires places { AreAtPlaces bits 0 trees.old.items }
    ensures value { result ≡ lookup (is_at (digest_cmp digest.now)) (joined trees.old.items) }
    ensures entries { joined trees.new.items
        ≡ remove_entry (is_at (digest_cmp digest.now)) (joined trees.old.items) }
    ensures len { length (joined trees.new.items) + (if is_some result then 1 else 0)
        ≡ length (joined trees.old.items) }
    ensures places { AreAtPlaces bits 0 trees.new.items }
{
    let place = place(digest, bits);
    match trees.get_mut(place) {
        None => None,
        Some(tree) => tree.remove(digest),
    }
}

/// The number of the tree to which the digest belongs: its first bits.
fn place(digest: &Digest, bits: u8) -> usize
    requires { bits ≤ 24 }
    ensures place { result ≡ place_of bits digest.now }
    ensures bytes { AreBytes digest.now.0 }
{
    note_bytes(&digest.0);
    let bytes = &digest.0;
    let front = (usize::from(bytes[0]) * 256 + usize::from(bytes[1])) * 256 + usize::from(bytes[2]);
    front >> (24 - bits)
}
