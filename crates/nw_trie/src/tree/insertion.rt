//! Insertion of entries into a tree.
ghost use Rattle.std.specs.Prelude.{◌≡◌, ◌+◌, ◌<◌, [], ◌∷◌, ◌++◌, length, is_some};
ghost use Rattle.std.specs.Prelude.{IfOk, IfErr, OnOk, OnErr, Some, None, if◌then◌else◌};
ghost use Rattle.std.specs.Option.{MatchOption};
ghost use Rattle.std.specs.Map.{lookup};
ghost use Rattle.std.specs.BTreeMap.{insert_entry, is_at};
ghost use Rattle.nw_digest.specs.Order.{digest_cmp};
ghost use Rattle.nw_trie.specs.Bits.{DifferFirst};
ghost use Rattle.nw_trie.specs.Entries.{AreEntries, BranchesAt, EachKey, HasKey, IsFork};

use super::{Entry, Link, Sides, Tree};
use crate::bits::{first_difference, is_set};
use nw_digest::Digest;
use std::alloc::Allocator;
use std::mem;

impl<V: Drop, A: Allocator> Tree<V, A> {
    /// Sets the value of the digest, and returns its old value if it had one. Replacing a value allocates nothing.
    ///
    /// If an allocation fails, returns the new value. Then the tree is unchanged.
    pub(crate) fn insert(&mut self, alloc: &A, digest: Digest, value: V) -> Result<Option<V>, V>
    where
        A: Clone,
        ensures old { IfOk result (λ old. old ≡ lookup (is_at (digest_cmp digest)) self.old) }
        ensures entries { OnOk result (self.new ≡ insert_entry digest_cmp self.old digest value) }
        ensures len { IfOk result
            (λ old. length self.new ≡ length self.old + (if is_some old then 0 else 1)) }
        ensures value_returned { IfErr result (λ refused. refused ≡ value) }
        ensures absent { OnErr result (lookup (is_at (digest_cmp digest)) self.old ≡ None) }
        ensures unchanged { OnErr result (self.new ≡ self.old) }
    {
        if self.is_empty() {
            return self.insert_first(alloc, digest, value);
        }
        let Some(bit) = self.branch(&digest) else {
            return Ok(Some(self.replace(&digest, value)));
        };
        let Some(fork) = Tree::spare(alloc) else {
            return Err(value);
        };
        match Tree::leaf(alloc, digest, value) {
            Err(refused) => Err(refused),
            Ok(leaf) => {
                self.graft(&digest, bit, fork, leaf);
                Ok(None)
            }
        }
    }

    /// The same as `insert`, for an empty tree.
    fn insert_first(&mut self, alloc: &A, digest: Digest, value: V) -> Result<Option<V>, V>
    where
        A: Clone,
        requires { self.old ≡ [] }
        ensures entries { OnOk result (self.new ≡ insert_entry digest_cmp [] digest value) }
        ensures new { IfOk result (λ old. old ≡ None) }
        ensures value_returned { IfErr result (λ refused. refused ≡ value) }
        ensures unchanged { OnErr result (self.new ≡ self.old) }
    {
        *self = Tree::leaf(alloc, digest, value)?;
        Ok(None)
    }

    /// A box for a fork, with empty sides, or `None` if an allocation fails.
    pub(crate) fn spare(alloc: &A) -> Option<Box<Sides<V, A>, A>>
    where
        A: Clone,
    {
        let alloc = alloc.clone().ok()?;
        let (left, right) = (Tree::empty(), Tree::empty());
        Box::new(alloc, Sides { left, right }).ok()
    }

    /// The first bit at which the digest differs from the digest nearest to it, or `None` if the tree has the digest.
    pub(crate) fn branch(&self, digest: &Digest) -> Option<u8>
        requires { 0 < length self.now }
        ensures { MatchOption result (HasKey digest.now self.now)
            (λ bit. BranchesAt digest.now bit self.now) }
    {
        let mut near = self;
        while let Link::Fork(bit, sides) = &near.link {
            let Sides { left, right } = &**sides;
            near = if is_set(digest, *bit) { right } else { left };
        }
        let Link::Leaf(leaf) = &near.link else {
            return None;
        };
        let Entry {
            digest: key,
            value: _,
        } = &**leaf;
        first_difference(digest, key)
    }

    /// Replaces the value of the digest, and returns the old value.
    pub(crate) fn replace(&mut self, digest: &Digest, value: V) -> V
        requires { HasKey digest.now self.old }
        ensures old { lookup (is_at (digest_cmp digest.now)) self.old ≡ Some result }
        ensures entries { self.new ≡ insert_entry digest_cmp self.old digest.now value }
        ensures len { length self.new ≡ length self.old }
    {
        match &mut self.link {
            Link::Empty => unreachable!(),
            Link::Leaf(leaf) => mem::replace(&mut leaf.value, value),
            Link::Fork(bit, sides) => {
                let Sides { left, right } = &mut **sides;
                if is_set(digest, *bit) {
                    right.replace(digest, value)
                } else {
                    left.replace(digest, value)
                }
            }
        }
    }

    /// Inserts the leaf at a new fork at this bit, which must be the result of `branch` for the digest.
    pub(crate) fn graft(
        &mut self,
        digest: &Digest,
        bit: u8,
        fork: Box<Sides<V, A>, A>,
        leaf: Tree<V, A>,
    )
        requires branches { BranchesAt digest.now bit self.old }
        requires leaf { (value : V) × (leaf ≡ (digest.now, value) ∷ []) }
        ensures entries { (value : V) → leaf ≡ (digest.now, value) ∷ []
            → self.new ≡ insert_entry digest_cmp self.old digest.now value }
        ensures len { length self.new ≡ length self.old + 1 }
    {
        if let Link::Fork(at, sides) = &mut self.link {
            if *at < bit {
                let side = sides.side_mut(is_set(digest, *at));
                side.graft(digest, bit, fork, leaf);
                return;
            }
        }
        self.split(digest, bit, fork, leaf);
    }

    /// Makes a fork at this bit, with the leaf on one side and all other entries on the other. This must be the first bit at
    /// which the leaf's digest differs from each of theirs.
    fn split(&mut self, digest: &Digest, bit: u8, fork: Box<Sides<V, A>, A>, leaf: Tree<V, A>)
        requires differ { EachKey (λ k. DifferFirst bit digest.now k) self.old }
        requires full { 0 < length self.old }
        requires leaf { (value : V) × (leaf ≡ (digest.now, value) ∷ []) }
        ensures entries { (value : V) → leaf ≡ (digest.now, value) ∷ []
            → self.new ≡ insert_entry digest_cmp self.old digest.now value }
        ensures len { length self.new ≡ length self.old + 1 }
    {
        let _ = &self.link;
        let old = mem::replace(self, Tree::empty());
        *self = if is_set(digest, bit) {
            Tree::forked(fork, bit, old, leaf)
        } else {
            Tree::forked(fork, bit, leaf, old)
        };
    }

    /// A fork at this bit with these sides, in the given box.
    fn forked(
        mut sides: Box<Sides<V, A>, A>,
        bit: u8,
        left: Tree<V, A>,
        right: Tree<V, A>,
    ) -> Tree<V, A>
        requires fork { IsFork bit left right }
        requires entries { AreEntries (left ++ right) }
        ensures { result ≡ left ++ right }
    {
        let _empty = Box::replace(&mut sides, Sides { left, right });
        let link = Link::Fork(bit, sides);
        Tree { link }
    }
}
