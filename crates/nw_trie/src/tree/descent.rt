//! The descent to a value that the caller may change.
//!
//! The kit generates no proof for a `&mut` that a recursive function returns. So no function here calls itself: the number of
//! remaining steps is part of a type.
ghost use Rattle.std.specs.Prelude.{◌≡◌, ◌+◌, ◌<◌, ℕ, Some, length};
ghost use Rattle.std.specs.Option.{MatchOption};
ghost use Rattle.std.specs.Borrow.{sem, follows};
ghost use Rattle.std.specs.Map.{lookup};
ghost use Rattle.std.specs.BTreeMap.{insert_entry, is_at};
ghost use Rattle.nw_digest.specs.Order.{digest_cmp};
ghost use Rattle.nw_trie.specs.Bits.{AgreeButLast};
ghost use Rattle.nw_trie.specs.Entries.{EachKey, HasKey, ForksAt};
ghost use Rattle.nw_trie.specs.Tree.{side_of, with_side};
ghost use Rattle.nw_trie.specs.contracts.tree.Tree.{the_row as tree_row};
ghost use Rattle.nw_trie.specs.contracts.tree.Sides.{the_row as sides_row};

use super::{Link, Sides, Tree};
use crate::bits::is_set;
use nw_digest::Digest;
use std::alloc::Allocator;
use std::marker::PhantomData;

/// The rest of the way to a value, in a tree whose digests differ only in their last `bits` bits.
pub(crate) trait Way {
    ghost bits: { ℕ };

    fn value_mut<'a, V: Drop, A: Allocator>(tree: &'a mut Tree<V, A>, digest: &Digest) -> &'a mut V
        requires key { HasKey digest.now tree.old }
        requires alike { EachKey (AgreeButLast bits digest.now) tree.old }
        ensures* writes_back { sem 𝓛 (follows (tree_row V.row A.row A.Allocator) V.row
            tree.entry.ghost_name result.ghost_name (insert_entry digest_cmp tree.old digest.now)) }
        ensures value { lookup (is_at (digest_cmp digest.now)) tree.old ≡ Some result.now };
}

/// Steps from fork to fork, followed by the rest of a way.
pub(crate) trait Steps {
    ghost bits: { ℕ };

    fn value_mut<'a, V: Drop, A: Allocator, W: Way>(
        tree: &'a mut Tree<V, A>,
        digest: &Digest,
    ) -> &'a mut V
        requires key { HasKey digest.now tree.old }
        requires alike { EachKey (AgreeButLast (bits + W.bits) digest.now) tree.old }
        ensures* writes_back { sem 𝓛 (follows (tree_row V.row A.row A.Allocator) V.row
            tree.entry.ghost_name result.ghost_name (insert_entry digest_cmp tree.old digest.now)) }
        ensures value { lookup (is_at (digest_cmp digest.now)) tree.old ≡ Some result.now };
}

/// The end of a way: there are no more forks.
pub(crate) struct End;

/// First these steps, then the rest of the way.
pub(crate) struct Then<S: Steps, W: Way>(PhantomData<(S, W)>);

/// One step, from a fork to one of its sides.
pub(crate) struct Step;

/// The same steps, twice.
pub(crate) struct Twice<S: Steps>(PhantomData<S>);

type Four<S> = Twice<Twice<S>>;

/// As many steps as a digest has bits.
type AllBits = Four<Four<Four<Four<Step>>>>;

impl Way for End {
    ghost bits = { 0 };

    fn value_mut<'a, V: Drop, A: Allocator>(
        tree: &'a mut Tree<V, A>,
        digest: &Digest,
    ) -> &'a mut V {
        match tree.first_bit() {
            Some(_) => unreachable!(),
            None => tree.only_value_mut(digest),
        }
    }
}

impl<S: Steps, W: Way> Way for Then<S, W> {
    ghost bits = { S.bits + W.bits };

    fn value_mut<'a, V: Drop, A: Allocator>(
        tree: &'a mut Tree<V, A>,
        digest: &Digest,
    ) -> &'a mut V {
        S::value_mut::<V, A, W>(tree, digest)
    }
}

impl Steps for Step {
    ghost bits = { 1 };

    fn value_mut<'a, V: Drop, A: Allocator, W: Way>(
        tree: &'a mut Tree<V, A>,
        digest: &Digest,
    ) -> &'a mut V {
        match tree.first_bit() {
            Some(_) => tree.side_value_mut::<W>(digest),
            None => tree.only_value_mut(digest),
        }
    }
}

impl<S: Steps> Steps for Twice<S> {
    ghost bits = { S.bits + S.bits };

    fn value_mut<'a, V: Drop, A: Allocator, W: Way>(
        tree: &'a mut Tree<V, A>,
        digest: &Digest,
    ) -> &'a mut V {
        S::value_mut::<V, A, Then<S, W>>(tree, digest)
    }
}

impl<V: Drop, A: Allocator> Tree<V, A> {
    /// The value of the digest.
    pub(crate) fn value_mut(&mut self, digest: &Digest) -> &mut V
        requires { HasKey digest.now self.old }
        ensures* writes_back { sem 𝓛 (follows (tree_row V.row A.row A.Allocator) V.row
            self.entry.ghost_name result.ghost_name (insert_entry digest_cmp self.old digest.now)) }
        ensures value { lookup (is_at (digest_cmp digest.now)) self.old ≡ Some result.now }
        ensures len { (v : V)
            → length (insert_entry digest_cmp self.old digest.now v) ≡ length self.old }
    {
        let _ = &self.link;
        AllBits::value_mut::<V, A, End>(self, digest)
    }

    /// The bit of the tree's first fork, or `None` if it has no fork.
    fn first_bit(&self) -> Option<u8>
        ensures { MatchOption result (length self.now < 2) (λ bit. ForksAt bit self.now) }
    {
        match &self.link {
            Link::Fork(bit, _) => Some(*bit),
            Link::Empty | Link::Leaf(_) => None,
        }
    }

    /// The value of the digest, which is the only one in the tree.
    fn only_value_mut(&mut self, digest: &Digest) -> &mut V
        requires key { HasKey digest.now self.old }
        requires alone { length self.old < 2 }
        ensures* writes_back { sem 𝓛 (follows (tree_row V.row A.row A.Allocator) V.row
            self.entry.ghost_name result.ghost_name (insert_entry digest_cmp self.old digest.now)) }
        ensures value { lookup (is_at (digest_cmp digest.now)) self.old ≡ Some result.now }
    {
        match &mut self.link {
            Link::Leaf(leaf) => &mut leaf.value,
            Link::Empty | Link::Fork(..) => unreachable!(),
        }
    }

    /// The value of the digest, found on its side of the first fork.
    fn side_value_mut<W: Way>(&mut self, digest: &Digest) -> &mut V
        requires key { HasKey digest.now self.old }
        requires fork { 1 < length self.old }
        requires alike { EachKey (AgreeButLast (1 + W.bits) digest.now) self.old }
        ensures* writes_back { sem 𝓛 (follows (tree_row V.row A.row A.Allocator) V.row
            self.entry.ghost_name result.ghost_name (insert_entry digest_cmp self.old digest.now)) }
        ensures value { lookup (is_at (digest_cmp digest.now)) self.old ≡ Some result.now }
    {
        let set = match &self.link {
            Link::Fork(bit, _) => is_set(digest, *bit),
            Link::Empty | Link::Leaf(_) => unreachable!(),
        };
        match &mut self.link {
            Link::Fork(_, sides) => sides.value_mut::<W>(set, digest),
            Link::Empty | Link::Leaf(_) => unreachable!(),
        }
    }
}

impl<V: Drop, A: Allocator> Sides<V, A> {
    /// The value of the digest, found on the side for this value of the bit.
    fn value_mut<W: Way>(&mut self, set: bool, digest: &Digest) -> &mut V
        requires key { HasKey digest.now (side_of self.old set) }
        requires alike { EachKey (AgreeButLast W.bits digest.now) (side_of self.old set) }
        ensures* writes_back { sem 𝓛 (follows (sides_row V.row A.row A.Allocator) V.row
            self.entry.ghost_name result.ghost_name (λ w.
            with_side self.old set (insert_entry digest_cmp (side_of self.old set) digest.now w))) }
        ensures value { lookup (is_at (digest_cmp digest.now)) (side_of self.old set)
            ≡ Some result.now }
    {
        W::value_mut(self.side_mut(set), digest)
    }
}
