//! Trees of digests, without the length and the allocator of a trie.
ghost use Rattle.std.specs.Prelude.{◌≡◌, ◌+◌, ◌<◌, [], ◌∷◌, ◌++◌, length, IfOk, IfErr};
ghost use Rattle.std.specs.Bool.{MatchBool};
ghost use Rattle.std.specs.Option.{MatchOption, option_copied, option_map};
ghost use Rattle.std.specs.Map.{lookup};
ghost use Rattle.std.specs.BTreeMap.{insert_entry, is_at};
ghost use Rattle.nw_digest.specs.Order.{digest_cmp};
ghost use Rattle.nw_trie.specs.Bits.{DifferFirst};
ghost use Rattle.nw_trie.specs.Entries.{AreEntries, BranchesAt, EachKey, HasKey, IsFork};
ghost use Rattle.std.specs.Map.Iter.{deref_pair};
ghost use Rattle.nw_trie.specs.After.{after, first_entry};
ghost use Rattle.std.specs.Borrow.{sem, follows};
ghost use Rattle.nw_trie.specs.contracts.tree.Tree as tree;
ghost use Rattle.nw_trie.specs.contracts.tree.Sides as sides;
ghost use Rattle.nw_trie.specs.Tree.{side_of, with_side};

mod descent;
mod halves;
mod insertion;
mod removal;

use crate::bits::{first_difference, is_set};
use nw_digest::{Digest, note_bytes};
use std::alloc::Allocator;
use std::marker::Model;
use std::mem;

/// Digests with values, ascending by digest. Contracts see the list of these entries.
#[cycle(tree)]
#[derive(Drop)]
pub(crate) struct Tree<V: Drop, A: Allocator> {
    link: Link<V, A>,
}

/// Nothing, a leaf with one entry, or a fork: a bit, and a tree for each value of the bit. The bit is stored beside the address of
/// the two sides, so a lookup reads only the side that it follows.
#[cycle(tree)]
#[derive(Drop)]
pub(crate) enum Link<V: Drop, A: Allocator> {
    Empty,
    Leaf(Box<Entry<V>, A>),
    Fork(u8, Box<Sides<V, A>, A>),
}

/// A digest with its value.
#[derive(Drop)]
pub(crate) struct Entry<V: Drop> {
    digest: Digest,
    value: V,
}

/// The two sides of a fork: the digests with the bit unset, and those with the bit set.
#[cycle(tree)]
#[derive(Drop)]
pub(crate) struct Sides<V: Drop, A: Allocator> {
    left: Tree<V, A>,
    right: Tree<V, A>,
}

impl<V: Drop, A: Allocator> Model for Tree<V, A> {
    ghost use Rattle.std.specs.Prelude.{List, length};
    ghost use Rattle.nw_digest.specs.declared.digest.Digest.{Digest};

    ghost Value = { List (Digest × V) };

    ghost use Rattle.nw_trie.specs.Tree.{entries_of, IsTree};

    ghost view = { λ t. entries_of t.link };

    ghost invariant = { λ t. IsTree t.link };

    ghost size = { length };

    ghost use Rattle.nw_trie.specs.TreeFalls.{deep_link};

    ghost size_decreases = { λ t h. deep_link A.Allocator t.link h };
}

impl<V: Drop, A: Allocator> Tree<V, A> {
    /// An empty tree.
    pub(crate) fn empty() -> Tree<V, A>
        ensures { result ≡ [] }
    {
        Tree { link: Link::Empty }
    }

    /// A tree with this one entry. If an allocation fails, returns the value.
    pub(crate) fn leaf(alloc: &A, digest: Digest, value: V) -> Result<Tree<V, A>, V>
    where
        A: Clone,
        ensures leaf { IfOk result (λ leaf. leaf ≡ (digest, value) ∷ []) }
        ensures value_returned { IfErr result (λ refused. refused ≡ value) }
    {
        note_bytes(&digest.0);
        let Ok(alloc) = alloc.clone() else {
            return Err(value);
        };
        match Box::new(alloc, Entry { digest, value }) {
            Ok(leaf) => Ok(Tree {
                link: Link::Leaf(leaf),
            }),
            Err(refused) => Err(refused.value.value),
        }
    }

    /// Whether the tree is empty.
    pub(crate) fn is_empty(&self) -> bool
        ensures { MatchBool result (self.now ≡ []) (0 < length self.now) }
    {
        matches!(&self.link, Link::Empty)
    }

    /// The value of the digest, or `None` if the tree does not have the digest.
    pub(crate) fn get(&self, digest: &Digest) -> Option<&V>
        ensures { option_copied result ≡ lookup (is_at (digest_cmp digest.now)) self.now }
    {
        let mut tree = self;
        while let Link::Fork(bit, sides) = &tree.link {
            let Sides { left, right } = &**sides;
            tree = if is_set(digest, *bit) { right } else { left };
        }
        let Link::Leaf(leaf) = &tree.link else {
            return None;
        };
        let Entry { digest: key, value } = &**leaf;
        (digest == key).then_some(value)
    }

    /// The first entry, or `None` if the tree is empty.
    pub(crate) fn first(&self) -> Option<(&Digest, &V)>
        ensures first { option_map deref_pair result ≡ first_entry self.now }
        ensures entries { AreEntries self.now }
    {
        let _ = &self.link;
        let mut tree = self;
        while let Link::Fork(_bit, sides) = &tree.link {
            let Sides { left, right: _ } = &**sides;
            tree = left;
        }
        let Link::Leaf(leaf) = &tree.link else {
            return None;
        };
        let Entry { digest, value } = &**leaf;
        Some((digest, value))
    }

    /// The entry after the digest's own, or `None` if the digest is the last one.
    pub(crate) fn after(&self, digest: &Digest) -> Option<(&Digest, &V)>
        requires { HasKey digest.now self.now }
        ensures { option_map deref_pair result ≡ first_entry (after digest.now self.now) }
    {
        let Link::Fork(bit, sides) = &self.link else {
            return None;
        };
        let Sides { left, right } = &**sides;
        if is_set(digest, *bit) {
            return right.after(digest);
        }
        if let Some(found) = left.after(digest) {
            return Some(found);
        }
        right.first()
    }
}

impl<V: Drop, A: Allocator> Sides<V, A> {
    /// The side of the digests with the bit set if `set` is true; otherwise the other side.
    fn side_mut(&mut self, set: bool) -> &mut Tree<V, A>
        ensures* writes_back { sem 𝓛 (follows (sides.the_row V.row A.row A.Allocator)
            (tree.the_row V.row A.row A.Allocator) self.entry.ghost_name result.ghost_name
            (with_side self.old set)) }
        ensures value { result.now ≡ side_of self.old set }
    {
        if set { &mut self.right } else { &mut self.left }
    }
}
