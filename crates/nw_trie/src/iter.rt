//! An iterator over the entries of a trie.
ghost use Rattle.std.specs.Prelude.{◌≡◌};
ghost use Rattle.std.specs.Iterator.{YieldsFirstBy, item_count};
ghost use Rattle.std.specs.Map.Iter.{deref_pair};
ghost use Rattle.nw_trie.specs.Entries.{AreEntries};

use crate::tree::Tree;
use nw_digest::Digest;
use std::alloc::Allocator;
use std::marker::Model;

/// The remaining entries of a trie, ascending by digest. Contracts see the list of these entries. The iterator
/// allocates nothing. Each step descends the trie once, from the root.
#[derive(Drop)]
pub struct Iter<'a, V: Drop, A: Allocator> {
    tree: &'a Tree<V, A>,
    next: Option<(&'a Digest, &'a V)>,
}

impl<'a, V: Drop, A: Allocator> Model for Iter<'a, V, A> {
    ghost use Rattle.std.specs.Prelude.{List};
    ghost use Rattle.nw_digest.specs.declared.digest.Digest.{Digest};
    ghost use Rattle.nw_trie.specs.After.{IsNextIn, entries_from};

    ghost Value = { List (Digest × V) };

    ghost view = { λ i. entries_from i.tree.now i.next };

    ghost invariant = { λ i. IsNextIn i.tree.now i.next };
}

impl<'a, V: Drop, A: Allocator> Iter<'a, V, A> {
    /// All entries.
    pub(crate) fn new(tree: &'a Tree<V, A>) -> Iter<'a, V, A>
        ensures all { result ≡ tree.now }
        ensures entries { AreEntries tree.now }
    {
        Iter {
            tree,
            next: tree.first(),
        }
    }
}

impl<'a, V: Drop, A: Allocator> Iterator for Iter<'a, V, A> {
    type Item = (&'a Digest, &'a V);

    ghost next_gives = { YieldsFirstBy deref_pair (λ rest. rest) };

    ghost remaining = { item_count (λ rest. rest) };

    fn next(&mut self) -> Option<(&'a Digest, &'a V)> {
        let (digest, value) = self.next?;
        self.next = self.tree.after(digest);
        Some((digest, value))
    }
}
