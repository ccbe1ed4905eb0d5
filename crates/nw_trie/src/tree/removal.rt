//! Removal of entries from a tree.
ghost use Rattle.std.specs.Prelude.{◌≡◌, ◌+◌, ◌<◌, ◌^◌, length, filter, nat_le};
ghost use Rattle.std.specs.Map.{lookup, remove_entry};
ghost use Rattle.std.specs.BTreeMap.{is_at};
ghost use Rattle.nw_digest.specs.Order.{digest_cmp};
ghost use Rattle.nw_trie.specs.Entries.{AreEntries};
ghost use Rattle.nw_trie.specs.Tree.{IsNearlyTree, IsTree, entries_of};

use super::{Entry, Link, Sides, Tree};
use crate::bits::is_set;
use nw_digest::{Digest, InRound, Round};
use std::alloc::Allocator;
use std::mem;

impl<V: Drop, A: Allocator> Tree<V, A> {
    /// Removes the digest and returns its value, or `None` if the tree does not have the digest.
    pub(crate) fn remove(&mut self, digest: &Digest) -> Option<V>
        ensures value { result ≡ lookup (is_at (digest_cmp digest.now)) self.old }
        ensures entries { self.new ≡ remove_entry (is_at (digest_cmp digest.now)) self.old }
    {
        let Link::Fork(bit, sides) = &mut self.link else {
            return self.remove_leaf(digest);
        };
        let Sides { left, right } = &mut **sides;
        let value = if is_set(digest, *bit) {
            right.remove(digest)
        } else {
            left.remove(digest)
        };
        drop_empty_side(&mut self.link);
        value
    }

    /// The same as `remove`, for a tree without forks.
    fn remove_leaf(&mut self, digest: &Digest) -> Option<V>
        requires { length self.old < 2 }
        ensures value { result ≡ lookup (is_at (digest_cmp digest.now)) self.old }
        ensures entries { self.new ≡ remove_entry (is_at (digest_cmp digest.now)) self.old }
    {
        if self.get(digest).is_none() {
            return None;
        }
        match mem::replace(&mut self.link, Link::Empty) {
            Link::Leaf(leaf) => Some(Box::into_inner(leaf).value),
            Link::Empty | Link::Fork(..) => unreachable!(),
        }
    }

    /// Drops the values of rounds below the floor, and returns how many were dropped.
    #[tactic(auto, using(crate::proofs::Splits::tree_entries))]
    pub(crate) fn retain_rounds(&mut self, floor: Round) -> usize
    where
        V: InRound,
        requires { length self.old < 2 ^ 64 }
        ensures kept { self.new ≡ filter (λ e. nat_le floor (V.round_of e.1)) self.old }
        ensures counted { length self.new + result ≡ length self.old }
        ensures entries { AreEntries self.old }
    {
        match &mut self.link {
            Link::Empty => 0,
            Link::Leaf(leaf) => {
                let Entry { digest: _, value } = &mut **leaf;
                if value.round() >= floor {
                    return 0;
                }
                self.link = Link::Empty;
                1
            }
            Link::Fork(_bit, sides) => {
                let Sides { left, right } = &mut **sides;
                let dropped = left.retain_rounds(floor) + right.retain_rounds(floor);
                drop_empty_side(&mut self.link);
                dropped
            }
        }
    }
}

/// If one side of the fork is empty, replaces the fork with the other side.
fn drop_empty_side<V: Drop, A: Allocator>(link: &mut Link<V, A>)
    requires { IsNearlyTree link.old }
    ensures tree { IsTree link.new }
    ensures entries { entries_of link.new ≡ entries_of link.old }
{
    if let Link::Fork(_bit, sides) = link {
        let Sides { left, right } = &mut **sides;
        if left.is_empty() {
            let rest = mem::replace(&mut right.link, Link::Empty);
            *link = rest;
        } else if right.is_empty() {
            let rest = mem::replace(&mut left.link, Link::Empty);
            *link = rest;
        }
    }
}
