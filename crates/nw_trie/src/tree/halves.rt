//! The halves of a tree.
ghost use Rattle.std.specs.Prelude.{◌≡◌, ◌++◌, Bool, true, false};
ghost use Rattle.nw_digest.specs.declared.digest.Digest.{Digest};
ghost use Rattle.nw_trie.specs.Bits.{AgreeBelow, bit_of};
ghost use Rattle.nw_trie.specs.Entries.{EachKey};

use super::{Link, Sides, Tree};
use crate::bits::is_set;
use std::alloc::Allocator;
use std::mem;

impl<V: Drop, A: Allocator> Tree<V, A> {
    /// The tree of the digests with the bit unset, and that of the others. All digests must have the same bits before it.
    pub(crate) fn halves(mut self, bit: u8) -> (Tree<V, A>, Tree<V, A>)
        requires { (front : Digest) × EachKey (AgreeBelow bit front) self }
        ensures entries { result.0 ++ result.1 ≡ self }
        ensures unset { EachKey (λ d. bit_of d bit ≡ false) result.0 }
        ensures set { EachKey (λ d. bit_of d bit ≡ true) result.1 }
    {
        match mem::replace(&mut self.link, Link::Empty) {
            Link::Empty => (Tree::empty(), Tree::empty()),
            Link::Leaf(leaf) => beside_none(
                Tree {
                    link: Link::Leaf(leaf),
                },
                bit,
            ),
            Link::Fork(at, sides) => {
                if at != bit {
                    return beside_none(
                        Tree {
                            link: Link::Fork(at, sides),
                        },
                        bit,
                    );
                }
                let Sides { left, right } = Box::into_inner(sides);
                (left, right)
            }
        }
    }

    /// Whether the digests have the bit set. All of them have it set, or none.
    fn shares_set(&self, bit: u8) -> bool
        requires { (set : Bool) × EachKey (λ d. bit_of d bit ≡ set) self.now }
        ensures { EachKey (λ d. bit_of d bit ≡ result) self.now }
    {
        match self.first() {
            None => false,
            Some((digest, _value)) => is_set(digest, bit),
        }
    }
}

/// The tree, beside an empty one on the side to which none of its digests belong.
fn beside_none<V: Drop, A: Allocator>(tree: Tree<V, A>, bit: u8) -> (Tree<V, A>, Tree<V, A>)
    requires { (set : Bool) × EachKey (λ d. bit_of d bit ≡ set) tree }
    ensures entries { result.0 ++ result.1 ≡ tree }
    ensures unset { EachKey (λ d. bit_of d bit ≡ false) result.0 }
    ensures set { EachKey (λ d. bit_of d bit ≡ true) result.1 }
{
    if tree.shares_set(bit) {
        (Tree::empty(), tree)
    } else {
        (tree, Tree::empty())
    }
}
