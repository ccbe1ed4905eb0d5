//! Chunks: 256 items of a list.
ghost use Rattle.std.specs.Prelude.{◌≡◌, ◌<◌, length, slice_get, Some};
ghost use Rattle.nw_shared_list.specs.SharedList.{chunk_items};

use crate::trail::Link;
use std::marker::Model;

/// The number of items in a chunk.
pub const CHUNK: usize = 256;

/// A link to each of 256 items, which never change. Contracts see the items.
#[derive(Drop)]
pub(crate) struct Chunk<T: Drop> {
    items: Vec<Link<T>>,
}

impl<T: Drop> Model for Chunk<T> {
    ghost use Rattle.std.specs.Prelude.{◌≡◌, List, length};
    ghost use Rattle.nw_shared_list.specs.SharedList.{chunk_items};

    ghost Value = { List T };

    ghost view = { λ c. c.items.items };

    ghost invariant = { λ c. length c.items.items ≡ chunk_items };
}

impl<T: Drop> Chunk<T> {
    /// The chunk of these items. Allocates nothing.
    pub(crate) fn new(items: Vec<Link<T>>) -> Chunk<T>
        requires { length items.items ≡ chunk_items }
        ensures { result ≡ items.items }
    {
        Chunk { items }
    }

    /// The item at the index.
    pub(crate) fn item(&self, index: usize) -> &T
        requires { index < chunk_items }
        ensures item { slice_get self.now index ≡ Some result.now }
        ensures whole { length self.now ≡ chunk_items }
    {
        self.items[index].item()
    }
}
