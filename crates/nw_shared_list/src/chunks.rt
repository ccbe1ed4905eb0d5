//! Immutable lists of full chunks and a tail.
ghost use Rattle.std.specs.Prelude.{◌≡◌, ◌+◌, ◌-◌, ◌^◌, ◌<◌, ◌==◌, ◌++◌, ◌∷◌, []};
ghost use Rattle.std.specs.Prelude.{IfOk, length, reverse, slice_get};
ghost use Rattle.std.specs.Option.{option_copied};
ghost use Rattle.nw_shared_list.specs.SharedList.{AreChunked, chunk_items, items_of};

use crate::chunk::{CHUNK, Chunk};
use crate::trail::Trail;
use nw_digest::{NoMemory, Shared};
use std::alloc::Global;
use std::marker::Model;

/// The head and the full chunks of a list. Lists that grow from that list share this value until they close a chunk.
#[derive(Drop)]
struct Root<H: Drop, T: Drop> {
    head: Shared<H>,
    full: Vec<Shared<Chunk<T>>>,
}

/// An immutable list with a head. Its items are in full chunks of 256 items, and in the tail after them. Adding an item makes another
/// list, which shares the head and all earlier items. Contracts see the head, the chunks and the tail; `items_of` gives all items
/// in order.
#[derive(Drop)]
pub struct SharedList<H: Drop, T: Drop> {
    root: Shared<Root<H, T>>,
    tail: Trail<T>,
    /// The number of items in the tail, below 256.
    count: usize,
}

impl<H: Drop, T: Drop> Model for SharedList<H, T> {
    ghost use Rattle.std.specs.Prelude.{◌≡◌, length};
    ghost use Rattle.nw_shared_list.specs.SharedList.{AreChunked, Chunked, chunked, coded_chunked};

    ghost Value = { Chunked H T };

    ghost coded = { coded_chunked H.code T.code };

    ghost view = { λ c. chunked c.root.head c.root.full.items c.tail };

    ghost invariant = { λ c. AreChunked (chunked c.root.head c.root.full.items c.tail)
        × (length c.tail ≡ c.count) };
}

impl<H: Drop, T: Drop> SharedList<H, T> {
    /// A list with this head, and without items. `NoMemory` if an allocation fails.
    pub fn new(alloc: Global, head: Shared<H>) -> Result<SharedList<H, T>, NoMemory>
        ensures head { IfOk result (λ c. c.head ≡ head) }
        ensures items { IfOk result (λ c. items_of c ≡ []) }
    {
        let full = Vec::new(alloc);
        Ok(SharedList {
            root: Shared::new(alloc, Root { head, full })?,
            tail: Trail::new(),
            count: 0,
        })
    }

    /// The same list, with one more owner of its root and of its last node. The cost does not depend on the list's length.
    /// `NoMemory` if a count of owners is at its limit.
    pub fn try_clone(&self) -> Result<SharedList<H, T>, NoMemory>
        ensures { IfOk result (λ c. c ≡ self.now) }
    {
        Ok(SharedList {
            root: self.root.try_clone()?,
            tail: self.tail.try_clone()?,
            count: self.count,
        })
    }

    /// The list with one more item at its end. It allocates a node for the item. Every 256th item closes a chunk: that
    /// allocates a link to each of its items and to each chunk. The list must have fewer than 2^32 items. `NoMemory` if an
    /// allocation fails.
    pub fn with(&self, alloc: Global, item: T) -> Result<SharedList<H, T>, NoMemory>
        requires { length (items_of self.now) < 2 ^ 32 }
        ensures head { IfOk result (λ c. c.head ≡ self.now.head) }
        ensures items { IfOk result (λ c. items_of c ≡ items_of self.now ++ item ∷ []) }
    {
        let tail = self.tail.with(alloc, item)?;
        if self.count + 1 < CHUNK {
            return Ok(SharedList {
                root: self.root.try_clone()?,
                tail,
                count: self.count + 1,
            });
        }
        let root = self.root.get();
        let head = root.head.try_clone()?;
        let full = with_chunk(alloc, root.full.as_slice(), &tail)?;
        Ok(SharedList {
            root: Shared::new(alloc, Root { head, full })?,
            tail: Trail::new(),
            count: 0,
        })
    }

    /// The head. All lists that grew from one list share it.
    pub fn head(&self) -> &H
        ensures { result.now ≡ self.now.head }
    {
        self.root.get().head.get()
    }

    /// The number of items, at most 2^32.
    pub fn len(&self) -> usize
        ensures { result ≡ length (items_of self.now) }
    {
        CHUNK * self.root.get().full.as_slice().len() + self.count
    }

    /// Whether the list has no items.
    pub fn is_empty(&self) -> bool
        ensures { result ≡ (length (items_of self.now) == 0) }
    {
        self.len() == 0
    }

    /// The item at the index, counted from 0, or `None` if there is none. It takes a constant number of steps in a full
    /// chunk, and at most 255 steps in the tail.
    pub fn get(&self, index: usize) -> Option<&T>
        ensures { option_copied result ≡ slice_get (items_of self.now) index }
    {
        let full = self.root.get().full.as_slice();
        if let Some(chunk) = full.get(index / CHUNK) {
            return Some(chunk.get().item(index % CHUNK));
        }
        let place = index - CHUNK * full.len();
        if place >= self.count {
            return None;
        }
        self.tail.back(self.count - 1 - place)
    }

    /// The last item, or `None` if the list is empty. The cost does not depend on the list's length.
    pub fn last(&self) -> Option<&T>
        ensures { option_copied result
            ≡ slice_get (items_of self.now) (length (items_of self.now) - 1) }
    {
        match self.tail.back(0) {
            Some(item) => Some(item),
            None => self.get(self.len().checked_sub(1)?),
        }
    }

    /// The number of links that the list holds: one to each full chunk, and one to each item of the tail.
    pub fn parts(&self) -> usize
        ensures parts { result ≡ length self.now.chunks + length self.now.tail }
        ensures chunked { AreChunked self.now }
    {
        self.root.get().full.as_slice().len() + self.count
    }
}

/// These chunks, each with one more owner, and a new one with these items.
fn with_chunk<T: Drop>(
    alloc: Global,
    chunks: &[Shared<Chunk<T>>],
    items: &Trail<T>,
) -> Result<Vec<Shared<Chunk<T>>>, NoMemory>
    requires { length items.now ≡ chunk_items }
    ensures { IfOk result (λ all. all.items ≡ chunks.now ++ reverse items.now ∷ []) }
{
    let chunk = Shared::new(alloc, Chunk::new(items.items(alloc, CHUNK)?))?;
    with_last(alloc, chunks, chunk)
}

/// These chunks, each with one more owner, and this last one.
fn with_last<T: Drop>(
    alloc: Global,
    chunks: &[Shared<Chunk<T>>],
    last: Shared<Chunk<T>>,
) -> Result<Vec<Shared<Chunk<T>>>, NoMemory>
    ensures { IfOk result (λ all. all.items ≡ chunks.now ++ last ∷ []) }
{
    let mut all = Vec::with_capacity(alloc, chunks.len().saturating_add(1))?;
    for chunk in chunks {
        all.push(chunk.try_clone()?)?;
    }
    all.push(last)?;
    Ok(all)
}
