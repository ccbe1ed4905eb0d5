//! Linked lists that share all but their last item with earlier lists.
ghost use Rattle.std.specs.Prelude.{◌≡◌, ◌∷◌, [], IfOk, slice_get, reverse};
ghost use Rattle.std.specs.Option.{option_copied};

use nw_digest::NoMemory;
use std::alloc::Global;
use std::marker::Model;
use std::sync::Arc;

/// An item, and the items before it.
#[derive(Drop)]
struct Node<T: Drop> {
    item: T,
    before: Option<Arc<Node<T>>>,
}

/// A link to an item of a list, which shares ownership of the item. Contracts see the item.
#[derive(Drop)]
pub(crate) struct Link<T: Drop> {
    node: Arc<Node<T>>,
}

impl<T: Drop> Model for Link<T> {
    ghost use Rattle.nw_shared_list.specs.Trail.{item_of};

    ghost Value = { T };

    ghost view = { λ l. item_of l.node.value };
}

impl<T: Drop> Link<T> {
    /// The item.
    pub(crate) fn item(&self) -> &T
        ensures { result.now ≡ self.now }
    {
        &self.node.item
    }
}

/// An immutable list of items, which shares all but its last item with the list that it was made from. Contracts see the
/// items, the last one first.
#[derive(Drop)]
pub(crate) struct Trail<T: Drop> {
    last: Option<Arc<Node<T>>>,
}

impl<T: Drop> Model for Trail<T> {
    ghost use Rattle.std.specs.Prelude.{List};
    ghost use Rattle.nw_shared_list.specs.Trail.{items_to};

    ghost Value = { List T };

    ghost view = { λ t. items_to t.last };
}

impl<T: Drop> Trail<T> {
    /// An empty list. Allocates nothing.
    pub(crate) fn new() -> Trail<T>
        ensures { result ≡ [] }
    {
        Trail { last: None }
    }

    /// The same list, with one more owner of its last node.
    pub(crate) fn try_clone(&self) -> Result<Trail<T>, NoMemory>
        ensures { IfOk result (λ t. t ≡ self.now) }
    {
        match &self.last {
            None => Ok(Trail { last: None }),
            Some(node) => Ok(Trail {
                last: Some(Arc::try_clone(node)?),
            }),
        }
    }

    /// The list with one more item at its end.
    pub(crate) fn with(&self, alloc: Global, item: T) -> Result<Trail<T>, NoMemory>
        ensures { IfOk result (λ t. t ≡ item ∷ self.now) }
    {
        let before = self.try_clone()?.last;
        Ok(Trail {
            last: Some(Arc::new(alloc, Node { item, before })?),
        })
    }

    /// The item that is this many places before the last one, or `None` if there is none.
    pub(crate) fn back(&self, places: usize) -> Option<&T>
        ensures { option_copied result ≡ slice_get self.now places }
    {
        let mut node = self.last.as_ref();
        for _ in 0..places {
            node = node?.before.as_ref();
        }
        node.map(|node| &node.item)
    }

    /// A link to each item, in order. `room` is the number of items: it allocates memory for that many links at once.
    pub(crate) fn items(&self, alloc: Global, room: usize) -> Result<Vec<Link<T>>, NoMemory>
        ensures { IfOk result (λ items. items.items ≡ reverse self.now) }
    {
        let mut items = Vec::with_capacity(alloc, room)?;
        let mut next = self.last.as_ref();
        while let Some(node) = next {
            items.push(Link {
                node: Arc::try_clone(node)?,
            })?;
            next = node.before.as_ref();
        }
        items.reverse();
        Ok(items)
    }
}
