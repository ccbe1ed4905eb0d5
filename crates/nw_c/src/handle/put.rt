//! Opening and closing handles.
ghost use Rattle.std.specs.Prelude.{◌≡◌, true, false, pos};
ghost use Rattle.nw_c.specs.Kinds.{IsUnchanged};
ghost use Rattle.nw_c.specs.declared.codes.TheConstants.{NO_MEMORY};

use super::Handle;
use crate::codes::{DONE, NO_MEMORY};
use crate::content::Content;
use crate::parts::Parts;
use std::alloc::Global;

/// Opens a closed handle with this content. If memory runs out, it drops the content and the handle stays closed.
pub(crate) fn put(alloc: Global, out: &mut Handle, content: Content) -> i32
    requires { out.old.held ≡ false }
    ensures held { result ≡ pos 0 → out.new.held ≡ true }
    ensures value { result ≡ pos 0 → out.new.value ≡ content }
    ensures unchanged { (result ≡ pos 0 → ⊥) → IsUnchanged out.old out.new }
    ensures refused { (result ≡ pos 0 → ⊥) → result ≡ NO_MEMORY }
{
    match Box::new(alloc, content) {
        Ok(held) => {
            open(out, held);
            DONE
        }
        Err(refused) => {
            drop(refused);
            NO_MEMORY
        }
    }
}

/// Room for a value that must not be lost, or `None` if memory runs out. It is made before the value.
pub(crate) fn room(alloc: Global) -> Option<Box<Content, Global>> {
    match Box::new(alloc, Content::Room) {
        Ok(room) => Some(room),
        Err(refused) => {
            drop(refused);
            None
        }
    }
}

/// Opens a closed handle with the content of the box.
pub(crate) fn open(out: &mut Handle, held: Box<Content, Global>)
    requires { out.old.held ≡ false }
    ensures held { out.new.held ≡ true }
    ensures value { out.new.value ≡ held.value }
{
    *out = Handle::of_parts(Parts::of(held));
}

/// Closes the handle and frees everything that no other handle shares. A closed handle stays closed.
#[unsafe(no_mangle)]
pub extern "C" fn nw_free(alloc: Global, handle: &mut Handle)
    ensures { handle.new.held ≡ false }
{
    if handle.is_open() {
        let held = std::mem::replace(handle, Handle::closed(alloc));
        drop(held.into_parts().into_box());
    }
}
