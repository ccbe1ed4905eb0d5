//! Making handles, and access to their content.
ghost use Rattle.std.specs.Prelude.{◌≡◌, true, false};
ghost use types.Logic.{sem};
ghost use Rattle.nw_c.specs.Lent.{handle_follows};

use super::Handle;
use crate::content::Content;
use crate::parts::Parts;
use std::alloc::Global;

impl Handle {
    /// A closed handle.
    pub fn closed(alloc: Global) -> Handle
        ensures { result.held ≡ false }
    {
        Handle {
            at: std::ptr::null_mut(),
            alloc,
        }
    }

    /// A handle that holds the content.
    pub fn of_parts(parts: Parts<Content, Global>) -> Handle
        ensures held { result.held ≡ true }
        ensures value { result.value ≡ parts.value }
    {
        let Parts { ptr, alloc } = parts;
        Handle {
            at: ptr as *mut u8,
            alloc,
        }
    }

    /// Takes the content out of the handle.
    pub fn into_parts(self) -> Parts<Content, Global>
        requires { self.held ≡ true }
        ensures { result.value ≡ self.value }
    {
        let Handle { at, alloc } = self;
        Parts {
            ptr: at as *mut Content,
            alloc,
        }
    }

    /// Whether the handle is open: it has a content.
    pub fn is_open(&mut self) -> bool
        ensures held { result ≡ self.old.held }
        ensures same { self.new ≡ self.old }
    {
        !self.at.is_null()
    }

    /// Lends the content.
    pub fn lend(&mut self) -> &mut Content
        requires { self.old.held ≡ true }
        ensures* writes_back { sem 𝓛 (handle_follows self.entry result) }
        ensures value { result.now ≡ self.old.value }
    {
        unsafe { &mut *(self.at as *mut Content) }
    }
}
