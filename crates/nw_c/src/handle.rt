//! Handles: a C caller keeps a pointer to the content.
ghost use Rattle.std.specs.Prelude.{Bool};
ghost use Rattle.nw_c.specs.declared.content.Content.{Content};
ghost use Rattle.nw_c.specs.Held.{content_coded};

use std::alloc::Global;
use std::marker::Model;

mod calls;
mod put;

pub(crate) use put::{nw_free, open, put, room};

/// A handle as C sees it: one pointer, which is null while the handle is closed.
#[repr(C)]
#[derive(Drop)]
pub struct Handle {
    at: *mut u8,
    alloc: Global,
    pub ghost held: { Bool },
    pub ghost value: { Content } by { content_coded },
}

impl Model for Handle {
    ghost use Rattle.std.specs.Prelude.{Bool};
    ghost use Rattle.nw_c.specs.Held.{holds};

    ghost also_owns = { λ h. holds h.alloc h.at h.held h.value };
}

/// A committee.
pub type CommitteeHandle = Handle;
/// A checked text: a block, a certificate, a vote, or the rule that the text breaks.
pub type CheckedHandle = Handle;
/// The votes gathered for one block.
pub type GatherHandle = Handle;
/// Room for an answer, an answer, a ticket, or a history. A ticket is the answer to a causal read whose list can be walked. A history is a
/// note of a session, the last history of an ended run, or what sessions settled on.
pub type AnswerHandle = Handle;
/// The list of blocks of a walk.
pub type ListHandle = Handle;
/// A block.
pub type BlockHandle = Handle;
/// A store that threads share: the stored blocks and certificates, and the history of the calls of the present run. Each thread has a handle
/// of its own.
pub type StoreHandle = Handle;
/// A session of a store: the calls of one thread in one run.
pub type SessionHandle = Handle;
/// The sessions that are given to a settlement.
pub type SettlementHandle = Handle;
