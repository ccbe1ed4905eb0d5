//! The sessions that are given to a settlement.
ghost use Rattle.std.specs.Prelude.{◌≡◌, ◌++◌, ◌∷◌, [], All, IfErr, IfNone, IfOk, IfSome, OnErr, OnOk, map};
ghost use Rattle.std.specs.List.{Contains};
ghost use Rattle.nw_ed25519.specs.Accepts.{accepts};
ghost use Rattle.nw_book.specs.Journal.{IsHistoryOf, origin_of};
ghost use Rattle.nw_book.specs.Settled.{AreSettled};
ghost use Rattle.nw_shared_store.specs.Recorded.{AreRecorded};
ghost use Rattle.nw_shared_store.specs.Settlement.{AreUnsettled, StillKnow, kept};

use nw_ed25519::Ed25519;
use nw_history::Front;
use nw_shared_store::{SettleFault, SharedSession, settle};
use std::alloc::Global;
use std::marker::Model;

/// The sessions that are given to a settlement, in order. Contracts see their list.
#[derive(Drop)]
pub struct Given {
    sessions: Vec<SharedSession<Ed25519>>,
}

impl Model for Given {
    ghost use Rattle.std.specs.Prelude.{List};
    ghost use Rattle.std.specs.Coded.{codes};
    ghost use Rattle.nw_model.specs.State.{coded_state};
    ghost use Rattle.nw_shared_store.specs.Session.{SessionView};

    ghost Value = { List SessionView };

    ghost coded = { Prim.hlevel (codes, coded_state) };

    ghost view = { λ g. g.sessions.items };
}

impl Given {
    /// No sessions. Makes no allocation.
    pub(crate) fn new(alloc: Global) -> Given
        ensures { result ≡ [] }
    {
        Given {
            sessions: Vec::new(alloc),
        }
    }

    /// Adds the session as the last one. Gives it back if memory runs out.
    pub(crate) fn push(
        &mut self,
        session: SharedSession<Ed25519>,
    ) -> Result<(), SharedSession<Ed25519>>
        ensures pushed { OnOk result (self.new ≡ self.old ++ session ∷ []) }
        ensures back { IfErr result (λ back. back ≡ session) }
        ensures unchanged { OnErr result (self.new ≡ self.old) }
    {
        match self.sessions.push(session) {
            Ok(()) => Ok(()),
            Err(refused) => Err(refused.value),
        }
    }

    /// Removes the last session and returns it. Returns `None` if there is none.
    pub(crate) fn pop(&mut self) -> Option<SharedSession<Ed25519>>
        ensures popped { IfSome result (λ last. self.old ≡ self.new ++ last ∷ []) }
        ensures none { IfNone result (self.old ≡ []) }
        ensures unchanged { IfNone result (self.new ≡ self.old) }
    {
        self.sessions.pop()
    }

    /// Settles the sessions. The error is that of `settle`.
    pub(crate) fn settle(&mut self) -> Result<Front<Ed25519>, SettleFault>
        ensures settled { IfOk result (λ history. AreSettled history (map (λ s. s.journal) self.new)) }
        ensures of_store { IfOk result (λ history.
            All (λ s. IsHistoryOf accepts (origin_of s.first) history) self.new) }
        ensures recorded { IfOk result (λ history. AreRecorded history.events) }
        ensures know { IfOk result (λ history. All (λ s. Contains s.journal.known history) self.new) }
        ensures knew { StillKnow self.old self.new }
        ensures refused { IfErr result (AreUnsettled accepts self.old self.new) }
        ensures kept { map kept self.new ≡ map kept self.old }
    {
        settle(self.sessions.as_mut_slice())
    }
}
