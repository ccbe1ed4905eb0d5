//! Looks at the tables of a store.
ghost use Rattle.std.specs.Prelude.{IfOk};
ghost use Rattle.nw_store.specs.Looks.{AreSeen, IsSeen};

use crate::locked::{look_locked, look_round_locked};
use crate::{Home, Store};
use nw_digest::{NoMemory, Round};
use nw_model::Look;
use nw_sig::Scheme;
use std::alloc::Global;
use std::sync::Wait;

impl<S: Scheme, L: Home> Store<S, L> {
    /// What the store has in the slot of this round and author. This is not a call: it adds no event, and allocates nothing. A look tells
    /// whether a parent with this round and author is stored and certified.
    pub fn look<R: Wait>(&self, rt: &R, round: Round, author: u16) -> Look
        ensures { IsSeen S.accepts L.origin (round, author) result }
    {
        look_locked(&*self.locked.lock(rt), round, author)
    }

    /// What the store has in each slot of this round that has a first or a certified digest: the authors, ascending, with the looks. This is
    /// not a call: it adds no event.
    ///
    /// `NoMemory`: an allocation failed.
    pub fn look_round<R: Wait>(
        &self,
        rt: &R,
        alloc: Global,
        round: Round,
    ) -> Result<Vec<(u16, Look)>, NoMemory>
        ensures { IfOk result (λ looks. AreSeen S.accepts L.origin round looks.items) }
    {
        look_round_locked(&*self.locked.lock(rt), alloc, round)
    }
}
