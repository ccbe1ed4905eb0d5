//! Looks of a session at the tables of its store.
ghost use Rattle.std.specs.Prelude.{IfOk, IfErr};
ghost use Rattle.nw_history.specs.Story.{state_of};
ghost use Rattle.nw_model.specs.Look.{AreLooks};
ghost use Rattle.nw_book.specs.Answered.{IsLookAfter};
ghost use Rattle.nw_shared_store.specs.Session.{HasSeen, IsKept, IsSameSession, IsUnavailable, IsUnseen};

use crate::lock::{end_reading, give_back, take_in};
use crate::work::{look_at, look_round_at};
use crate::{Refusal, SharedSession};
use nw_book::Round;
use nw_model::Look;
use nw_sig::Scheme;
use std::alloc::Global;

impl<S: Scheme> SharedSession<S> {
    /// What the store has now in the slot of this round and author. Of this session, the history has exactly the calls of its journal. This is
    /// no call: it adds no event, and allocates nothing.
    ///
    /// `Busy`: another thread has the lock. `Ended`: the run of the session has ended.
    pub fn look(&mut self, round: Round, author: u16) -> Result<Look, Refusal>
        ensures seen { IfOk result (λ look. HasSeen S.accepts self.old self.new (λ h.
            IsLookAfter h (round, author) look)) }
        ensures refused { IfErr result IsUnavailable }
        ensures same { IsSameSession self.old self.new }
        ensures unchanged { IfErr result (IsKept self.old self.new) }
    {
        take_in(&self.lock, &mut self.seat, self.run)?;
        let look = look_at(&self.lock, &mut self.seat, round, author);
        end_reading(&self.lock, &mut self.seat);
        Ok(look)
    }

    /// What the store has now in each slot of this round that has a first or a certified digest: the authors, ascending, with the looks. Of
    /// this session, the history has exactly the calls of its journal. This is no call: it adds no event.
    ///
    /// `Busy`: another thread has the lock. `Ended`: the run of the session has ended. `NoMemory`: an allocation failed.
    pub fn look_round(&mut self, alloc: Global, round: Round) -> Result<Vec<(u16, Look)>, Refusal>
        ensures seen { IfOk result (λ looks. HasSeen S.accepts self.old self.new (λ h.
            AreLooks (state_of h) round looks.items)) }
        ensures refused { IfErr result IsUnseen }
        ensures same { IsSameSession self.old self.new }
        ensures unchanged { IfErr result (IsKept self.old self.new) }
    {
        take_in(&self.lock, &mut self.seat, self.run)?;
        let looks = match look_round_at(&self.lock, &mut self.seat, alloc, round) {
            Ok(looks) => looks,
            Err(why) => {
                give_back(&self.lock, &mut self.seat);
                return Err(Refusal::from(why));
            }
        };
        end_reading(&self.lock, &mut self.seat);
        Ok(looks)
    }
}
