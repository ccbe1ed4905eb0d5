//! Runs: a session ends a run and begins the next, or comes to the present one.
ghost use Rattle.std.specs.Prelude.{◌≡◌, List, IfOk, IfErr, OnOk, OnErr};
ghost use Rattle.nw_history.specs.Story.{Story};
ghost use Rattle.nw_shared_store.specs.Rule.{Begins};
ghost use Rattle.nw_shared_store.specs.Session.{IsKept, IsRenewed, IsRestarted, IsUnseen};

use crate::lock::{cut_witness, end_reading, give_back, join, meet, take_in, try_take};
use crate::work::{restart_at, run_at};
use crate::{Refusal, SharedSession};
use nw_book::Front;
use nw_sig::Scheme;
use std::alloc::Global;

impl<S: Scheme> SharedSession<S> {
    /// Ends the run and begins the next, which has the same blocks, certificates and votes, and an empty history. The session is of the next
    /// run, with its id and no calls. Returns the last history of the ended run. The other sessions of the store are renewed before their
    /// next calls. Answers, tickets and notes of the ended run do not change.
    ///
    /// It copies the tables, sharing the blocks and certificates. The cost grows with the number of these, whatever the history has.
    ///
    /// A refused restart ends no run. The error is the first of these that applies:
    ///
    /// 1. `Busy`: another thread has the lock.
    /// 2. `Ended`: the run of the session has ended.
    /// 3. `NoMemory`: an allocation failed, a reference count is at its limit, or the store has had 2^64 - 1 runs.
    pub fn restart(&mut self, alloc: Global) -> Result<Front<S>, Refusal>
        ensures restarted { IfOk result (IsRestarted S.accepts self.old self.new) }
        ensures refused { IfErr result IsUnseen }
        ensures unchanged { IfErr result (IsKept self.old self.new) }
    {
        take_in(&self.lock, &mut self.seat, self.run)?;
        let (last, next) = match restart_at(&self.lock, &mut self.seat, alloc) {
            Ok(ended) => ended,
            Err(why) => {
                give_back(&self.lock, &mut self.seat);
                return Err(Refusal::from(why));
            }
        };
        join(&self.lock, &mut self.seat);
        self.run = next;
        Ok(last)
    }

    /// Comes to the present run of the store, with the session's id and no calls. If the session is of the present run, it only looks at the
    /// history. This is not a call.
    ///
    /// `Busy`: another thread has the lock.
    pub fn renew(&mut self) -> Result<(), Refusal>
        ensures renewed { OnOk result (IsRenewed S.accepts self.old self.new) }
        ensures refused { IfErr result (λ why. why ≡ Refusal.Busy) }
        ensures unchanged { OnErr result (self.new ≡ self.old) }
    {
        try_take(&self.lock, &mut self.seat)?;
        let present = run_at(&self.lock, &mut self.seat);
        if present == self.run {
            end_reading(&self.lock, &mut self.seat);
            return Ok(());
        }
        join(&self.lock, &mut self.seat);
        self.run = present;
        Ok(())
    }
    /// Shows that this session and another one of its store know of the same ended runs: the lists of their last histories begin one list.
    /// This is not a call. It changes nothing, and does not take the lock.
    pub fn agree(&mut self, other: &mut SharedSession<S>)
        requires { other.old.lock ≡ self.old.lock }
        ensures agreed { (past : List Story) × Begins self.old.past past × Begins other.old.past past }
        ensures unchanged { self.new ≡ self.old }
        ensures other_unchanged { other.new ≡ other.old }
    {
        let mine = cut_witness(&self.lock, &mut self.seat);
        let others = cut_witness(&other.lock, &mut other.seat);
        meet(&self.lock, mine, others);
    }
}
