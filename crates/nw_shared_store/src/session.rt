//! Sessions of a shared store.
ghost use Rattle.std.specs.Prelude.{◌≡◌, ◌↔◌, false, None, IsTrue, IfOk, IfErr, OnOk};
ghost use Rattle.nw_model.specs.declared.call.Call.TheVariants as Call;
ghost use Rattle.nw_book.specs.Answer.{IsTicketFor, front_of, reply_of};
ghost use Rattle.nw_book.specs.Answered.{IsExplained};
ghost use Rattle.nw_book.specs.Command.{call_of, committee_of};
ghost use Rattle.nw_book.specs.Journal.{KnowsAll, origin_of};
ghost use Rattle.nw_book.specs.Settled.{IsJournalOf};
ghost use Rattle.nw_book.specs.Turn.{MatchesCommittee};
ghost use Rattle.nw_shared_store.specs.Recorded.{AreRecorded};
ghost use Rattle.nw_shared_store.specs.Rule.{knowing};
ghost use Rattle.nw_history.specs.Prefix.{IsPrefixOf};
ghost use Rattle.nw_shared_store.specs.Session.{HasSeen, IsKept, IsPresent, IsRefusedBy, IsSameSession, IsUnseen};

use crate::Refusal;
use crate::lock::{end_call, end_reading, give_back, take_in};
use crate::rule::{Lock, Seat};
use crate::work::{call_at, history_at, open_at};
use nw_book::{Command, Done, Front, Ticket};
use nw_digest::Digest;
use nw_sig::Scheme;
use std::alloc::Global;
use std::marker::Model;
use std::sync::Arc;

/// One caller's sequence of calls of a shared store. It keeps the store alive, and may be sent to another thread. Contracts see its store, its
/// run, and its journal of this run: its id, its answers, and the histories that it knows of.
///
/// A call makes one attempt to take the store's lock, and never waits. On `Busy` nothing changed: call again. On `Ended` the run of the
/// session has ended, as it knows from then on: renew the session.
#[derive(Drop)]
pub struct SharedSession<S: Scheme> {
    pub(crate) lock: Arc<Lock<S>, Global>,
    pub(crate) seat: Seat<S>,
    pub(crate) run: u64,
    pub(crate) id: u16,
}

impl<S: Scheme> Model for SharedSession<S> {
    ghost use Rattle.std.specs.Prelude.{◌≡◌};
    ghost use Rattle.std.specs.Coded.{codes};
    ghost use Rattle.nw_model.specs.State.{coded_state};
    ghost use Rattle.nw_shared_store.specs.Session.{IsSessionAt, SessionView};

    ghost Value = { SessionView };

    ghost coded = { Prim.hlevel (codes, coded_state) };

    ghost view = { λ s. record {
      lock = s.lock.value.shared.table_id;
      run = s.seat.me.0.run;
      past = s.seat.me.0.past;
      over = s.seat.me.0.over;
      first = s.seat.me.0.first;
      journal = s.seat.me.0.journal;
    } };

    ghost invariant = { λ s. IsSessionAt s.lock.value.shared.table_id s.run s.id s.seat.table_id s.seat.me };
}

impl<S: Scheme> SharedSession<S> {
    /// The session's id. A store numbers its sessions from 0, in the order in which it makes them.
    pub fn id(&self) -> u16
        ensures { result ≡ self.now.journal.id }
    {
        self.id
    }

    /// The number of the session's run. A store begins with run 0.
    pub fn run(&self) -> u64
        ensures { result ≡ self.now.run }
    {
        self.run
    }

    /// Makes the command's call as the session's next call. The call is never out of turn.
    ///
    /// A refused call adds no event, and can be tried again. If it takes no step, the session now knows of the history of the run as it is now,
    /// after which the cause applies. The error is the first of these that applies:
    ///
    /// 1. `Busy`: another thread has the lock.
    /// 2. `Ended`: the run of the session has ended.
    /// 3. `OtherCommittee`: the block or certificate was checked under another committee.
    /// 4. `HistoryFull`: the history has reached its limit of events.
    /// 5. `NoMemory`: an allocation failed.
    pub fn call(&mut self, alloc: Global, command: &Command<S>) -> Result<Done<S>, Refusal>
        ensures answered { IfOk result
            (λ done. IsExplained S.accepts (origin_of self.old.first) self.old.journal
            self.new.journal (call_of command.now) done.event.reply done.front) }
        ensures own_calls { IfOk result
            (λ done. IsJournalOf done.front self.old.journal.id self.new.journal) }
        ensures own_committee { OnOk result
            (MatchesCommittee self.old.first.committee (committee_of command.now)) }
        ensures recorded { IfOk result (λ done. AreRecorded done.front.events) }
        ensures goes_on { OnOk result (self.new.over ≡ false) }
        ensures refused { IfErr result
            (IsRefusedBy S.accepts self.old self.new (committee_of command.now)) }
        ensures same { IsSameSession self.old self.new }
    {
        take_in(&self.lock, &mut self.seat, self.run)?;
        let done = match call_at(&self.lock, &mut self.seat, alloc, self.id, command) {
            Ok(done) => done,
            Err(why) => {
                end_reading(&self.lock, &mut self.seat);
                return Err(Refusal::NoStep(why));
            }
        };
        end_call(&self.lock, &mut self.seat);
        Ok(done)
    }

    /// Opens a causal read of the digest as the session's next call. If the digest is complete, returns a ticket, which is walked later
    /// without the lock. Otherwise returns an answer that says why there is no list. The call is never out of turn.
    ///
    /// A refused call adds no event, and can be tried again. If it takes no step, the session now knows of the history of the run as it is now,
    /// after which the cause applies. The error is the first of these that applies:
    ///
    /// 1. `Busy`: another thread has the lock.
    /// 2. `Ended`: the run of the session has ended.
    /// 3. `HistoryFull`: the history has reached its limit of events.
    /// 4. `NoMemory`: an allocation failed.
    pub fn open_causal(
        &mut self,
        alloc: Global,
        digest: Digest,
    ) -> Result<Result<Ticket<S>, Done<S>>, Refusal>
        ensures answered { IfOk result
            (λ answer. IsExplained S.accepts (origin_of self.old.first) self.old.journal
            self.new.journal (Call.Causal digest) (reply_of answer) (front_of answer)) }
        ensures own_calls { IfOk result
            (λ answer. IsJournalOf (front_of answer) self.old.journal.id self.new.journal) }
        ensures recorded { IfOk result (λ answer. AreRecorded (front_of answer).events) }
        ensures goes_on { OnOk result (self.new.over ≡ false) }
        ensures told { IfOk result (IsTicketFor digest) }
        ensures refused { IfErr result (IsRefusedBy S.accepts self.old self.new None) }
        ensures same { IsSameSession self.old self.new }
    {
        take_in(&self.lock, &mut self.seat, self.run)?;
        let answer = match open_at(&self.lock, &mut self.seat, alloc, self.id, digest) {
            Ok(answer) => answer,
            Err(why) => {
                end_reading(&self.lock, &mut self.seat);
                return Err(Refusal::NoStep(why));
            }
        };
        end_call(&self.lock, &mut self.seat);
        Ok(answer)
    }

    /// The history of the run as it is now, and the number of sessions made so far. Of this session, the history has exactly the calls of its
    /// journal, in order. The session now knows of this history. This is not a call. It compares and copies no events.
    ///
    /// A session that hears this history as a note knows all that this session knows now.
    ///
    /// `Busy`: another thread has the lock. `Ended`: the run of the session has ended. `NoMemory`: a reference count is at its limit.
    pub fn history(&mut self) -> Result<(Front<S>, u16), Refusal>
        ensures present { IfOk result (λ now. IsPresent S.accepts (origin_of self.old.first)
            self.old.journal now.0 now.1) }
        ensures knows { IfOk result
            (λ now. self.new.journal ≡ knowing self.old.journal now.0) }
        ensures knew { KnowsAll self.new.journal.known self.old.journal.known }
        ensures refused { IfErr result IsUnseen }
        ensures same { IsSameSession self.old self.new }
        ensures unchanged { IfErr result (IsKept self.old self.new) }
    {
        take_in(&self.lock, &mut self.seat, self.run)?;
        let now = match history_at(&self.lock, &mut self.seat) {
            Ok(now) => now,
            Err(why) => {
                give_back(&self.lock, &mut self.seat);
                return Err(Refusal::from(why));
            }
        };
        end_reading(&self.lock, &mut self.seat);
        Ok(now)
    }

    /// Hears the note, which is a history of the same run: returns `true`, and from then on the note is a prefix of the history of every
    /// answer of this session in this run. Returns `false` if the note is no prefix of the history as it is now. This is not a call.
    ///
    /// It compares the bases, and the session, number and call of each event of the note, without the lock.
    ///
    /// `Busy`: another thread has the lock. `Ended`: the run of the session has ended. `NoMemory`: a reference count is at its limit.
    pub fn hear(&mut self, note: &Front<S>) -> Result<bool, Refusal>
        ensures heard { IfOk result (λ yes. HasSeen S.accepts self.old self.new (λ h.
            IsTrue yes ↔ IsPrefixOf note.now h)) }
        ensures knew { KnowsAll self.new.journal.known self.old.journal.known }
        ensures answers { self.new.journal.answers ≡ self.old.journal.answers }
        ensures refused { IfErr result IsUnseen }
        ensures same { IsSameSession self.old self.new }
        ensures unchanged { IfErr result (IsKept self.old self.new) }
    {
        let now = self.history()?;
        Ok(note.is_prefix_of(&now.0))
    }
}
