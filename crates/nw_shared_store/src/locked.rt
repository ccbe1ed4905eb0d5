//! The value under the lock.
ghost use Rattle.std.specs.Prelude.{◌≡◌, ◌+◌, ◌<◌, None, [], IfOk, IfErr, IfSome, IfNone, OnErr};
ghost use Rattle.nw_history.specs.Limits.{AreInRange};
ghost use Rattle.nw_history.specs.Story.{IsLegalStory};
ghost use Rattle.nw_model.specs.declared.call.Call.TheVariants as Call;
ghost use Rattle.nw_book.specs.Answer.{IsTicketFor, front_of, reply_of};
ghost use Rattle.nw_book.specs.Answered.{IsLookAfter};
ghost use Rattle.nw_book.specs.Command.{call_of, committee_of};
ghost use Rattle.nw_book.specs.Turn.{IsInTurn, next_number};
ghost use Rattle.nw_history.specs.Story.{state_of};
ghost use Rattle.nw_model.specs.Look.{AreLooks};
ghost use Rattle.nw_shared_store.specs.Locked.{IsEnded, IsEnrolled, IsFound, IsFullOf, IsLocked, IsTaken, IsUntaken};

use nw_book::{Book, Command, Done, Front, NoStep, Ticket};
use nw_digest::{Digest, NoMemory, Round};
use nw_model::Look;
use nw_sig::Scheme;
use std::alloc::Global;
use std::marker::Model;

/// The value under the lock of a shared store. Contracts see the number of its run, the history of this run, and the number of sessions made
/// so far.
#[derive(Drop)]
pub struct Locked<S: Scheme> {
    book: Book<S>,
    run: u64,
    made: u16,
}

impl<S: Scheme> Model for Locked<S> {
    ghost use Rattle.std.specs.Coded.{codes};
    ghost use Rattle.nw_model.specs.State.{coded_state};
    ghost use Rattle.nw_shared_store.specs.Locked.{Current, IsLocked};

    ghost Value = { Current };

    ghost coded = { Prim.hlevel (codes, coded_state) };

    ghost view = { λ h. record { run = h.run; history = h.book; made = h.made } };

    ghost invariant = { λ h. IsLocked S.accepts (record { run = h.run; history = h.book; made = h.made }) };
}

impl<S: Scheme> Locked<S> {
    /// The value for a new store over the book.
    pub(crate) fn over(book: Book<S>) -> Locked<S>
        requires in_range { AreInRange book.limits }
        requires legal { IsLegalStory S.accepts book }
        requires empty { book.events ≡ [] }
        ensures { result ≡ record { run = 0; history = book; made = 0 } }
    {
        Locked {
            book,
            run: 0,
            made: 0,
        }
    }

    /// The number of the run.
    pub(crate) fn run(&self) -> u64
        ensures run { result ≡ self.now.run }
        ensures locked { IsLocked S.accepts self.now }
    {
        self.run
    }

    /// A clone of the history, and the number of sessions made so far.
    ///
    /// `NoMemory`: a reference count is at its limit.
    pub(crate) fn history(&self) -> Result<(Front<S>, u16), NoMemory>
        ensures { IfOk result (λ found. IsFound S.accepts self.now found.0 found.1) }
    {
        Ok((self.book.history().try_clone()?, self.made))
    }

    /// Makes one more session, unless the limit is reached. Returns the number of the run, and that of the session.
    pub(crate) fn enrol(&mut self) -> Option<(u64, u16)>
        ensures made { IfSome result (λ made. IsEnrolled S.accepts self.old self.new made.0 made.1) }
        ensures full { IfNone result (IsFullOf S.accepts self.old) }
        ensures unchanged { IfNone result (self.new ≡ self.old) }
    {
        let id = self.made;
        if u32::from(id) >= self.book.history().limits().sessions {
            return None;
        }
        self.made += 1;
        Some((self.run, id))
    }

    /// Takes the step of the session's next call.
    pub(crate) fn call(
        &mut self,
        alloc: Global,
        id: u16,
        command: &Command<S>,
    ) -> Result<Done<S>, NoStep>
        requires { id < self.old.made }
        ensures taken { IfOk result (λ done. IsTaken S.accepts self.old self.new id
            (committee_of command.now) (call_of command.now) done.event.reply done.front) }
        ensures refused { IfErr result (IsUntaken S.accepts self.old id (committee_of command.now)) }
        ensures unchanged { OnErr result (self.new ≡ self.old) }
    {
        let number = self.next_number(id);
        self.book.step(alloc, id, number, command)
    }

    /// Takes the step of a causal read as the session's next call.
    pub(crate) fn open(
        &mut self,
        alloc: Global,
        id: u16,
        digest: Digest,
    ) -> Result<Result<Ticket<S>, Done<S>>, NoStep>
        requires { id < self.old.made }
        ensures taken { IfOk result (λ answer. IsTaken S.accepts self.old self.new id None
            (Call.Causal digest) (reply_of answer) (front_of answer)) }
        ensures told { IfOk result (IsTicketFor digest) }
        ensures refused { IfErr result (IsUntaken S.accepts self.old id None) }
        ensures unchanged { OnErr result (self.new ≡ self.old) }
    {
        let number = self.next_number(id);
        self.book.open(alloc, id, number, digest)
    }

    /// The number of the session's next call.
    fn next_number(&self, id: u16) -> u32
        requires { id < self.now.made }
        ensures number { result ≡ next_number self.now.history id }
        ensures turn { IsInTurn self.now.history id (next_number self.now.history id) }
    {
        match self.book.next_number(id) {
            Ok(number) => number,
            Err(_) => unreachable!(),
        }
    }

    /// What the state after the history has in the slot of this round and author.
    pub(crate) fn look(&self, round: Round, author: u16) -> Look
        ensures locked { IsLocked S.accepts self.now }
        ensures look { IsLookAfter self.now.history (round, author) result }
    {
        self.book.look(round, author)
    }

    /// What the state after the history has in each slot of this round.
    pub(crate) fn look_round(
        &self,
        alloc: Global,
        round: Round,
    ) -> Result<Vec<(u16, Look)>, NoMemory>
        ensures locked { IsLocked S.accepts self.now }
        ensures looks { IfOk result (λ looks. AreLooks (state_of self.now.history) round looks.items) }
    {
        self.book.look_round(alloc, round)
    }

    /// Ends the run and begins the next. Returns the last history of the run, and the number of the next run.
    ///
    /// `NoMemory`: an allocation failed, a reference count is at its limit, or the run has the greatest number.
    pub(crate) fn restart(&mut self, alloc: Global) -> Result<(Front<S>, u64), NoMemory>
        ensures ended { IfOk result (λ ended. IsEnded S.accepts self.old self.new ended.0 ended.1) }
        ensures unchanged { OnErr result (self.new ≡ self.old) }
    {
        let Some(next) = self.run.checked_add(1) else {
            return Err(NoMemory);
        };
        let last = self.book.history().try_clone()?;
        self.book.restart(alloc)?;
        self.run = next;
        Ok((last, next))
    }

    /// Freezes all complete blocks as one generation.
    pub(crate) fn compact(&mut self, alloc: Global) -> Result<(), NoMemory>
        ensures { self.new ≡ self.old }
    {
        self.book.compact(alloc)
    }
}
