//! Steps of a book: the reply is found first, and then the step is taken.
ghost use Rattle.std.specs.Prelude.{◌≡◌, IfOk, OnOk, OnErr};
ghost use Rattle.std.specs.Result.{MatchResult};
ghost use Rattle.nw_model.specs.History.{IsAdmitted};
ghost use Rattle.nw_model.specs.Step.{IsReply, HasNoList};
ghost use Rattle.nw_model.specs.View.{Shows};
ghost use Rattle.nw_history.specs.Story.{IsLegalStory, bounds_of, state_of, with_event};
ghost use Rattle.nw_book.specs.Answer.{IsTicketFor, Takes, front_of, reply_of};
ghost use Rattle.nw_book.specs.Command.{IsNoCausalRead};
ghost use Rattle.nw_book.specs.Turn.{HasRoom, IsInTurn, event};

use super::Book;
use crate::{Done, Entry, Ticket};
use nw_digest::{Digest, NoMemory};
use nw_generation::View;
use nw_history::Front;
use nw_model::{Call, CausalReply, Event, Reply};
use nw_sig::Scheme;
use std::alloc::Global;

impl<S: Scheme> Book<S> {
    /// Takes the step of a call that may be taken and is not a causal read. Returns its answer, and an entry for the caller's journal.
    ///
    /// `NoMemory`: an allocation failed. Nothing changed.
    pub fn take_step(
        &mut self,
        alloc: Global,
        session: u16,
        number: u32,
        call: Call,
    ) -> Result<(Done<S>, Entry<S>), NoMemory>
        requires no_read { IsNoCausalRead call }
        requires turn { IsInTurn self.old session number }
        requires admitted { IsAdmitted S.accepts self.old.committee call }
        requires room { HasRoom self.old }
        ensures taken { IfOk result (λ taken.
            Takes S.accepts self.old self.new session number call taken.0.event.reply taken.0.front) }
        ensures kept { IfOk result (λ taken. taken.1 ≡ record {
          event = event session number call taken.0.event.reply;
          front = self.new;
        }) }
        ensures unchanged { OnErr result (self.new ≡ self.old) }
    {
        let mut call = call;
        let reply = self.reply(alloc, &call)?;
        call.record(&reply);
        let event = Event {
            session,
            number,
            call,
            reply,
        };
        let (front, kept) = self.add_event(alloc, event)?;
        let answer = Entry::of(front);
        Ok((Done::of(answer), Entry::of(kept)))
    }

    /// Takes the step of a causal read that may be taken. Returns its answer, and an entry for the caller's journal.
    ///
    /// `NoMemory`: an allocation failed. Nothing changed.
    pub fn take_open(
        &mut self,
        alloc: Global,
        session: u16,
        number: u32,
        digest: Digest,
    ) -> Result<(Result<Ticket<S>, Done<S>>, Entry<S>), NoMemory>
        requires turn { IsInTurn self.old session number }
        requires room { HasRoom self.old }
        ensures taken { IfOk result (λ taken. Takes S.accepts self.old self.new session number
            (Call.Causal digest) (reply_of taken.0) (front_of taken.0)) }
        ensures told { IfOk result (λ taken. IsTicketFor digest taken.0) }
        ensures kept { IfOk result (λ taken. taken.1 ≡ record {
          event = event session number (Call.Causal digest) (reply_of taken.0);
          front = self.new;
        }) }
        ensures unchanged { OnErr result (self.new ≡ self.old) }
    {
        match self.freeze_for(alloc, digest)? {
            Ok(view) => {
                let event = read_event(session, number, digest, Reply::Ready);
                let (front, kept) = self.add_event(alloc, event)?;
                Ok((Ok(Ticket::new(digest, front, view)), Entry::of(kept)))
            }
            Err(refusal) => {
                let event = read_event(session, number, digest, Reply::Causal(refusal));
                let (front, kept) = self.add_event(alloc, event)?;
                let answer = Entry::of(front);
                Ok((Err(Done::of(answer)), Entry::of(kept)))
            }
        }
    }

    /// The reply that the call would get after the history. A causal read of a complete digest gets `Ready`.
    fn reply(&self, alloc: Global, call: &Call) -> Result<Reply, NoMemory>
        ensures reply { IfOk result
            (IsReply (bounds_of self.now.limits) (state_of self.now) call.now) }
        ensures short { IfOk result HasNoList }
    {
        self.tables.reply(alloc, call)
    }

    /// If the digest is complete, a view of the complete blocks after the history. Otherwise the reply that says why there is no list.
    fn freeze_for(
        &mut self,
        alloc: Global,
        digest: Digest,
    ) -> Result<Result<View, CausalReply>, NoMemory>
        ensures answer { IfOk result (λ frozen. MatchResult frozen
            (λ view. IsReply (bounds_of self.old.limits) (state_of self.old)
            (Call.Causal digest) Reply.Ready × Shows view.frozen (state_of self.old))
            (λ refusal. IsReply (bounds_of self.old.limits) (state_of self.old) (Call.Causal digest)
            (Reply.Causal refusal))) }
        ensures same { self.new ≡ self.old }
    {
        self.tables.freeze_for(alloc, digest)
    }

    /// Adds the event of a call to the history, and takes its step in the tables. Returns the front that ends with the event, twice: for
    /// the answer and for the journal.
    ///
    /// `NoMemory`: an allocation failed. Nothing changed.
    fn add_event(&mut self, alloc: Global, event: Event) -> Result<(Front<S>, Front<S>), NoMemory>
        requires turn { IsInTurn self.old event.session event.number }
        requires room { HasRoom self.old }
        requires admitted { IsAdmitted S.accepts self.old.committee event.call }
        requires reply { IsReply (bounds_of self.old.limits) (state_of self.old)
            event.call event.reply }
        requires short { HasNoList event.reply }
        ensures history { OnOk result (self.new ≡ with_event self.old event) }
        ensures legal { OnOk result (IsLegalStory S.accepts self.new) }
        ensures front { IfOk result (λ fronts. fronts.0 ≡ self.new) }
        ensures kept { IfOk result (λ fronts. fronts.1 ≡ self.new) }
        ensures unchanged { OnErr result (self.new ≡ self.old) }
    {
        let front = self.history.with_event(alloc, event)?;
        let kept = front.try_clone()?;
        self.advance(front.last().unwrap(), &front)?;
        Ok((front, kept))
    }

    /// Takes the event's call in the tables, and makes the front the new history. The front ends with this event. Taking the call is the
    /// last operation that can fail.
    fn advance(&mut self, event: &Event, front: &Front<S>) -> Result<(), NoMemory>
        requires turn { IsInTurn self.old event.now.session event.now.number }
        requires reply { IsReply (bounds_of self.old.limits) (state_of self.old)
            event.now.call event.now.reply }
        requires front { front.now ≡ with_event self.old event.now }
        requires legal { IsLegalStory S.accepts (with_event self.old event.now) }
        ensures history { OnOk result (self.new ≡ with_event self.old event.now) }
        ensures unchanged { OnErr result (self.new ≡ self.old) }
    {
        let own = front.try_clone()?;
        self.tables.take(&event.call, &event.reply)?;
        self.history = own;
        self.calls[usize::from(event.session)] += 1;
        Ok(())
    }
}

/// The event of a causal read.
fn read_event(session: u16, number: u32, digest: Digest, reply: Reply) -> Event
    ensures { result ≡ event session number (Call.Causal digest) reply }
{
    Event {
        session,
        number,
        call: Call::Causal(digest),
        reply,
    }
}
