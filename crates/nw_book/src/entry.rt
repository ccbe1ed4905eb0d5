//! Entries: the form in which a journal keeps answers.
ghost use Rattle.std.specs.Prelude.{◌≡◌, ◌-◌, ◌<◌, ◌++◌, ◌∷◌, [], List, Some, length, slice_get};
ghost use Rattle.nw_model.specs.declared.event.Event.{Event};
ghost use Rattle.nw_history.specs.Story.{IsLegalStory};

use nw_history::Front;
use nw_model::{Call, Event, Reply};
use nw_sig::Scheme;
use std::marker::Model;
use std::snapshot::Snapshot;

/// The form in which a journal keeps an answer or a ticket: the front that ends with the call. Contracts see the call's event and
/// the front.
#[derive(Drop)]
pub struct Entry<S: Scheme> {
    front: Front<S>,
    event: Snapshot<Event>,
}

impl<S: Scheme> Model for Entry<S> {
    ghost use Rattle.std.specs.Prelude.{◌≡◌, ◌-◌, Some, length, slice_get};
    ghost use Rattle.std.specs.Coded.{codes};
    ghost use Rattle.nw_model.specs.State.{coded_state};
    ghost use Rattle.nw_book.specs.Answer.{AnswerView};

    ghost Value = { AnswerView };

    ghost coded = { Prim.hlevel (codes, coded_state) };

    ghost view = { λ d. record { event = d.event.value; front = d.front } };

    ghost invariant = { λ d.
        slice_get d.front.events (length d.front.events - 1) ≡ Some d.event.value };
}

impl<S: Scheme> Entry<S> {
    /// The entry for the call with which this front ends.
    pub(crate) fn of(front: Front<S>) -> Entry<S>
        requires some { 0 < length front.events }
        ensures front { result.front ≡ front }
        ensures event { (earlier : List Event) (event : Event)
            → front.events ≡ earlier ++ event ∷ [] → result.event ≡ event }
    {
        let event = Snapshot::of(front.last().unwrap());
        Entry { front, event }
    }

    /// The answered call, as the history records it ([`Call::record`]).
    pub fn call(&self) -> &Call
        ensures call { result.now ≡ self.now.event.call }
        ensures last { slice_get self.now.front.events (length self.now.front.events - 1)
            ≡ Some self.now.event }
        ensures legal { IsLegalStory S.accepts self.now.front }
    {
        &self.event().call
    }

    /// The reply to the call. It is `Ready` if the call is a causal read that got a ticket.
    pub fn reply(&self) -> &Reply
        ensures reply { result.now ≡ self.now.event.reply }
        ensures last { slice_get self.now.front.events (length self.now.front.events - 1)
            ≡ Some self.now.event }
        ensures legal { IsLegalStory S.accepts self.now.front }
    {
        &self.event().reply
    }

    /// The history up to and including the call.
    pub fn front(&self) -> &Front<S>
        ensures { result.now ≡ self.now.front }
    {
        &self.front
    }

    /// The call's event, which is the last event of the front.
    fn event(&self) -> &Event
        ensures event { result.now ≡ self.now.event }
        ensures last { slice_get self.now.front.events (length self.now.front.events - 1)
            ≡ Some self.now.event }
        ensures legal { IsLegalStory S.accepts self.now.front }
    {
        self.front.last().unwrap()
    }
}
