//! Fronts: legal histories that never change.
ghost use Rattle.std.specs.Prelude.{◌≡◌, ◌↔◌, ◌==◌, ◌+◌, ◌-◌, ◌/◌, ◌%◌, ◌++◌, ◌∷◌, ◌^◌, ◌<◌, []};
ghost use Rattle.std.specs.Prelude.{IfOk, IfSome, IsNone, IsTrue, length, slice_get};
ghost use Rattle.std.specs.Option.{option_copied};
ghost use mathlib.Core.List.{IsPrefix};
ghost use Rattle.nw_shared_list.specs.SharedList.{items_of};
ghost use Rattle.nw_shared_list.specs.SharedList.{chunk_items};
ghost use Rattle.nw_model.specs.State.{opening};
ghost use Rattle.nw_history.specs.Story.{IsLegalStory, bounds_of, first_origin, reopened, story_of};
ghost use Rattle.nw_history.specs.Story.{tables_of, with_event};
ghost use Rattle.nw_history.specs.Prefix.{IsPrefixOf, AreAlike};

use crate::Limits;
use crate::start::Start;
use nw_committee::Committee;
use nw_digest::{NoMemory, Shared};
use nw_model::Event;
use nw_plain::{Base, Plain};
use nw_shared_list::SharedList;
use nw_sig::Scheme;
use std::alloc::Global;
use std::marker::{Model, PhantomData};

/// A legal history that never changes, with its committee, limits and base. `S` is the signature scheme.
///
/// Each answer has a front, whose last event is the answered call. All fronts of one history share their events, in chunks of 256.
#[derive(Drop)]
pub struct Front<S: Scheme> {
    events: SharedList<Start, Event>,
    scheme: PhantomData<S>,
}

impl<S: Scheme> Model for Front<S> {
    ghost use Rattle.std.specs.Coded.{codes};
    ghost use Rattle.nw_shared_list.specs.SharedList.{items_of};
    ghost use Rattle.nw_model.specs.State.{coded_state};
    ghost use Rattle.nw_history.specs.Story.{Story, IsLegalStory, story_of};

    ghost Value = { Story };

    ghost coded = { Prim.hlevel (codes, coded_state) };

    ghost view = { λ f. story_of f.events.head (items_of f.events) };

    ghost invariant = { λ f. IsLegalStory S.accepts
        (story_of f.events.head (items_of f.events)) };
}

impl<S: Scheme> Front<S> {
    /// The history without events that starts from the opening state.
    ///
    /// `NoMemory`: an allocation failed.
    pub fn new(
        alloc: Global,
        committee: Shared<Committee>,
        limits: Limits,
    ) -> Result<Front<S>, NoMemory>
        ensures empty { IfOk result (λ front. front ≡ story_of (first_origin committee limits) []) }
    {
        let base = Base::of(Plain::new(alloc, limits.blocks, limits.window));
        Front::without_events(alloc, Start::new(committee, limits, base))
    }

    /// The history without events that starts where this one ends: its base is the state after this one, which `state` must have.
    ///
    /// `NoMemory`: an allocation failed.
    pub fn restarted(&self, alloc: Global, state: Plain) -> Result<Front<S>, NoMemory>
        requires { state ≡ tables_of self.now }
        ensures restarted { IfOk result (λ front. front ≡ reopened self.now) }
    {
        let base = Base::of(state);
        let start = Start::new(self.committee().try_clone()?, self.limits(), base);
        Front::without_events(alloc, start)
    }

    /// The history without events that has this start.
    fn without_events(alloc: Global, start: Start) -> Result<Front<S>, NoMemory>
        requires { IsLegalStory S.accepts (story_of start []) }
        ensures { IfOk result (λ front. front ≡ story_of start []) }
    {
        Ok(Front::of(SharedList::new(alloc, Shared::new(alloc, start)?)?))
    }

    /// The history with these events. The head of their list is the history's start.
    fn of(events: SharedList<Start, Event>) -> Front<S>
        requires { IsLegalStory S.accepts (story_of events.head (items_of events)) }
        ensures { result ≡ story_of events.head (items_of events) }
    {
        Front {
            events,
            scheme: PhantomData,
        }
    }

    /// A clone, which shares the events. It raises at most two reference counts, whatever the number of events, and allocates nothing.
    ///
    /// `NoMemory`: a reference count is at its limit.
    pub fn try_clone(&self) -> Result<Front<S>, NoMemory>
        ensures same { IfOk result (λ front. front ≡ self.now) }
        ensures legal { IsLegalStory S.accepts self.now }
    {
        Ok(Front::of(self.events.try_clone()?))
    }

    /// The history with one more event. It shares all earlier events, so the cost is the same at any length. Only each 256th event
    /// costs more, because it closes a chunk.
    ///
    /// `NoMemory`: an allocation failed.
    pub fn with_event(&self, alloc: Global, event: Event) -> Result<Front<S>, NoMemory>
        requires legal { IsLegalStory S.accepts (with_event self.now event) }
        requires room { length self.now.events < 2 ^ 32 }
        ensures { IfOk result (λ front. front ≡ with_event self.now event) }
    {
        Ok(Front::of(self.events.with(alloc, event)?))
    }

    /// The number of events.
    pub fn len(&self) -> usize
        ensures length { result ≡ length self.now.events }
        ensures legal { IsLegalStory S.accepts self.now }
    {
        self.events.len()
    }

    /// Whether there are no events.
    pub fn is_empty(&self) -> bool
        ensures empty { result ≡ (length self.now.events == 0) }
        ensures legal { IsLegalStory S.accepts self.now }
    {
        self.events.is_empty()
    }

    /// The number of links to events: one to each full chunk of 256 events, and one to each event after the last full chunk.
    pub fn parts(&self) -> usize
        ensures parts { result ≡ length self.now.events / chunk_items + length self.now.events % chunk_items }
        ensures legal { IsLegalStory S.accepts self.now }
    {
        self.events.parts()
    }

    /// The event at the index, counted from 0, or `None` if there are at most `index` events. The search takes a constant number of steps
    /// for an event in a full chunk, and at most 255 steps for a later event.
    pub fn event(&self, index: usize) -> Option<&Event>
        ensures event { option_copied result ≡ slice_get self.now.events index }
        ensures legal { IsLegalStory S.accepts self.now }
    {
        self.events.get(index)
    }

    /// The last event, or `None` if there are no events.
    pub fn last(&self) -> Option<&Event>
        ensures last { option_copied result
            ≡ slice_get self.now.events (length self.now.events - 1) }
        ensures legal { IsLegalStory S.accepts self.now }
    {
        self.events.last()
    }

    /// The committee under which the history is legal.
    pub fn committee(&self) -> &Shared<Committee>
        ensures committee { result.now ≡ self.now.committee }
        ensures legal { IsLegalStory S.accepts self.now }
    {
        self.events.head().committee()
    }

    /// The limits under which the history is legal.
    pub fn limits(&self) -> Limits
        ensures limits { result ≡ self.now.limits }
        ensures legal { IsLegalStory S.accepts self.now }
    {
        self.events.head().limits()
    }

    /// The base, or `None` if it is the opening state.
    pub fn base(&self) -> Option<&Base>
        ensures base { IfSome result (λ base.
            base.now ≡ record { bounds = bounds_of self.now.limits; state = self.now.base }) }
        ensures opening { IsNone result ↔ self.now.base ≡ opening }
        ensures legal { IsLegalStory S.accepts self.now }
    {
        self.events.head().base()
    }

    /// Whether this front is a prefix of the other: both have the same committee, limits and base, and the other's events begin with
    /// this one's.
    ///
    /// Allocates no memory. It compares the bases, and then the session, number and call of each event of this front. If these are equal
    /// in two legal histories, so are the replies.
    pub fn is_prefix_of(&self, other: &Front<S>) -> bool
        ensures prefix { IsTrue result ↔ IsPrefixOf self.now other.now }
        ensures legal { IsLegalStory S.accepts self.now }
    {
        self.events.head().is_same(other.events.head()) && self.begins(other)
    }

    /// Whether the other front's events begin with this one's. Both fronts have the same committee, limits and base.
    fn begins(&self, other: &Front<S>) -> bool
        requires committee { self.now.committee ≡ other.now.committee }
        requires limits { self.now.limits ≡ other.now.limits }
        requires base { self.now.base ≡ other.now.base }
        ensures { IsTrue result ↔ IsPrefix self.now.events other.now.events }
    {
        if self.len() > other.len() {
            return false;
        }
        for index in 0..self.len() {
            if !self.is_alike(other, index) {
                return false;
            }
        }
        true
    }

    /// Whether both fronts have an event at the index, with the same session, number and call.
    fn is_alike(&self, other: &Front<S>, index: usize) -> bool
        ensures { IsTrue result
            ↔ AreAlike (slice_get self.now.events index) (slice_get other.now.events index) }
    {
        match (self.event(index), other.event(index)) {
            (Some(one), Some(other)) => {
                one.session == other.session
                    && one.number == other.number
                    && one.call.is_same(&other.call)
            }
            _ => false,
        }
    }
}
