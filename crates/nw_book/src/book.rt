//! Books: a history, and the tables with the state after it.
ghost use Rattle.std.specs.Prelude.{◌≡◌, ◌↔◌, [], None, IfOk, IfErr, OnOk, OnErr};
ghost use Rattle.std.specs.Result.{IsErrOf};
ghost use Rattle.nw_model.specs.Look.{AreLooks};
ghost use Rattle.nw_model.specs.declared.call.Call.TheVariants as Call;
ghost use Rattle.nw_history.specs.Limits.{AreInRange};
ghost use Rattle.nw_history.specs.Story.{IsLegalStory, first_origin, state_of, story_of};
ghost use Rattle.nw_book.specs.Answer.{IsTicketFor, Takes, front_of, reply_of};
ghost use Rattle.nw_book.specs.Answered.{IsLookAfter};
ghost use Rattle.nw_book.specs.Command.{call_of, committee_of};
ghost use Rattle.nw_book.specs.Turn.{IsRefusal, MayStep};

mod reopen;
mod steps;
mod turn;

use crate::{BookError, Command, Done, NoStep, Ticket};
use nw_committee::Committee;
use nw_dag::{Dag, DagLimits};
use nw_digest::{Digest, NoMemory, Round, Shared};
use nw_history::{Front, Limits};
use nw_model::Look;
use nw_sig::Scheme;
use std::alloc::Global;
use std::marker::Model;

/// A growing history, and the tables with the state after it. `S` is the signature scheme. Contracts see the history, with its
/// committee, limits and base.
#[derive(Drop)]
pub struct Book<S: Scheme> {
    history: Front<S>,
    /// The state after the history.
    tables: Dag,
    /// For each session that the limits allow, the number of its calls in the history.
    calls: Vec<u32>,
}

impl<S: Scheme> Model for Book<S> {
    ghost use Rattle.nw_history.specs.Story.{Story};
    ghost use Rattle.nw_book.specs.Turn.{IsBook};

    ghost Value = { Story };

    ghost use Rattle.std.specs.Coded.{codes};
    ghost use Rattle.nw_model.specs.State.{coded_state};

    ghost coded = { Prim.hlevel (codes, coded_state) };

    ghost view = { λ b. b.history };

    ghost invariant = { λ b. IsBook S.accepts b.tables b.calls.items b.history };
}

impl<S: Scheme> Book<S> {
    /// A book with an empty history that starts from the opening state.
    ///
    /// `BadLimits`: a limit is outside its range. `NoMemory`: the limits are in their ranges, but an allocation failed.
    pub fn new(
        alloc: Global,
        committee: Shared<Committee>,
        limits: Limits,
    ) -> Result<Book<S>, BookError>
        ensures empty { IfOk result (λ book. book ≡ story_of (first_origin committee limits) []) }
        ensures in_range { OnOk result (AreInRange limits) }
        ensures bad_limits { IsErrOf result BookError.BadLimits ↔ (AreInRange limits → ⊥) }
        ensures no_memory { IsErrOf result BookError.NoMemory → AreInRange limits }
    {
        if !limits.are_in_range() {
            drop(committee);
            return Err(BookError::BadLimits);
        }
        let tables = DagLimits {
            blocks: limits.blocks,
            window: limits.window,
        };
        let calls = vec![in alloc; 0u32; limits.sessions as usize]?;
        Ok(Book {
            history: Front::new(alloc, committee, limits)?,
            tables: Dag::new(alloc, tables),
            calls,
        })
    }

    /// The history so far.
    pub fn history(&self) -> &Front<S>
        ensures history { result.now ≡ self.now }
        ensures legal { IsLegalStory S.accepts self.now }
        ensures in_range { AreInRange self.now.limits }
    {
        &self.history
    }

    /// What the state after the history has in the slot of this round and author. This is no call: it adds no event, and allocates nothing.
    pub fn look(&self, round: Round, author: u16) -> Look
        ensures { IsLookAfter self.now (round, author) result }
    {
        self.tables.look(round, author)
    }

    /// What the state after the history has in each slot of this round that has a first or a certified digest: the authors, ascending, with
    /// the looks. This is no call: it adds no event.
    ///
    /// `NoMemory`: an allocation failed.
    pub fn look_round(&self, alloc: Global, round: Round) -> Result<Vec<(u16, Look)>, NoMemory>
        ensures { IfOk result (λ looks. AreLooks (state_of self.now) round looks.items) }
    {
        self.tables.look_round(alloc, round)
    }

    /// Takes the step of the session's call with this number, adds its event to the history, and returns the answer. The calls of each
    /// session are numbered from 1.
    ///
    /// On error nothing changes. The error is the first of these that applies:
    ///
    /// 1. `OutOfTurn`: the session is not below the limit of sessions, or the number is not that of its next call.
    /// 2. `OtherCommittee`: the block or certificate was checked under another committee.
    /// 3. `HistoryFull`: the history has reached its limit of events.
    /// 4. `NoMemory`: an allocation failed.
    pub fn step(
        &mut self,
        alloc: Global,
        session: u16,
        number: u32,
        command: &Command<S>,
    ) -> Result<Done<S>, NoStep>
        ensures taken { IfOk result (λ done.
            Takes S.accepts self.old self.new session number
            (call_of command.now) done.event.reply done.front) }
        ensures may { OnOk result (MayStep self.old session number (committee_of command.now)) }
        ensures refused { IfErr result
            (IsRefusal self.old session number (committee_of command.now)) }
        ensures unchanged { OnErr result (self.new ≡ self.old) }
    {
        self.may_step(session, number, command.committee())?;
        let call = command.call()?;
        let (done, _) = self.take_step(alloc, session, number, call)?;
        Ok(done)
    }

    /// Takes the step of a session's causal read with this number, and adds its event to the history.
    ///
    /// If the digest is complete, the event's reply is `Ready`, and `open` returns a ticket, which gives the causal list at any later
    /// time. Otherwise it returns an answer, whose reply says why there is no list: `Unknown`, `Uncertified` or `Incomplete`.
    ///
    /// On error nothing changes. The error is the first of these that applies:
    ///
    /// 1. `OutOfTurn`: the session is not below the limit of sessions, or the number is not that of its next call.
    /// 2. `HistoryFull`: the history has reached its limit of events.
    /// 3. `NoMemory`: an allocation failed.
    pub fn open(
        &mut self,
        alloc: Global,
        session: u16,
        number: u32,
        digest: Digest,
    ) -> Result<Result<Ticket<S>, Done<S>>, NoStep>
        ensures taken { IfOk result (λ answer. Takes S.accepts self.old self.new session number
            (Call.Causal digest) (reply_of answer) (front_of answer)) }
        ensures told { IfOk result (IsTicketFor digest) }
        ensures may { OnOk result (MayStep self.old session number None) }
        ensures refused { IfErr result (IsRefusal self.old session number None) }
        ensures unchanged { OnErr result (self.new ≡ self.old) }
    {
        self.may_step(session, number, None)?;
        let (answer, _) = self.take_open(alloc, session, number, digest)?;
        Ok(answer)
    }

    /// Freezes all complete blocks as one generation, which later tickets share. Collected blocks are not part of it. No history, reply or
    /// earlier ticket changes, even on error. The cost grows with the number of complete blocks.
    ///
    /// `NoMemory`: an allocation failed.
    pub fn compact(&mut self, alloc: Global) -> Result<(), NoMemory>
        ensures { self.new ≡ self.old }
    {
        self.tables.compact(alloc)
    }
}
