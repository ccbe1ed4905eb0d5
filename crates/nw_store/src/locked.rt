//! The value under a store's lock, and operations for a caller that holds the lock.
ghost use Rattle.std.specs.Prelude.{◌≡◌, ◌↔◌, ◌+◌, ◌<◌, ◌≤◌, ◌++◌, ◌∷◌, []};
ghost use Rattle.std.specs.Prelude.{IsErr, IfOk, IfErr, OnOk, OnErr};
ghost use mathlib.Core.List.{IsPrefix};
ghost use Rattle.nw_history.specs.Limits.{AreInRange, most_events, most_sessions};
ghost use Rattle.nw_model.specs.Look.{AreLooks};
ghost use Rattle.nw_history.specs.Story.{IsLegalStory, reopened, state_of};
ghost use Rattle.nw_book.specs.Journal.{ArePrefixesOf, AreComparable, origin_of};
ghost use Rattle.nw_store.specs.Lock.{AreAnswers, parts_of_a_ledger};
ghost use Rattle.nw_book.specs.Answered.{IsLookAfter};
ghost use Rattle.nw_store.specs.Looks.{AreSeen, IsSeen};

use crate::opening::Opening;
use crate::session::Session;
use crate::{Home, TooMany};
use nw_book::{Book, Front};
use nw_digest::{NoMemory, Round};
use nw_log::{KnownPrefix, LogOwner};
use nw_model::Look;
use nw_sig::Scheme;
use std::alloc::Global;
use std::marker::Model;
use std::sync::ledger;
use std::sync::ledger::Share;

/// What the store knows of all its sessions: the number of their calls, and the log of the fronts that it handed out.
#[derive(Drop)]
pub(crate) struct CallCount<S: Scheme, L: Home> {
    pub(crate) calls: ledger::Book<L>,
    pub(crate) owner: LogOwner<Front<S>, L>,
}

/// What a session carries outside the lock: its part of the ledger, and a known prefix of the log. The prefix has the fronts that the store
/// had handed out when the session was made, was last answered or last heard a note. A token takes no bytes at run time.
#[derive(Drop)]
pub(crate) struct Token<S: Scheme, L: Home> {
    pub(crate) share: Share<L>,
    pub(crate) known: KnownPrefix<Front<S>, L>,
}

impl<S: Scheme, L: Home> CallCount<S, L> {
    /// Counts one more call of the session, and adds the front of its answer to the log.
    pub(crate) fn add_call(&mut self, token: &mut Token<S, L>, front: &Front<S>)
        requires { 0 < token.old.share.parts }
        ensures counted { self.new.calls.total ≡ self.old.calls.total + 1 }
        ensures logged { self.new.owner ≡ self.old.owner ++ front.now ∷ [] }
        ensures parts { token.new.share.parts ≡ token.old.share.parts }
        ensures amount { token.new.share.amount ≡ token.old.share.amount + 1 }
        ensures begins { IsPrefix token.old.known self.new.owner }
        ensures known { token.new.known ≡ self.new.owner }
    {
        self.calls.add(&mut token.share, 1);
        self.owner.append(front);
        self.owner.renew(&mut token.known);
    }

    /// The number of the session's next call. It fits, since a session has at most as many calls as the history has events.
    pub(crate) fn next_number(&mut self, token: &mut Token<S, L>, calls: usize) -> u32
        requires counted { token.old.share.amount ≡ calls }
        requires few { self.old.calls.total ≤ most_events }
        ensures number { result ≡ calls + 1 }
        ensures total { self.new.calls.total ≡ self.old.calls.total }
        ensures owner { self.new.owner ≡ self.old.owner }
        ensures parts { token.new.share.parts ≡ token.old.share.parts }
        ensures amount { token.new.share.amount ≡ token.old.share.amount }
        ensures known { token.new.known ≡ token.old.known }
    {
        self.calls.audit(&mut token.share);
        calls as u32 + 1
    }
}

/// The value under a store's lock. Contracts see the history and the number of sessions made so far.
#[derive(Drop)]
pub struct Locked<S: Scheme, L: Home> {
    pub(crate) book: Book<S>,
    /// The number of sessions made so far.
    pub(crate) made: u16,
    pub(crate) count: CallCount<S, L>,
    /// The parts of the ledger that no session has.
    pub(crate) spare: Share<L>,
}

impl<S: Scheme, L: Home> Model for Locked<S, L> {
    ghost use Rattle.std.specs.Prelude.{◌≡◌};
    ghost use Rattle.std.specs.Coded.{codes};
    ghost use Rattle.nw_model.specs.State.{coded_state};
    ghost use Rattle.nw_book.specs.Journal.{origin_of};
    ghost use Rattle.nw_store.specs.Lock.{Guarded, IsLocked, parts_of_a_ledger};

    ghost Value = { Guarded };

    ghost coded = { Prim.hlevel (codes, coded_state) };

    ghost view = { λ l. record { history = l.book; made = l.made } };

    ghost invariant = { λ l. (L.parts ≡ parts_of_a_ledger)
        × IsLocked S.accepts (record { history = l.book; made = l.made }) l.count.calls.total
        l.spare.parts l.spare.amount l.count.owner × (origin_of l.book ≡ L.origin) };
}

impl<S: Scheme, L: Home> Locked<S, L> {
    /// The value for a new store over the book, which has made no sessions.
    pub(crate) fn over(opening: Opening<S>, book: Book<S>) -> Locked<S, L>
        requires log { opening.log ≡ L.log }
        requires ledger { (opening.ledger ≡ L.name) × (L.parts ≡ parts_of_a_ledger) }
        requires origin { origin_of book ≡ L.origin }
        requires in_range { AreInRange book.limits }
        requires legal { IsLegalStory S.accepts book }
        requires empty { book.events ≡ [] }
        ensures { result ≡ record { history = book; made = 0 } }
    {
        let Opening { log, blank } = opening;
        let (calls, spare) = blank.open::<L>();
        let owner = log.owner::<L>();
        Locked {
            book,
            made: 0,
            count: CallCount { calls, owner },
            spare,
        }
    }

    /// The history so far.
    pub fn history(&self) -> &Front<S>
        ensures history { result.now ≡ self.now.history }
        ensures starts { origin_of self.now.history ≡ L.origin }
        ensures legal { IsLegalStory S.accepts self.now.history }
    {
        self.book.history()
    }

    /// The reopened book.
    ///
    /// `NoMemory`: an allocation failed. The error returns the value unchanged.
    pub(crate) fn reopen(mut self, alloc: Global) -> Result<Book<S>, (NoMemory, Locked<S, L>)>
        ensures reopened { IfOk result (λ book. book ≡ reopened self.history) }
        ensures back { IfErr result (λ refused. refused.1 ≡ self) }
    {
        match self.book.restart(alloc) {
            Ok(()) => Ok(self.book),
            Err(refused) => Err((refused, self)),
        }
    }
}

/// Makes a new session, for a caller that holds the lock. Allocates nothing.
///
/// `TooMany`: the store has made as many sessions as its limit allows. Nothing changed.
pub fn session_locked<S: Scheme, L: Home>(
    locked: &mut Locked<S, L>,
    alloc: Global,
) -> Result<Session<S, L>, TooMany>
    ensures session { IfOk result
        (λ session. (session.id ≡ locked.old.made) × (session.answers ≡ [])) }
    ensures made { OnOk result
        (locked.new ≡ record { history = locked.old.history; made = locked.old.made + 1 }) }
    ensures too_many { IsErr result ↔ (locked.old.made ≡ locked.old.history.limits.sessions) }
    ensures unchanged { OnErr result (locked.new ≡ locked.old) }
{
    let id = locked.made;
    if u32::from(id) >= locked.book.history().limits().sessions {
        return Err(TooMany);
    }
    locked.made += 1;
    Ok(Session {
        id,
        journal: Vec::new(alloc),
        token: Token {
            share: locked.spare.split_off(1, 0),
            known: locked.count.owner.known(),
        },
    })
}

/// Freezes all complete blocks as one generation, which later tickets share, for a caller that holds the lock. Collected blocks are not
/// part of it. No history, reply or earlier ticket changes, even on error. The cost grows with the number of complete blocks.
///
/// `NoMemory`: an allocation failed.
pub fn compact_locked<S: Scheme, L: Home>(
    locked: &mut Locked<S, L>,
    alloc: Global,
) -> Result<(), NoMemory>
    ensures same { locked.new ≡ locked.old }
{
    locked.book.compact(alloc)
}

/// What the state after the history has in the slot of this round and author, for a caller that holds the lock. This is no call, and
/// allocates nothing.
pub fn look_locked<S: Scheme, L: Home>(locked: &Locked<S, L>, round: Round, author: u16) -> Look
    ensures look { IsLookAfter locked.now.history (round, author) result }
    ensures seen { IsSeen S.accepts L.origin (round, author) result }
{
    locked.book.look(round, author)
}

/// What the state after the history has in each slot of this round that has a first or a certified digest, for a caller that holds the
/// lock: the authors, ascending, with the looks. This is no call.
///
/// `NoMemory`: an allocation failed.
pub fn look_round_locked<S: Scheme, L: Home>(
    locked: &Locked<S, L>,
    alloc: Global,
    round: Round,
) -> Result<Vec<(u16, Look)>, NoMemory>
    ensures looks { IfOk result (λ looks. AreLooks (state_of locked.now.history) round looks.items) }
    ensures seen { IfOk result (λ looks. AreSeen S.accepts L.origin round looks.items) }
{
    locked.book.look_round(alloc, round)
}

/// Proves that each front of the session is a prefix of the history, however much other sessions added to it. It changes nothing
/// and compares no events.
pub fn check_journal_locked<S: Scheme, L: Home>(
    locked: &mut Locked<S, L>,
    session: &mut Session<S, L>,
)
    ensures begun { ArePrefixesOf locked.old.history session.old.answers }
    ensures starts { origin_of locked.old.history ≡ L.origin }
    ensures legal { IsLegalStory S.accepts locked.old.history }
    ensures numbered { AreAnswers session.old.id 1 session.old.answers }
    ensures below { session.old.id < most_sessions }
    ensures same { locked.new ≡ locked.old }
    ensures session { session.new ≡ session.old }
{
    locked.count.owner.check_in_place(&mut session.token.known);
}

/// Proves that of any two answers of the two sessions, one's front is a prefix of the other's. It changes nothing and compares no
/// events.
pub fn check_journals_locked<S: Scheme, L: Home>(
    locked: &mut Locked<S, L>,
    one: &mut Session<S, L>,
    two: &mut Session<S, L>,
)
    ensures comparable { AreComparable one.old.answers two.old.answers }
    ensures same { locked.new ≡ locked.old }
    ensures one { one.new ≡ one.old }
    ensures two { two.new ≡ two.old }
{
    check_journal_locked(locked, one);
    check_journal_locked(locked, two);
}
