//! Settlement: all sessions are given back, and their journals together are the history.
ghost use Rattle.std.specs.Prelude.{ℕ, ◌≡◌, ◌↔◌, ◌+◌, ◌<◌, ◌^◌, ◌≤◌};
ghost use Rattle.std.specs.Prelude.{IsOk, IsNone, IsTrue, OnOk, OnErr, IfOk, IfErr, IfSome, IfNone};
ghost use Rattle.std.specs.Prelude.{All, Some, length, slice_get, sum_by};
ghost use Rattle.std.specs.List.Sorted.{IsPermutation, IsNonDecreasingBy};
ghost use Rattle.nw_history.specs.Story.{IsLegalStory, reopened};
ghost use Rattle.nw_history.specs.Limits.{most_sessions};
ghost use Rattle.nw_book.specs.Journal.{Journal, ArePrefixesOf, origin_of};
ghost use Rattle.nw_store.specs.Lock.{AreAnswers};
ghost use Rattle.nw_book.specs.Settled.{AreSettled};
ghost use Rattle.nw_store.specs.Settled.{AreAllSessions, AreAllComparable, ids_of};
ghost use Rattle.nw_store.specs.Fault.{IsFault, IsFirstStray, IsStray};

use crate::locked::check_journal_locked;
use crate::{Home, Locked, Session, SettleFault, Store};
use nw_book::{Book, Entry, Front, MAX_SESSIONS};
use nw_digest::NoMemory;
use nw_sig::Scheme;
use std::alloc::Global;
use std::marker::Model;
use std::sync::ledger;
use std::sync::ledger::Share;

/// A history that no session can add to, and the journals of all its sessions. Contracts see the history, the number of
/// sessions, and the journals in the order of their ids.
#[derive(Drop)]
pub struct Settled<S: Scheme, L: Home> {
    locked: Locked<S, L>,
    sessions: Vec<Session<S, L>>,
}

impl<S: Scheme, L: Home> Model for Settled<S, L> {
    ghost use Rattle.std.specs.Coded.{codes};
    ghost use Rattle.nw_model.specs.State.{coded_state};
    ghost use Rattle.nw_book.specs.Settled.{AreSettled};
    ghost use Rattle.nw_store.specs.Settled.{Settlement, AreAllSessions};

    ghost Value = { Settlement };

    ghost coded = { Prim.hlevel (codes, coded_state) };

    ghost view = { λ s.
        record { history = s.locked.history; made = s.locked.made; journals = s.sessions.items } };

    ghost invariant = { λ s. AreAllSessions s.locked.made s.sessions.items
        × AreSettled s.locked.history s.sessions.items };
}

impl<S: Scheme, L: Home> Settled<S, L> {
    /// The history, which is an interleaving of the journals of all sessions and has the store's origin. Of any two answers in the
    /// journals, one's front is a prefix of the other's.
    pub fn history(&self) -> &Front<S>
        ensures history { result.now ≡ self.now.history }
        ensures all { AreAllSessions self.now.made self.now.journals }
        ensures settled { AreSettled self.now.history self.now.journals }
        ensures comparable { AreAllComparable self.now.journals }
        ensures starts { origin_of self.now.history ≡ L.origin }
        ensures legal { IsLegalStory S.accepts self.now.history }
    {
        self.locked.history()
    }

    /// The reopened book, for a new store: it has the same tables, committee and limits, and an empty history.
    ///
    /// `NoMemory`: an allocation failed. The error returns the settled store unchanged.
    pub fn reopen(self, alloc: Global) -> Result<Book<S>, (NoMemory, Settled<S, L>)>
        ensures reopened { IfOk result (λ book. book ≡ reopened self.history) }
        ensures back { IfErr result (λ refused. refused.1 ≡ self) }
    {
        let Settled { locked, sessions } = self;
        match locked.reopen(alloc) {
            Ok(book) => {
                drop(sessions);
                Ok(book)
            }
            Err((error, locked)) => Err((error, Settled { locked, sessions })),
        }
    }

    /// The journal of the session, or `None` if the store made no session with this id.
    pub fn journal(&self, session: u16) -> Option<&[Entry<S>]>
        ensures journal { IfSome result (λ entries. (j : Journal)
            × (slice_get self.now.journals session ≡ Some j) × (entries.now ≡ j.answers)) }
        ensures none { IsNone result ↔ (self.now.made ≤ session) }
    {
        let session = self.sessions.get(usize::from(session))?;
        Some(session.journal.as_slice())
    }
}

/// Settles the sessions with the value that was under the lock. Succeeds exactly when they are all that the store made, each once, in any
/// order. Compares no events, and allocates nothing.
///
/// The error returns everything unchanged, with the first of these faults that applies:
///
/// 1. `Unfinished`: fewer sessions were given than the store made.
/// 2. `Differs`: an id is stray. The fault names the least one.
pub fn settle_locked<S: Scheme, L: Home>(
    mut locked: Locked<S, L>,
    mut sessions: Vec<Session<S, L>>,
) -> Result<Settled<S, L>, (SettleFault, Locked<S, L>, Vec<Session<S, L>>)>
    ensures history { IfOk result (λ s. s.history ≡ locked.history) }
    ensures made { IfOk result (λ s. s.made ≡ locked.made) }
    ensures journals { IfOk result (λ s. IsPermutation sessions.items s.journals) }
    ensures settled { IfOk result (λ s. AreSettled s.history s.journals) }
    ensures exactly { IsOk result ↔ AreAllSessions locked.made sessions.items }
    ensures refused { IfErr result (λ e. IsFault locked sessions.items e.0) }
    ensures back { IfErr result (λ e. (e.1 ≡ locked) × (e.2.items ≡ sessions.items)) }
{
    match settle_in_place(&mut locked, sessions.as_mut_slice()) {
        Ok(()) => Ok(Settled { locked, sessions }),
        Err(fault) => Err((fault, locked, sessions)),
    }
}

/// If the sessions are all that the store made, sorts them by their ids, and proves that they are settled.
fn settle_in_place<S: Scheme, L: Home>(
    locked: &mut Locked<S, L>,
    sessions: &mut [Session<S, L>],
) -> Result<(), SettleFault>
    ensures exactly { IsOk result ↔ AreAllSessions locked.old.made sessions.old }
    ensures all { OnOk result (AreAllSessions locked.old.made sessions.new) }
    ensures settled { OnOk result (AreSettled locked.old.history sessions.new) }
    ensures refused { IfErr result (IsFault locked.old sessions.old) }
    ensures permutation { IsPermutation sessions.old sessions.new }
    ensures unchanged { OnErr result (sessions.new ≡ sessions.old) }
    ensures same { locked.new ≡ locked.old }
{
    let made = locked.made;
    let given = sessions.len();
    if given < usize::from(made) {
        return Err(SettleFault::Unfinished { made, given });
    }
    add_up(&mut locked.count.calls, sessions, &mut locked.spare);
    check_all_journals(locked, sessions);
    if let Some(session) = first_stray(sessions, made) {
        return Err(SettleFault::Differs { session, number: 0 });
    }
    sort(sessions);
    Ok(())
}

/// Sorts the sessions by their ids.
fn sort<S: Scheme, L: Home>(sessions: &mut [Session<S, L>])
    ensures sorted { IsNonDecreasingBy (λ s. s.id) sessions.new }
    ensures permutation { IsPermutation sessions.old sessions.new }
{
    sessions.sort_unstable_by_key(|session| session.id());
}

/// The least stray id of the sessions, of which the store made `made`.
fn first_stray<S: Scheme, L: Home>(sessions: &[Session<S, L>], made: u16) -> Option<u16>
    requires below { All (λ s. s.id < most_sessions) sessions.now }
    ensures stray { IfSome result (λ id. IsFirstStray made (ids_of sessions.now) id) }
    ensures none { IfNone result ((id : ℕ) → IsStray made (ids_of sessions.now) id → ⊥) }
{
    for id in 0..MAX_SESSIONS as u16 {
        if is_stray(sessions, id, made) {
            return Some(id);
        }
    }
    None
}

/// Whether the id is stray: two of the sessions have it, or one has it and it is not below `made`.
fn is_stray<S: Scheme, L: Home>(sessions: &[Session<S, L>], id: u16, made: u16) -> bool
    ensures { IsTrue result ↔ IsStray made (ids_of sessions.now) id }
{
    let times = sessions.iter().filter(|session| session.id() == id).count();
    times > 1 || times > 0 && id >= made
}

/// Does for each session what `check_journal_locked` does.
fn check_all_journals<S: Scheme, L: Home>(locked: &mut Locked<S, L>, sessions: &mut [Session<S, L>])
    ensures begun { All
        (λ s. ArePrefixesOf locked.old.history s.answers × AreAnswers s.id 1 s.answers) sessions.old }
    ensures below { All (λ s. s.id < most_sessions) sessions.old }
    ensures same { locked.new ≡ locked.old }
    ensures sessions { sessions.new ≡ sessions.old }
{
    if let Some((first, rest)) = sessions.split_first_mut() {
        check_journal_locked(locked, first);
        check_all_journals(locked, rest);
    }
}

/// Counts the parts of the ledger. There must be at least as many sessions as parts outside `gathered`. Proves that there are exactly as
/// many, and that the sessions and `gathered` together count all calls. Each session lends its part and gets it back.
fn add_up<S: Scheme, L: Home>(
    calls: &mut ledger::Book<L>,
    sessions: &mut [Session<S, L>],
    gathered: &mut Share<L>,
)
    requires enough { L.parts ≤ gathered.old.parts + length sessions.old }
    requires few { gathered.old.parts ≤ L.parts }
    requires backed { gathered.old.parts ≡ 0 → gathered.old.amount ≡ 0 }
    ensures whole { gathered.old.parts + length sessions.old ≡ L.parts }
    ensures total { sum_by (λ s. length s.answers) sessions.old + gathered.old.amount
        ≡ calls.old.total }
    ensures calls { calls.new.total ≡ calls.old.total }
    ensures sessions { sessions.new ≡ sessions.old }
    ensures parts { gathered.new.parts ≡ gathered.old.parts }
    ensures amount { gathered.new.amount ≡ gathered.old.amount }
{
    match sessions.split_first_mut() {
        None => calls.audit(gathered),
        Some((first, rest)) => {
            let made = first.journal.len() as u64;
            first.token.share.give(gathered, 1, made);
            add_up(calls, rest, gathered);
            gathered.give(&mut first.token.share, 1, made);
        }
    }
}

/// What `settle` returns if the sessions do not settle: the fault, the value that was under the lock, and the sessions.
#[derive(Drop)]
pub struct Unsettled<S: Scheme, L: Home> {
    /// Why the sessions do not settle.
    pub fault: SettleFault,
    /// The value that was under the lock.
    pub locked: Locked<S, L>,
    /// The given sessions, unchanged and in the same order.
    pub sessions: Vec<Session<S, L>>,
}

/// Ends the store, and settles its sessions as `settle_locked` does. The order of the given sessions does not matter. The error returns
/// everything, with the value that was under the lock in place of the store: each session's fronts begin its history.
pub fn settle<S: Scheme, L: Home>(
    store: Store<S, L>,
    sessions: Vec<Session<S, L>>,
) -> Result<Settled<S, L>, Unsettled<S, L>>
    ensures all { IfOk result (λ s. AreAllSessions s.made sessions.items) }
    ensures journals { IfOk result (λ s. IsPermutation sessions.items s.journals) }
    ensures settled { IfOk result (λ s. AreSettled s.history s.journals) }
    ensures refused { IfErr result (λ e. IsFault e.locked sessions.items e.fault) }
    ensures back { IfErr result (λ e. e.sessions.items ≡ sessions.items) }
    ensures begun { IfErr result (λ e. All (λ s. ArePrefixesOf e.locked.history s.answers
        × AreAnswers s.id 1 s.answers) sessions.items) }
{
    match settle_locked(store.locked.into_inner(), sessions) {
        Ok(settled) => Ok(settled),
        Err((fault, mut locked, mut sessions)) => {
            check_all_journals(&mut locked, sessions.as_mut_slice());
            Err(Unsettled {
                fault,
                locked,
                sessions,
            })
        }
    }
}
