//! Calls of sessions, for a caller that holds the lock.
ghost use Rattle.std.specs.Prelude.{◌≡◌, None, IfOk, IfErr, OnOk, OnErr};
ghost use Rattle.std.specs.Option.{option_copied};
ghost use Rattle.nw_model.specs.History.{IsAdmitted};
ghost use Rattle.nw_history.specs.Story.{IsLegalStory};
ghost use Rattle.nw_book.specs.Answer.{IsTicketFor, front_of, reply_of};
ghost use Rattle.nw_book.specs.Command.{IsNoCausalRead, call_of, committee_of};
ghost use Rattle.nw_book.specs.Turn.{HasRoom, IsInTurn, IsRefusal, MayStep};
ghost use Rattle.nw_book.specs.Journal.{next_in_journal, origin_of};
ghost use Rattle.nw_book.specs.Answered.{IsAnswered};

use crate::session::Session;
use crate::{Home, Locked};
use nw_book::{Command, Done, NoStep, Ticket};
use nw_committee::Committee;
use nw_digest::{Digest, NoMemory};
use nw_model::Call;
use nw_sig::Scheme;
use std::alloc::Global;

/// Makes the command's call as the session's next call, for a caller that holds the lock. A refused command can be tried again.
///
/// An error changes neither the session nor the value under the lock. The error is the first of these that applies:
///
/// 1. `OutOfTurn`: the session's next call is out of turn.
/// 2. `OtherCommittee`: the block or certificate was checked under another committee.
/// 3. `HistoryFull`: the history has reached its limit of events.
/// 4. `NoMemory`: an allocation failed. The first allocation follows the other three tests.
pub fn call_locked<S: Scheme, L: Home>(
    locked: &mut Locked<S, L>,
    alloc: Global,
    session: &mut Session<S, L>,
    command: &Command<S>,
) -> Result<Done<S>, NoStep>
    ensures answered { IfOk result (λ done. IsAnswered S.accepts locked.old.history session.old
        session.new (call_of command.now) done.event.reply done.front) }
    ensures starts { origin_of locked.old.history ≡ L.origin }
    ensures legal { IsLegalStory S.accepts locked.old.history }
    ensures history { IfOk result (λ done.
        locked.new ≡ record { history = done.front; made = locked.old.made }) }
    ensures may { OnOk result (MayStep locked.old.history session.old.id
        (next_in_journal session.old) (committee_of command.now)) }
    ensures refused { IfErr result (IsRefusal locked.old.history session.old.id
        (next_in_journal session.old) (committee_of command.now)) }
    ensures unchanged { OnErr result (locked.new ≡ locked.old) }
    ensures session { OnErr result (session.new ≡ session.old) }
{
    let number = may_call(locked, session, command.committee())?;
    let call = command.call()?;
    Ok(take_call(locked, alloc, session, number, call)?)
}

/// Opens a causal read as the session's next call, for a caller that holds the lock. Returns a ticket if the digest is complete,
/// and otherwise an answer that says why there is no list.
///
/// An error changes neither the session nor the value under the lock. The error is the first of these that applies:
///
/// 1. `OutOfTurn`: the session's next call is out of turn.
/// 2. `HistoryFull`: the history has reached its limit of events.
/// 3. `NoMemory`: an allocation failed. The first allocation follows the other two tests.
pub fn open_locked<S: Scheme, L: Home>(
    locked: &mut Locked<S, L>,
    alloc: Global,
    session: &mut Session<S, L>,
    digest: Digest,
) -> Result<Result<Ticket<S>, Done<S>>, NoStep>
    ensures answered { IfOk result (λ answer. IsAnswered S.accepts locked.old.history session.old
        session.new (Call.Causal digest) (reply_of answer) (front_of answer)) }
    ensures told { IfOk result (IsTicketFor digest) }
    ensures starts { origin_of locked.old.history ≡ L.origin }
    ensures legal { IsLegalStory S.accepts locked.old.history }
    ensures history { IfOk result (λ answer.
        locked.new ≡ record { history = front_of answer; made = locked.old.made }) }
    ensures may { OnOk result
        (MayStep locked.old.history session.old.id (next_in_journal session.old) None) }
    ensures refused { IfErr result
        (IsRefusal locked.old.history session.old.id (next_in_journal session.old) None) }
    ensures unchanged { OnErr result (locked.new ≡ locked.old) }
    ensures session { OnErr result (session.new ≡ session.old) }
{
    let number = may_call(locked, session, None)?;
    Ok(take_open(locked, alloc, session, number, digest)?)
}

/// The number of the session's next call, if the session may make it. `under` is the committee under which the block or
/// certificate of the call was checked, if it has one. Changes nothing, and allocates nothing.
fn may_call<S: Scheme, L: Home>(
    locked: &mut Locked<S, L>,
    session: &mut Session<S, L>,
    under: Option<&Committee>,
) -> Result<u32, NoStep>
    ensures number { IfOk result (λ number. number ≡ next_in_journal session.old) }
    ensures starts { origin_of locked.old.history ≡ L.origin }
    ensures legal { IsLegalStory S.accepts locked.old.history }
    ensures may { OnOk result (MayStep locked.old.history session.old.id
        (next_in_journal session.old) (option_copied under.entry)) }
    ensures refused { IfErr result (IsRefusal locked.old.history session.old.id
        (next_in_journal session.old) (option_copied under.entry)) }
    ensures same { locked.new ≡ locked.old }
    ensures session { session.new ≡ session.old }
{
    let number = locked
        .count
        .next_number(&mut session.token, session.journal.len());
    locked.book.may_step(session.id, number, under)?;
    Ok(number)
}

/// Takes the step of the session's next call, which may be made and is not a causal read.
///
/// `NoMemory`: an allocation failed. Nothing changed.
fn take_call<S: Scheme, L: Home>(
    locked: &mut Locked<S, L>,
    alloc: Global,
    session: &mut Session<S, L>,
    number: u32,
    call: Call,
) -> Result<Done<S>, NoMemory>
    requires no_read { IsNoCausalRead call }
    requires number { number ≡ next_in_journal session.old }
    requires turn { IsInTurn locked.old.history session.old.id (next_in_journal session.old) }
    requires admitted { IsAdmitted S.accepts locked.old.history.committee call }
    requires room { HasRoom locked.old.history }
    ensures answered { IfOk result (λ done. IsAnswered S.accepts locked.old.history session.old
        session.new call done.event.reply done.front) }
    ensures history { IfOk result (λ done.
        locked.new ≡ record { history = done.front; made = locked.old.made }) }
    ensures unchanged { OnErr result (locked.new ≡ locked.old) }
    ensures session { OnErr result (session.new ≡ session.old) }
{
    session.journal.reserve(1)?;
    let (done, kept) = locked.book.take_step(alloc, session.id, number, call)?;
    locked.count.add_call(&mut session.token, kept.front());
    session.journal.push_reserved(kept);
    Ok(done)
}

/// Takes the step of the session's next call, which may be made and is a causal read.
///
/// `NoMemory`: an allocation failed. Nothing changed.
fn take_open<S: Scheme, L: Home>(
    locked: &mut Locked<S, L>,
    alloc: Global,
    session: &mut Session<S, L>,
    number: u32,
    digest: Digest,
) -> Result<Result<Ticket<S>, Done<S>>, NoMemory>
    requires number { number ≡ next_in_journal session.old }
    requires turn { IsInTurn locked.old.history session.old.id (next_in_journal session.old) }
    requires room { HasRoom locked.old.history }
    ensures answered { IfOk result (λ answer. IsAnswered S.accepts locked.old.history session.old
        session.new (Call.Causal digest) (reply_of answer) (front_of answer)) }
    ensures told { IfOk result (IsTicketFor digest) }
    ensures history { IfOk result (λ answer.
        locked.new ≡ record { history = front_of answer; made = locked.old.made }) }
    ensures unchanged { OnErr result (locked.new ≡ locked.old) }
    ensures session { OnErr result (session.new ≡ session.old) }
{
    session.journal.reserve(1)?;
    let (answer, kept) = locked.book.take_open(alloc, session.id, number, digest)?;
    locked.count.add_call(&mut session.token, kept.front());
    session.journal.push_reserved(kept);
    Ok(answer)
}
