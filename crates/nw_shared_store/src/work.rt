//! Work on the value, which a seat has while it has the lock.
ghost use Rattle.std.specs.Prelude.{◌≡◌, ◌<◌, None, ⊤, IfOk, IfErr, IfSome, IfNone, OnErr};
ghost use Rattle.nw_model.specs.Look.{AreLooks};
ghost use Rattle.nw_model.specs.declared.call.Call.TheVariants as Call;
ghost use Rattle.nw_history.specs.Story.{state_of};
ghost use Rattle.nw_book.specs.Answer.{IsTicketFor, front_of, reply_of};
ghost use Rattle.nw_book.specs.Answered.{IsLookAfter};
ghost use Rattle.nw_book.specs.Command.{call_of, committee_of};
ghost use Rattle.nw_shared_store.specs.Locked.{IsEnded, IsEnrolled, IsFound, IsFullOf, IsLocked, IsTaken, IsUntaken};
ghost use Rattle.nw_shared_store.specs.Rule.{HasValue, IsSeatAt};

use crate::rule::{Lock, Seat};
use nw_book::{Command, Done, Front, NoStep, Ticket};
use nw_digest::{Digest, NoMemory, Round};
use nw_model::Look;
use nw_sig::Scheme;
use std::alloc::Global;

/// The number of the run.
pub(crate) fn run_at<S: Scheme>(lock: &Lock<S>, seat: &mut Seat<S>) -> u64
    requires lock { IsSeatAt lock.now.shared.table_id seat.old.table_id }
    requires locked { HasValue seat.old.me (λ g. ⊤) }
    ensures at { seat.new.table_id ≡ seat.old.table_id }
    ensures same { seat.new.me ≡ seat.old.me }
    ensures run { HasValue seat.old.me (λ g. (result ≡ g.run) × IsLocked S.accepts g) }
{
    let locked = seat.slot_mut(&lock.shared, 0);
    locked.run()
}

/// Takes the step of the session's next call on the value.
pub(crate) fn call_at<S: Scheme>(
    lock: &Lock<S>,
    seat: &mut Seat<S>,
    alloc: Global,
    id: u16,
    command: &Command<S>,
) -> Result<Done<S>, NoStep>
    requires lock { IsSeatAt lock.now.shared.table_id seat.old.table_id }
    requires locked { HasValue seat.old.me (λ g. id < g.made) }
    ensures at { seat.new.table_id ≡ seat.old.table_id }
    ensures view { seat.new.me.0 ≡ seat.old.me.0 }
    ensures taken { IfOk result (λ done. HasValue seat.old.me (λ g. HasValue seat.new.me (λ n.
        IsTaken S.accepts g n id (committee_of command.now) (call_of command.now) done.event.reply done.front))) }
    ensures refused { IfErr result (λ why. HasValue seat.old.me (λ g.
        IsUntaken S.accepts g id (committee_of command.now) why)) }
    ensures unchanged { OnErr result (seat.new.me ≡ seat.old.me) }
{
    let locked = seat.slot_mut(&lock.shared, 0);
    locked.call(alloc, id, command)
}

/// Takes the step of a causal read as the session's next call on the value.
pub(crate) fn open_at<S: Scheme>(
    lock: &Lock<S>,
    seat: &mut Seat<S>,
    alloc: Global,
    id: u16,
    digest: Digest,
) -> Result<Result<Ticket<S>, Done<S>>, NoStep>
    requires lock { IsSeatAt lock.now.shared.table_id seat.old.table_id }
    requires locked { HasValue seat.old.me (λ g. id < g.made) }
    ensures at { seat.new.table_id ≡ seat.old.table_id }
    ensures view { seat.new.me.0 ≡ seat.old.me.0 }
    ensures taken { IfOk result (λ answer. HasValue seat.old.me (λ g. HasValue seat.new.me (λ n.
        IsTaken S.accepts g n id None (Call.Causal digest) (reply_of answer) (front_of answer)))) }
    ensures told { IfOk result (IsTicketFor digest) }
    ensures refused { IfErr result (λ why. HasValue seat.old.me (λ g.
        IsUntaken S.accepts g id None why)) }
    ensures unchanged { OnErr result (seat.new.me ≡ seat.old.me) }
{
    let locked = seat.slot_mut(&lock.shared, 0);
    locked.open(alloc, id, digest)
}

/// Makes one more session on the value, unless the limit is reached. Returns the number of the run, and that of the session.
pub(crate) fn enrol_at<S: Scheme>(lock: &Lock<S>, seat: &mut Seat<S>) -> Option<(u64, u16)>
    requires lock { IsSeatAt lock.now.shared.table_id seat.old.table_id }
    requires locked { HasValue seat.old.me (λ g. ⊤) }
    ensures at { seat.new.table_id ≡ seat.old.table_id }
    ensures view { seat.new.me.0 ≡ seat.old.me.0 }
    ensures made { IfSome result (λ made. HasValue seat.old.me (λ g. HasValue seat.new.me (λ n.
        IsEnrolled S.accepts g n made.0 made.1))) }
    ensures full { IfNone result (HasValue seat.old.me (IsFullOf S.accepts)) }
    ensures unchanged { IfNone result (seat.new.me ≡ seat.old.me) }
{
    let locked = seat.slot_mut(&lock.shared, 0);
    locked.enrol()
}

/// A clone of the history, and the number of sessions made so far.
///
/// `NoMemory`: a reference count is at its limit.
pub(crate) fn history_at<S: Scheme>(
    lock: &Lock<S>,
    seat: &mut Seat<S>,
) -> Result<(Front<S>, u16), NoMemory>
    requires lock { IsSeatAt lock.now.shared.table_id seat.old.table_id }
    requires locked { HasValue seat.old.me (λ g. ⊤) }
    ensures at { seat.new.table_id ≡ seat.old.table_id }
    ensures same { seat.new.me ≡ seat.old.me }
    ensures found { IfOk result (λ found. HasValue seat.old.me (λ g.
        IsFound S.accepts g found.0 found.1)) }
{
    let locked = seat.slot_mut(&lock.shared, 0);
    locked.history()
}

/// Freezes all complete blocks of the value as one generation.
pub(crate) fn compact_at<S: Scheme>(
    lock: &Lock<S>,
    seat: &mut Seat<S>,
    alloc: Global,
) -> Result<(), NoMemory>
    requires lock { IsSeatAt lock.now.shared.table_id seat.old.table_id }
    requires locked { HasValue seat.old.me (λ g. ⊤) }
    ensures at { seat.new.table_id ≡ seat.old.table_id }
    ensures same { seat.new.me ≡ seat.old.me }
{
    let locked = seat.slot_mut(&lock.shared, 0);
    locked.compact(alloc)
}

/// What the state after the history of the value has in the slot of this round and author.
pub(crate) fn look_at<S: Scheme>(
    lock: &Lock<S>,
    seat: &mut Seat<S>,
    round: Round,
    author: u16,
) -> Look
    requires lock { IsSeatAt lock.now.shared.table_id seat.old.table_id }
    requires locked { HasValue seat.old.me (λ g. ⊤) }
    ensures at { seat.new.table_id ≡ seat.old.table_id }
    ensures same { seat.new.me ≡ seat.old.me }
    ensures look { HasValue seat.old.me (λ g.
        IsLocked S.accepts g × IsLookAfter g.history (round, author) result) }
{
    let locked = seat.slot_mut(&lock.shared, 0);
    locked.look(round, author)
}

/// What the state after the history of the value has in each slot of this round.
///
/// `NoMemory`: an allocation failed.
pub(crate) fn look_round_at<S: Scheme>(
    lock: &Lock<S>,
    seat: &mut Seat<S>,
    alloc: Global,
    round: Round,
) -> Result<Vec<(u16, Look)>, NoMemory>
    requires lock { IsSeatAt lock.now.shared.table_id seat.old.table_id }
    requires locked { HasValue seat.old.me (λ g. ⊤) }
    ensures at { seat.new.table_id ≡ seat.old.table_id }
    ensures same { seat.new.me ≡ seat.old.me }
    ensures looks { IfOk result (λ looks. HasValue seat.old.me (λ g.
        IsLocked S.accepts g × AreLooks (state_of g.history) round looks.items)) }
{
    let locked = seat.slot_mut(&lock.shared, 0);
    locked.look_round(alloc, round)
}

/// Ends the run of the value and begins the next. Returns the last history of the run, and the number of the next run.
///
/// `NoMemory`: an allocation failed, a reference count is at its limit, or the run has the greatest number.
pub(crate) fn restart_at<S: Scheme>(
    lock: &Lock<S>,
    seat: &mut Seat<S>,
    alloc: Global,
) -> Result<(Front<S>, u64), NoMemory>
    requires lock { IsSeatAt lock.now.shared.table_id seat.old.table_id }
    requires locked { HasValue seat.old.me (λ g. ⊤) }
    ensures at { seat.new.table_id ≡ seat.old.table_id }
    ensures view { seat.new.me.0 ≡ seat.old.me.0 }
    ensures restarted { IfOk result (λ ended. HasValue seat.old.me (λ g. HasValue seat.new.me (λ n.
        IsEnded S.accepts g n ended.0 ended.1))) }
    ensures unchanged { OnErr result (seat.new.me ≡ seat.old.me) }
{
    let locked = seat.slot_mut(&lock.shared, 0);
    locked.restart(alloc)
}
