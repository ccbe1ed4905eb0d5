//! The lock: taking it, and giving it back. No function here waits.
ghost use Rattle.std.specs.Prelude.{◌≡◌, ◌+◌, ◌<◌, List, ◌∷◌, [], Some, true, false, ⊤, All};
ghost use Rattle.std.specs.Prelude.{IfErr, OnOk, OnErr};
ghost use Rattle.nw_model.specs.declared.event.Event.{Event};
ghost use Rattle.nw_history.specs.Story.{Story, with_event};
ghost use Rattle.nw_shared_store.specs.Locked.{Current};
ghost use Rattle.nw_shared_store.specs.Rule.{Begins, HasLock, IsJoined, IsMember, IsSeatAt, SeatView, Knows, KnowsRun, MayJoin, after_session, after_share, answered, counting, for_session, for_share, freed, hearer, holder_of, reader_of, told, with_journal, witness};
ghost use Rattle.nw_shared_store.specs.Session.{IsTurnedAway};

use crate::Refusal;
use crate::rule::{
    Acquire, Agree, Come, Count, CutOwner, CutSession, CutWitness, Enrol, Join, Lock, Meet, Read,
    Release, Return, Seat, Tell,
};
use crate::work::run_at;
use nw_sig::Scheme;

/// A new seat, without a session. It makes nothing.
pub(crate) fn new_seat<S: Scheme>(lock: &Lock<S>) -> Seat<S>
    requires { (lock.now.shared.table_id.words ≡ 1) × (lock.now.shared.table_id.slots ≡ 1) }
    ensures at { result.table_id ≡ lock.now.shared.table_id }
    ensures knows { result.me ≡ (hearer lock.now.shared.key, []) }
{
    lock.shared.load_new_seat::<Come>(0).1
}

/// Cuts an owner's seat in two: this one is for one session, and keeps the lock. Returns the owner's seat.
pub(crate) fn cut_session<S: Scheme>(lock: &Lock<S>, seat: &mut Seat<S>) -> Seat<S>
    requires lock { IsSeatAt lock.now.shared.table_id seat.old.table_id }
    requires idle { seat.old.me.0.acts ≡ false }
    ensures at { seat.new.table_id ≡ seat.old.table_id }
    ensures owner_at { result.table_id ≡ seat.old.table_id }
    ensures session { seat.new.me ≡ (for_session seat.old.me.0, seat.old.me.1) }
    ensures owner { result.me ≡ (after_session seat.old.me.0, []) }
{
    lock.shared.split_seat::<CutSession>(seat)
}

/// Cuts the seat of another owner off an owner's seat.
pub(crate) fn cut_owner<S: Scheme>(lock: &Lock<S>, seat: &mut Seat<S>) -> Seat<S>
    requires lock { IsSeatAt lock.now.shared.table_id seat.old.table_id }
    requires idle { seat.old.me.0.acts ≡ false }
    ensures at { seat.new.table_id ≡ seat.old.table_id }
    ensures other_at { result.table_id ≡ seat.old.table_id }
    ensures owner { seat.new.me ≡ (after_share seat.old.me.0, seat.old.me.1) }
    ensures other { result.me ≡ (for_share seat.old.me.0, []) }
{
    lock.shared.split_seat::<CutOwner>(seat)
}

/// Cuts a witness off a session's seat.
pub(crate) fn cut_witness<S: Scheme>(lock: &Lock<S>, seat: &mut Seat<S>) -> Seat<S>
    requires lock { IsSeatAt lock.now.shared.table_id seat.old.table_id }
    ensures at { seat.new.table_id ≡ seat.old.table_id }
    ensures witness_at { result.table_id ≡ seat.old.table_id }
    ensures same { seat.new.me ≡ seat.old.me }
    ensures witness { result.me ≡ (witness seat.old.me.0, []) }
{
    lock.shared.split_seat::<CutWitness>(seat)
}

/// Two witnesses meet, and tell what they know.
pub(crate) fn meet<S: Scheme>(lock: &Lock<S>, mut mine: Seat<S>, other: Seat<S>)
    requires lock { IsSeatAt lock.now.shared.table_id mine.table_id }
    requires other_lock { other.table_id ≡ lock.now.shared.table_id }
    requires out { mine.me.1 ≡ [] }
    requires other_out { other.me.1 ≡ [] }
    ensures agreed { (past : List Story) × Begins mine.me.0.past past × Begins other.me.0.past past }
{
    lock.shared.join_seat::<Meet>(&mut mine, other);
    lock.shared.load::<Agree>(&mut mine, 0);
}

/// One attempt to take the lock.
///
/// `Busy`: another thread has the lock.
pub(crate) fn try_take<S: Scheme>(lock: &Lock<S>, seat: &mut Seat<S>) -> Result<(), Refusal>
    requires lock { IsSeatAt lock.now.shared.table_id seat.old.table_id }
    requires out { seat.old.me.1 ≡ [] }
    ensures at { seat.new.table_id ≡ seat.old.table_id }
    ensures got { OnOk result
        (HasLock seat.old.me.0 seat.new.me (λ now. Knows S.accepts now seat.old.me.0)) }
    ensures busy { IfErr result (λ why. why ≡ Refusal.Busy) }
    ensures missed { OnErr result (seat.new.me ≡ seat.old.me) }
{
    if lock.shared.compare_exchange::<Acquire>(seat, 0, 0, 1) != 0 {
        return Err(Refusal::Busy);
    }
    Ok(())
}

/// One attempt to take the lock for a session of this run. If the run has ended, the seat now knows it.
///
/// `Busy`: another thread has the lock. `Ended`: the run has ended.
pub(crate) fn take_in<S: Scheme>(
    lock: &Lock<S>,
    seat: &mut Seat<S>,
    run: u64,
) -> Result<(), Refusal>
    requires lock { IsSeatAt lock.now.shared.table_id seat.old.table_id }
    requires out { seat.old.me.1 ≡ [] }
    requires run { seat.old.me.0.run ≡ run }
    ensures at { seat.new.table_id ≡ seat.old.table_id }
    ensures got { OnOk result
        (HasLock seat.old.me.0 seat.new.me (λ now. KnowsRun S.accepts now seat.old.me.0)) }
    ensures refused { IfErr result (IsTurnedAway seat.old.me seat.new.me) }
    ensures journal { OnErr result (seat.new.me.0.journal ≡ seat.old.me.0.journal) }
{
    try_take(lock, seat)?;
    if run_at(lock, seat) != run {
        end_telling(lock, seat);
        return Err(Refusal::Ended);
    }
    Ok(())
}

/// Gives the lock back, with the value as it was. The seat, which is of an ended run, now knows it.
pub(crate) fn end_telling<S: Scheme>(lock: &Lock<S>, seat: &mut Seat<S>)
    requires lock { IsSeatAt lock.now.shared.table_id seat.old.table_id }
    requires same { HasLock (freed seat.old.me.0) seat.old.me (λ now. seat.old.me.0.run ≡ now.run → ⊥) }
    ensures at { seat.new.table_id ≡ seat.old.table_id }
    ensures told { seat.new.me ≡ (told seat.old.me.0, []) }
{
    lock.shared.store::<Tell>(seat, 0, 0);
}

/// Gives the lock back, with the value as it was.
pub(crate) fn give_back<S: Scheme>(lock: &Lock<S>, seat: &mut Seat<S>)
    requires lock { IsSeatAt lock.now.shared.table_id seat.old.table_id }
    requires same { HasLock (freed seat.old.me.0) seat.old.me (λ now. ⊤) }
    ensures at { seat.new.table_id ≡ seat.old.table_id }
    ensures freed { seat.new.me ≡ (freed seat.old.me.0, []) }
{
    lock.shared.store::<Return>(seat, 0, 0);
}

/// Gives the lock back, with the value as it was. The seat, which is of the run of the value, now knows of its history.
pub(crate) fn end_reading<S: Scheme>(lock: &Lock<S>, seat: &mut Seat<S>)
    requires lock { IsSeatAt lock.now.shared.table_id seat.old.table_id }
    requires same { HasLock (freed seat.old.me.0) seat.old.me (λ now. seat.old.me.0.run ≡ now.run) }
    ensures at { seat.new.table_id ≡ seat.old.table_id }
    ensures read { (g : Current) → seat.old.me.0.holds ≡ Some g
        → seat.new.me ≡ (reader_of g.history seat.old.me.0, []) }
{
    lock.shared.store::<Read>(seat, 0, 0);
}

/// Gives the lock back after a call of the session.
pub(crate) fn end_call<S: Scheme>(lock: &Lock<S>, seat: &mut Seat<S>)
    requires lock { IsSeatAt lock.now.shared.table_id seat.old.table_id }
    requires called { (g : Current) × (v : SeatView) × (e : Event) × (e.session ≡ v.journal.id) × (v.acts ≡ true) × (v.run ≡ g.run)
        × (seat.old.me ≡ (holder_of g v, (0, record { run = g.run; history = with_event g.history e; made = g.made }) ∷ [])) }
    ensures at { seat.new.table_id ≡ seat.old.table_id }
    ensures released { (g n : Current) (v : SeatView) → seat.old.me ≡ (holder_of g v, (0, n) ∷ [])
        → seat.new.me ≡ (with_journal v (answered g.history n.history v.journal), []) }
{
    lock.shared.store::<Release>(seat, 0, 0);
}

/// Gives the lock back, with the value as it was. The seat now knows of its number of sessions.
pub(crate) fn end_counting<S: Scheme>(lock: &Lock<S>, seat: &mut Seat<S>)
    requires lock { IsSeatAt lock.now.shared.table_id seat.old.table_id }
    requires same { HasLock (freed seat.old.me.0) seat.old.me (λ now. ⊤) }
    ensures at { seat.new.table_id ≡ seat.old.table_id }
    ensures counted { (g : Current) → seat.old.me.0.holds ≡ Some g
        → seat.new.me ≡ (counting g seat.old.me.0, []) }
{
    lock.shared.store::<Count>(seat, 0, 0);
}

/// Gives the lock back after one more session was made, which the seat now has. The seat is for one session.
pub(crate) fn end_enrolment<S: Scheme>(lock: &Lock<S>, seat: &mut Seat<S>)
    requires lock { IsSeatAt lock.now.shared.table_id seat.old.table_id }
    requires made { (g : Current) × (v : SeatView) × (v.right.one ≡ true)
        × (seat.old.me ≡ (holder_of g v, (0, record { run = g.run; history = g.history; made = g.made + 1 }) ∷ []))
        × All (λ (e : Event). e.session < g.made) g.history.events }
    ensures at { seat.new.table_id ≡ seat.old.table_id }
    ensures enrolled { (g : Current) → seat.old.me.0.holds ≡ Some g
        → IsMember S.accepts g seat.old.me.0 seat.new.me }
{
    lock.shared.store::<Enrol>(seat, 0, 0);
}

/// Gives the lock back. The seat's session comes to the run of the value, which is another run than the seat's, or the next one.
pub(crate) fn join<S: Scheme>(lock: &Lock<S>, seat: &mut Seat<S>)
    requires lock { IsSeatAt lock.now.shared.table_id seat.old.table_id }
    requires joins { (g : Current) × (d : Current) × (v : SeatView) × (v.acts ≡ true) × MayJoin S.accepts g d v.run
        × (seat.old.me ≡ (holder_of g v, (0, d) ∷ [])) }
    ensures at { seat.new.table_id ≡ seat.old.table_id }
    ensures joined { (g d : Current) (v : SeatView) → seat.old.me ≡ (holder_of g v, (0, d) ∷ [])
        → IsJoined S.accepts g d v seat.new.me }
{
    lock.shared.store::<Join>(seat, 0, 0);
}
