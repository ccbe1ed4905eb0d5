//! Settlement: the sessions of a store are given, and their calls of one run together are its history.
ghost use Rattle.std.specs.Prelude.{◌≡◌, ◌∷◌, [], pos, true, false};
ghost use Rattle.nw_ed25519.specs.Accepts.{accepts};
ghost use Rattle.nw_c.specs.Kinds.{HoldsRoom, HoldsSession, HoldsSettlement, IsUnchanged};
ghost use Rattle.nw_c.specs.Stores.{IsEmptySettlement, IsGiven, IsSettled, IsUnsettled, StillKnowAll, kept_in};
ghost use Rattle.nw_c.specs.Codes.{IsFirstUnmet, IsOneOf, look_codes};
ghost use Rattle.nw_c.specs.declared.codes.TheConstants.{ABSENT, CLOSED, DONE, NO_MEMORY, OPEN, OTHER_KIND, UNSETTLED};

use crate::codes::{ABSENT, CLOSED, DONE, NO_MEMORY, OPEN, OTHER_KIND, UNSETTLED};
use crate::content::{Content, code_of_room};
use crate::given::Given;
use crate::handle::{AnswerHandle, SessionHandle, SettlementHandle, nw_free, open, put, room};
use crate::stores::code_of_refusal;
use nw_shared_store::SettleFault;
use std::alloc::Global;

/// Makes a settlement, to which no session is given.
#[unsafe(no_mangle)]
pub extern "C" fn nw_settlement_new(alloc: Global, out: &mut SettlementHandle) -> i32
    ensures made { result ≡ pos 0 → IsEmptySettlement out.new.value }
    ensures unchanged { (result ≡ pos 0 → ⊥) → IsUnchanged out.old out.new }
    ensures opened { result ≡ pos 0 → out.new.held ≡ true }
    ensures code { IsFirstUnmet ((OPEN, out.old.held ≡ false) ∷ []) (DONE ∷ NO_MEMORY ∷ []) result }
{
    if out.is_open() {
        return OPEN;
    }
    put(alloc, out, Content::Settlement(Given::new(alloc)))
}

/// Gives the session to the settlement, and closes its handle. Give the sessions in the order of their numbers.
#[unsafe(no_mangle)]
pub extern "C" fn nw_settlement_give(
    alloc: Global,
    settlement: &mut SettlementHandle,
    session: &mut SessionHandle,
) -> i32
    ensures given { result ≡ pos 0 → IsGiven settlement.old.value session.old.value settlement.new.value }
    ensures gone { result ≡ pos 0 → session.new.held ≡ false }
    ensures unchanged { (result ≡ pos 0 → ⊥) → IsUnchanged settlement.old settlement.new }
    ensures session { (result ≡ pos 0 → ⊥) → IsUnchanged session.old session.new }
    ensures stays { settlement.new.held ≡ settlement.old.held }
    ensures code { IsFirstUnmet
        ((CLOSED, (settlement.old.held ≡ true) × (session.old.held ≡ true)) ∷ (OTHER_KIND, HoldsSettlement settlement.old.value × HoldsSession session.old.value) ∷ [])
        (DONE ∷ NO_MEMORY ∷ []) result }
{
    if !settlement.is_open() || !session.is_open() {
        return CLOSED;
    }
    let Content::Settlement(given) = settlement.lend() else {
        return OTHER_KIND;
    };
    match std::mem::replace(session.lend(), Content::Room) {
        Content::Session(next) => match given.push(next) {
            Ok(()) => {
                nw_free(alloc, session);
                DONE
            }
            Err(back) => {
                *session.lend() = Content::Session(back);
                NO_MEMORY
            }
        },
        other => {
            *session.lend() = other;
            OTHER_KIND
        }
    }
}

/// Settles the sessions that were given, which must be all that one store made, in the order of their numbers, and of the present run. It
/// replaces the content of `answer` with the run's history, which is an interleaving of their calls in this run. The history of each answer to
/// these calls is a prefix of it. The sessions stay with the settlement. Returns `NW_BUSY` if another thread has a store's lock, `NW_ENDED` if
/// the run of a session has ended, and `NW_UNSETTLED` if they are not all sessions of one store, not in order, or none. It takes two stores
/// with equal histories for one. For each session, the time grows with the number of events and with the state that the history started
/// from.
#[tactic(auto, using(crate::proofs::Unread::unread))]
#[unsafe(no_mangle)]
pub extern "C" fn nw_settle(settlement: &mut SettlementHandle, answer: &mut AnswerHandle) -> i32
    ensures settled { result ≡ pos 0 → IsSettled accepts settlement.new.value answer.new.value }
    ensures unsettled { result ≡ UNSETTLED
        → IsUnsettled accepts settlement.old.value settlement.new.value }
    ensures knew { (IsOneOf (CLOSED ∷ OTHER_KIND ∷ []) result → ⊥)
        → StillKnowAll settlement.old.value settlement.new.value }
    ensures unchanged { IsOneOf (CLOSED ∷ OTHER_KIND ∷ []) result → IsUnchanged settlement.old settlement.new }
    ensures kept { kept_in settlement.new.value ≡ kept_in settlement.old.value }
    ensures answer { (result ≡ pos 0 → ⊥) → IsUnchanged answer.old answer.new }
    ensures stays { settlement.new.held ≡ settlement.old.held }
    ensures answer_stays { answer.new.held ≡ answer.old.held }
    ensures code { IsFirstUnmet
        ((CLOSED, (settlement.old.held ≡ true) × (answer.old.held ≡ true)) ∷ (OTHER_KIND, HoldsSettlement settlement.old.value × HoldsRoom answer.old.value) ∷ [])
        (UNSETTLED ∷ look_codes) result }
{
    let code = code_of_room(settlement, answer);
    if code != DONE {
        return code;
    }
    let Content::Settlement(given) = settlement.lend() else {
        return OTHER_KIND;
    };
    match given.settle() {
        Ok(history) => {
            *answer.lend() = Content::History(history);
            DONE
        }
        Err(SettleFault::Unfinished { .. }) => UNSETTLED,
        Err(SettleFault::Differs { .. }) => UNSETTLED,
        Err(SettleFault::Refused(why)) => code_of_refusal(why),
    }
}

/// Takes back the session that was given last, which may go on calling. Returns `NW_ABSENT` if the settlement has no session.
#[unsafe(no_mangle)]
pub extern "C" fn nw_settlement_take(
    alloc: Global,
    settlement: &mut SettlementHandle,
    out: &mut SessionHandle,
) -> i32
    ensures taken { result ≡ pos 0 → IsGiven settlement.new.value out.new.value settlement.old.value }
    ensures unchanged { (result ≡ pos 0 → ⊥) → IsUnchanged settlement.old settlement.new }
    ensures out { (result ≡ pos 0 → ⊥) → IsUnchanged out.old out.new }
    ensures opened { result ≡ pos 0 → out.new.held ≡ true }
    ensures stays { settlement.new.held ≡ settlement.old.held }
    ensures absent { result ≡ ABSENT → IsEmptySettlement settlement.old.value }
    ensures code { IsFirstUnmet
        ((CLOSED, settlement.old.held ≡ true) ∷ (OPEN, out.old.held ≡ false) ∷ (OTHER_KIND, HoldsSettlement settlement.old.value) ∷ [])
        (DONE ∷ NO_MEMORY ∷ ABSENT ∷ []) result }
{
    if !settlement.is_open() {
        return CLOSED;
    }
    if out.is_open() {
        return OPEN;
    }
    let Content::Settlement(given) = settlement.lend() else {
        return OTHER_KIND;
    };
    // The room comes first, so that no session is lost.
    let Some(mut room) = room(alloc) else {
        return NO_MEMORY;
    };
    match given.pop() {
        Some(session) => {
            *room = Content::Session(session);
            open(out, room);
            DONE
        }
        None => ABSENT,
    }
}
