//! The run of a session: its number, ending it, and coming to the present one.
ghost use Rattle.std.specs.Prelude.{◌≡◌, ◌∷◌, [], pos, true};
ghost use Rattle.nw_ed25519.specs.Accepts.{accepts};
ghost use Rattle.nw_c.specs.Kinds.{HoldsRoom, HoldsSession, IsUnchanged};
ghost use Rattle.nw_c.specs.Runs.{HasRun, IsOfPresentRun, IsRunEnded};
ghost use Rattle.nw_c.specs.Sessions.{KnowsEnd};
ghost use Rattle.nw_c.specs.Codes.{IsFirstUnmet, look_codes};
ghost use Rattle.nw_c.specs.declared.codes.TheConstants.{BUSY, CLOSED, DONE, ENDED, OTHER_KIND};

use crate::codes::{CLOSED, DONE, OTHER_KIND};
use crate::content::{Content, code_of_room};
use crate::handle::{AnswerHandle, SessionHandle};
use crate::stores::code_of_refusal;
use std::alloc::Global;

/// Writes the number of the session's run. A store begins with run 0.
#[unsafe(no_mangle)]
pub extern "C" fn nw_session_run(session: &mut SessionHandle, out: &mut u64) -> i32
    ensures run { result ≡ pos 0 → HasRun session.old.value out.new }
    ensures same { IsUnchanged session.old session.new }
    ensures unchanged { (result ≡ pos 0 → ⊥) → out.new ≡ out.old }
    ensures code { IsFirstUnmet
        ((CLOSED, session.old.held ≡ true) ∷ (OTHER_KIND, HoldsSession session.old.value) ∷ [])
        (DONE ∷ []) result }
{
    if !session.is_open() {
        return CLOSED;
    }
    match session.lend() {
        Content::Session(held) => {
            *out = held.run();
            DONE
        }
        _ => OTHER_KIND,
    }
}

/// Ends the run and begins the next, to which the session then belongs. The store keeps its blocks, certificates, votes and garbage round, so
/// no round and author gets a second vote. The history of the next run is empty, and the calls of each session are numbered from 1 again. It
/// replaces the content of `answer` with the last history of the ended run. Calls of the other sessions return `NW_ENDED`, until
/// `nw_session_renew`. Earlier answers, tickets and notes do not change.
///
/// It copies the tables, and shares the blocks and certificates, so its time depends only on how many are stored. Returns `NW_BUSY` if another
/// thread has the lock, `NW_ENDED` if the run of the session has ended, and `NW_NO_MEMORY` also after 2^64 - 1 runs.
#[unsafe(no_mangle)]
pub extern "C" fn nw_session_restart(
    alloc: Global,
    session: &mut SessionHandle,
    answer: &mut AnswerHandle,
) -> i32
    ensures restarted { result ≡ pos 0
        → IsRunEnded accepts session.old.value session.new.value answer.new.value }
    ensures unchanged { (result ≡ pos 0 → ⊥) → (result ≡ ENDED → ⊥) → IsUnchanged session.old session.new }
    ensures ended { result ≡ ENDED → KnowsEnd session.old.value session.new.value }
    ensures answer { (result ≡ pos 0 → ⊥) → IsUnchanged answer.old answer.new }
    ensures stays { session.new.held ≡ session.old.held }
    ensures answer_stays { answer.new.held ≡ answer.old.held }
    ensures code { IsFirstUnmet
        ((CLOSED, (session.old.held ≡ true) × (answer.old.held ≡ true)) ∷ (OTHER_KIND, HoldsSession session.old.value × HoldsRoom answer.old.value) ∷ [])
        look_codes result }
{
    let code = code_of_room(session, answer);
    if code != DONE {
        return code;
    }
    let Content::Session(held) = session.lend() else {
        return OTHER_KIND;
    };
    match held.restart(alloc) {
        Ok(last) => {
            *answer.lend() = Content::History(last);
            DONE
        }
        Err(why) => code_of_refusal(why),
    }
}

/// Takes the session into the present run, with its number and no calls. If it is of the present run, it only looks at the history. This is
/// not a call.
/// Returns `NW_BUSY` if another thread has the lock.
#[unsafe(no_mangle)]
pub extern "C" fn nw_session_renew(session: &mut SessionHandle) -> i32
    ensures renewed { result ≡ pos 0 → IsOfPresentRun accepts session.old.value session.new.value }
    ensures unchanged { (result ≡ pos 0 → ⊥) → IsUnchanged session.old session.new }
    ensures stays { session.new.held ≡ session.old.held }
    ensures code { IsFirstUnmet
        ((CLOSED, session.old.held ≡ true) ∷ (OTHER_KIND, HoldsSession session.old.value) ∷ [])
        (DONE ∷ BUSY ∷ []) result }
{
    if !session.is_open() {
        return CLOSED;
    }
    match session.lend() {
        Content::Session(held) => match held.renew() {
            Ok(()) => DONE,
            Err(why) => code_of_refusal(why),
        },
        _ => OTHER_KIND,
    }
}
