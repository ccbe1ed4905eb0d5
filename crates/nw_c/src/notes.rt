//! Notes: what one session knows, for another one.
ghost use Rattle.std.specs.Prelude.{◌≡◌, ◌∷◌, [], pos, true};
ghost use Rattle.nw_ed25519.specs.Accepts.{accepts};
ghost use Rattle.nw_c.specs.Events.{front_in};
ghost use Rattle.nw_c.specs.Kinds.{HasHistory, HoldsRoom, HoldsSession, IsUnchanged};
ghost use Rattle.nw_c.specs.Sessions.{BeginsWith, IsNoteOf, KnowsEnd, Sees};
ghost use Rattle.nw_c.specs.Codes.{IsFirstUnmet, look_codes};
ghost use Rattle.nw_c.specs.declared.codes.TheConstants.{CLOSED, ENDED, OTHER_HISTORY, OTHER_KIND};

use crate::codes::{CLOSED, DONE, OTHER_HISTORY, OTHER_KIND};
use crate::content::{Content, code_of_room};
use crate::events::front_of;
use crate::handle::{AnswerHandle, SessionHandle};
use crate::stores::code_of_refusal;

/// Replaces the content of `answer` with a note: the history of the session's run as it is now. This is not a call. A session of the same run
/// that hears the note knows all that this session knows. Returns `NW_BUSY` if another thread has the lock, and `NW_ENDED` if the run of the
/// session has ended.
#[unsafe(no_mangle)]
pub extern "C" fn nw_session_note(session: &mut SessionHandle, answer: &mut AnswerHandle) -> i32
    ensures note { result ≡ pos 0 → IsNoteOf accepts session.old.value session.new.value answer.new.value }
    ensures unchanged { (result ≡ pos 0 → ⊥) → (result ≡ ENDED → ⊥) → IsUnchanged session.old session.new }
    ensures ended { result ≡ ENDED → KnowsEnd session.old.value session.new.value }
    ensures answer { (result ≡ pos 0 → ⊥) → IsUnchanged answer.old answer.new }
    ensures stays { session.new.held ≡ session.old.held }
    ensures answer_stays { answer.new.held ≡ answer.old.held }
    ensures code { IsFirstUnmet
        ((CLOSED, (session.old.held ≡ true) × (answer.old.held ≡ true)) ∷ (OTHER_KIND, HoldsSession session.old.value × HoldsRoom answer.old.value) ∷ [])
        look_codes result }
{
    let code = code_of_room(session, answer);
    if code != DONE {
        return code;
    }
    let Content::Session(held) = session.lend() else {
        return OTHER_KIND;
    };
    match held.history() {
        Ok((history, _)) => {
            *answer.lend() = Content::History(history);
            DONE
        }
        Err(why) => code_of_refusal(why),
    }
}

/// Hears a note of another session of the same run, or an answer or ticket of it. From then on, its history is a prefix of the history of
/// every answer of this session in this run. This is not a call. Returns `NW_BUSY` if another thread has the lock, `NW_ENDED` if the run of
/// the session has ended, and `NW_OTHER_HISTORY` if the note is no prefix of the run's history, for instance because it is of another store
/// or run. A note of another store is heard too if its history is such a prefix. The time grows with the number of events of the note and
/// with the state that its history started from.
#[unsafe(no_mangle)]
pub extern "C" fn nw_session_hear(session: &mut SessionHandle, note: &mut AnswerHandle) -> i32
    ensures heard { result ≡ pos 0
        → Sees accepts session.old.value session.new.value (BeginsWith (front_in note.old.value)) }
    ensures other { result ≡ OTHER_HISTORY
        → Sees accepts session.old.value session.new.value (λ h. BeginsWith (front_in note.old.value) h → ⊥) }
    ensures unchanged { (result ≡ pos 0 → ⊥) → (result ≡ OTHER_HISTORY → ⊥) → (result ≡ ENDED → ⊥) → IsUnchanged session.old session.new }
    ensures ended { result ≡ ENDED → KnowsEnd session.old.value session.new.value }
    ensures same { IsUnchanged note.old note.new }
    ensures stays { session.new.held ≡ session.old.held }
    ensures code { IsFirstUnmet
        ((CLOSED, (session.old.held ≡ true) × (note.old.held ≡ true)) ∷ (OTHER_KIND, HoldsSession session.old.value × HasHistory note.old.value) ∷ [])
        (OTHER_HISTORY ∷ look_codes) result }
{
    if !session.is_open() || !note.is_open() {
        return CLOSED;
    }
    let Some(note) = front_of(note.lend()) else {
        return OTHER_KIND;
    };
    let Content::Session(held) = session.lend() else {
        return OTHER_KIND;
    };
    match held.hear(note) {
        Ok(true) => DONE,
        Ok(false) => OTHER_HISTORY,
        Err(why) => code_of_refusal(why),
    }
}
