//! Sessions of stores: their numbers, and handing in blocks and certificates.
ghost use Rattle.std.specs.Prelude.{◌≡◌, ◌∷◌, [], pos, true};
ghost use Rattle.nw_ed25519.specs.Accepts.{accepts};
ghost use Rattle.nw_book.specs.Command.{call_of, committee_of};
ghost use Rattle.nw_shared_store.specs.declared.error.Refusal.{Refusal};
ghost use Rattle.nw_c.specs.Kinds.{CanBeHandedIn, HoldsRoom, HoldsSession, IsUnchanged};
ghost use Rattle.nw_c.specs.Sessions.{HasNumber, IsCalled, IsHandedInBy, IsRefusedTo, IsUnderOwn, committee_checked_under};
ghost use Rattle.nw_c.specs.Stores.{refusal_code};
ghost use Rattle.nw_c.specs.Codes.{IsFirstUnmet, IsOneOf, call_codes, early_codes};
ghost use Rattle.nw_c.specs.declared.codes.TheConstants.{CLOSED, DONE, OTHER_KIND};

use crate::codes::{CLOSED, DONE, OTHER_KIND};
use crate::content::{Content, code_of_room};
use crate::handle::{AnswerHandle, CheckedHandle, Handle, SessionHandle};
use crate::stores::code_of_refusal;
use nw_book::Command;
use nw_check::Checked;
use nw_ed25519::Ed25519;
use std::alloc::Global;

mod calls;
mod look;
mod runs;

/// Writes the session's number. A store numbers its sessions from 0, in the order in which it makes them.
#[unsafe(no_mangle)]
pub extern "C" fn nw_session_id(session: &mut SessionHandle, out: &mut u16) -> i32
    ensures id { result ≡ pos 0 → HasNumber session.old.value out.new }
    ensures same { IsUnchanged session.old session.new }
    ensures unchanged { (result ≡ pos 0 → ⊥) → out.new ≡ out.old }
    ensures code { IsFirstUnmet
        ((CLOSED, session.old.held ≡ true) ∷ (OTHER_KIND, HoldsSession session.old.value) ∷ [])
        (DONE ∷ []) result }
{
    if !session.is_open() {
        return CLOSED;
    }
    match session.lend() {
        Content::Session(held) => {
            *out = held.id();
            DONE
        }
        _ => OTHER_KIND,
    }
}

/// Makes the command's call as the session's next call and replaces the content of `answer` with the answer. It makes one attempt to take
/// the store's lock. Returns the code of a refusal.
pub(crate) fn call(
    alloc: Global,
    session: &mut Handle,
    answer: &mut Handle,
    command: &Command<Ed25519>,
) -> i32
    ensures called { result ≡ pos 0 → IsCalled accepts (call_of command.now)
        session.old.value session.new.value answer.new.value }
    ensures own_committee { result ≡ pos 0
        → IsUnderOwn session.old.value (committee_of command.now) }
    ensures refused { (why : Refusal) → result ≡ refusal_code why
        → IsRefusedTo accepts session.old.value session.new.value (committee_of command.now) why }
    ensures unchanged { IsOneOf early_codes result → IsUnchanged session.old session.new }
    ensures answer { (result ≡ pos 0 → ⊥) → IsUnchanged answer.old answer.new }
    ensures stays { session.new.held ≡ session.old.held }
    ensures answer_stays { answer.new.held ≡ answer.old.held }
    ensures code { IsFirstUnmet
        ((CLOSED, (session.old.held ≡ true) × (answer.old.held ≡ true)) ∷ (OTHER_KIND, HoldsSession session.old.value × HoldsRoom answer.old.value) ∷ [])
        call_codes result }
{
    let code = code_of_room(session, answer);
    if code != DONE {
        return code;
    }
    match session.lend() {
        Content::Session(held) => match held.call(alloc, command) {
            Ok(done) => {
                *answer.lend() = Content::Answer(done);
                DONE
            }
            Err(why) => code_of_refusal(why),
        },
        _ => OTHER_KIND,
    }
}

/// Writes the checked block, or certifies the digest of the checked certificate, as the session's next call. Returns `NW_BUSY` if another
/// thread has the lock: call again. Returns `NW_ENDED` if the run of the session has ended: renew the session. The handle of the checked text
/// stays open, and the text may be handed to other stores. Returns `NW_OTHER_KIND` if the text is neither a well-formed block nor a valid
/// certificate.
#[unsafe(no_mangle)]
pub extern "C" fn nw_session_hand_in(
    alloc: Global,
    session: &mut SessionHandle,
    checked: &mut CheckedHandle,
    answer: &mut AnswerHandle,
) -> i32
    ensures called { result ≡ pos 0 → IsHandedInBy accepts checked.old.value
        session.old.value session.new.value answer.new.value }
    ensures own_committee { result ≡ pos 0
        → IsUnderOwn session.old.value (committee_checked_under checked.old.value) }
    ensures refused { (why : Refusal) → result ≡ refusal_code why
        → IsRefusedTo accepts session.old.value session.new.value (committee_checked_under checked.old.value) why }
    ensures unchanged { IsOneOf early_codes result → IsUnchanged session.old session.new }
    ensures answer { (result ≡ pos 0 → ⊥) → IsUnchanged answer.old answer.new }
    ensures same { IsUnchanged checked.old checked.new }
    ensures stays { session.new.held ≡ session.old.held }
    ensures answer_stays { answer.new.held ≡ answer.old.held }
    ensures code { IsFirstUnmet
        ((CLOSED, (session.old.held ≡ true) × (checked.old.held ≡ true) × (answer.old.held ≡ true)) ∷ (OTHER_KIND, HoldsSession session.old.value × CanBeHandedIn checked.old.value × HoldsRoom answer.old.value) ∷ [])
        call_codes result }
{
    if !checked.is_open() {
        return CLOSED;
    }
    let content: &Content = checked.lend();
    match content {
        Content::Checked(Checked::Block(block)) => {
            let write = Command::Write(block);
            call(alloc, session, answer, &write)
        }
        Content::Checked(Checked::Cert(certificate)) => {
            let certify = Command::Certify(certificate);
            call(alloc, session, answer, &certify)
        }
        _ => code_of_other_kind(session, answer),
    }
}

/// The code of a call with a third handle of another kind: `CLOSED` if one of these two is closed, and otherwise `OTHER_KIND`.
fn code_of_other_kind(session: &mut Handle, answer: &mut Handle) -> i32
    ensures same { IsUnchanged session.old session.new }
    ensures answer { IsUnchanged answer.old answer.new }
    ensures code { IsFirstUnmet ((CLOSED, (session.old.held ≡ true) × (answer.old.held ≡ true)) ∷ []) (OTHER_KIND ∷ []) result }
{
    if session.is_open() && answer.is_open() {
        OTHER_KIND
    } else {
        CLOSED
    }
}
