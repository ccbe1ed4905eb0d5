//! The histories of answers and tickets, and their events.
ghost use Rattle.std.specs.Prelude.{◌≡◌, ◌∷◌, [], pos, true, IfSome};
ghost use Rattle.std.specs.Option.{option_copied};
ghost use Rattle.nw_c.specs.Events.{ComparesHistories, HasEventAt, HasLength, HasNoEventAt, EncodesCall, EncodesEvent, front_in};
ghost use Rattle.nw_c.specs.Kinds.{HasHistory, IsUnchanged};
ghost use Rattle.nw_c.specs.Codes.{IsFirstUnmet};
ghost use Rattle.nw_c.specs.declared.codes.TheConstants.{ABSENT, CLOSED, DONE, OTHER_KIND};

use crate::codes::{ABSENT, CLOSED, DONE, OTHER_KIND};
use crate::content::Content;
use crate::handle::AnswerHandle;
use crate::plain::{CTagged, named, numbered, plain};
use crate::replies::reply_told;
use nw_ed25519::Ed25519;
use nw_history::Front;
use nw_model::{Call, Event};

/// A write of the block of `digest`.
pub(crate) const CALL_WRITE: i32 = 301;
/// A certificate handed in for `digest`.
pub(crate) const CALL_CERTIFY: i32 = 302;
/// A call for the certificate of `digest`.
pub(crate) const CALL_CERTIFICATE: i32 = 303;
/// A read of `digest`.
pub(crate) const CALL_READ: i32 = 304;
/// A causal read of `digest`.
pub(crate) const CALL_CAUSAL: i32 = 305;
/// A collection of the rounds below `number`.
pub(crate) const CALL_COLLECT: i32 = 306;
/// A call for the first `number` missing parents.
pub(crate) const CALL_MISSING: i32 = 307;
/// A call for the status.
pub(crate) const CALL_STATUS: i32 = 308;
/// A call for the missing parents of the block of `digest`.
pub(crate) const CALL_MISSING_OF: i32 = 309;

/// An event of a history: the session, the number of the session's call, counted from 1, the call, and its reply.
#[repr(C)]
#[derive(Clone, Copy)]
pub struct CEvent {
    pub session: u16,
    pub number: u32,
    pub call: CTagged,
    pub reply: CTagged,
}

/// The call as C sees it.
fn call_told(call: &Call) -> CTagged
    ensures { EncodesCall call.now result }
{
    match call {
        Call::Write(digest, _) => named(CALL_WRITE, digest),
        Call::Certify(certificate) => named(CALL_CERTIFY, &certificate.get().digest),
        Call::Certificate(digest) => named(CALL_CERTIFICATE, digest),
        Call::Read(digest) => named(CALL_READ, digest),
        Call::Causal(digest) => named(CALL_CAUSAL, digest),
        Call::Collect(round) => numbered(CALL_COLLECT, round.get()),
        Call::Missing(most) => numbered(CALL_MISSING, u64::from(*most)),
        Call::MissingOf(digest) => named(CALL_MISSING_OF, digest),
        Call::Status => plain(CALL_STATUS),
        Call::AskWrite(subject) => named(CALL_WRITE, &subject.digest),
        Call::AskCertify(subject) => named(CALL_CERTIFY, &subject.digest),
    }
}

/// The event as C sees it.
fn event_told(event: &Event) -> CEvent
    ensures { EncodesEvent event.now result }
{
    CEvent {
        session: event.session,
        number: event.number,
        call: call_told(&event.call),
        reply: reply_told(&event.reply),
    }
}

/// The history of an answer or a ticket, or the history itself. `None` for any other content.
pub(crate) fn front_of(content: &Content) -> Option<&Front<Ed25519>>
    ensures front { option_copied result ≡ front_in content.now }
    ensures held { IfSome result (λ _. HasHistory content.now) }
{
    match content {
        Content::Answer(done) => Some(done.front()),
        Content::Ticket(ticket) => Some(ticket.front()),
        Content::History(front) => Some(front),
        _ => None,
    }
}

/// Writes the number of events in the history, or in the history of the answer or ticket. The last event of an answer or ticket is its own
/// call.
#[unsafe(no_mangle)]
pub extern "C" fn nw_answer_events(answer: &mut AnswerHandle, out: &mut usize) -> i32
    ensures events { result ≡ pos 0 → HasLength (front_in answer.old.value) out.new }
    ensures same { IsUnchanged answer.old answer.new }
    ensures unchanged { (result ≡ pos 0 → ⊥) → out.new ≡ out.old }
    ensures code { IsFirstUnmet
        ((CLOSED, answer.old.held ≡ true) ∷ (OTHER_KIND, HasHistory answer.old.value) ∷ [])
        (DONE ∷ []) result }
{
    if !answer.is_open() {
        return CLOSED;
    }
    match front_of(answer.lend()) {
        Some(front) => {
            *out = front.len();
            DONE
        }
        None => OTHER_KIND,
    }
}

/// Writes the event at the index, counted from 0, of the history, or of the history of the answer or ticket. Returns `NW_ABSENT` if there is
/// no such event.
#[unsafe(no_mangle)]
pub extern "C" fn nw_answer_event(answer: &mut AnswerHandle, index: usize, out: &mut CEvent) -> i32
    ensures event { result ≡ pos 0 → HasEventAt (front_in answer.old.value) index out.new }
    ensures same { IsUnchanged answer.old answer.new }
    ensures absent { result ≡ ABSENT → HasNoEventAt (front_in answer.old.value) index }
    ensures unchanged { (result ≡ pos 0 → ⊥) → out.new ≡ out.old }
    ensures code { IsFirstUnmet
        ((CLOSED, answer.old.held ≡ true) ∷ (OTHER_KIND, HasHistory answer.old.value) ∷ [])
        (DONE ∷ ABSENT ∷ []) result }
{
    if !answer.is_open() {
        return CLOSED;
    }
    let Some(front) = front_of(answer.lend()) else {
        return OTHER_KIND;
    };
    match front.event(index) {
        Some(event) => {
            *out = event_told(event);
            DONE
        }
        None => ABSENT,
    }
}

/// Writes whether the history of `answer` is a prefix of the history of `other`. It is if both have the same committee, limits and base, and the
/// first events of `other` are the events of `answer`. Of a write or certificate that changed nothing, except after `NW_CLASH`, an event has
/// only the subject, so its votes are not compared. The time grows with the number of these events and with the base. Both handles may be
/// answers, tickets or histories.
#[unsafe(no_mangle)]
pub extern "C" fn nw_answer_is_prefix(
    answer: &mut AnswerHandle,
    other: &mut AnswerHandle,
    out: &mut bool,
) -> i32
    ensures prefix { result ≡ pos 0 → ComparesHistories (front_in answer.old.value) (front_in other.old.value) out.new }
    ensures same { IsUnchanged answer.old answer.new }
    ensures other { IsUnchanged other.old other.new }
    ensures unchanged { (result ≡ pos 0 → ⊥) → out.new ≡ out.old }
    ensures code { IsFirstUnmet
        ((CLOSED, (answer.old.held ≡ true) × (other.old.held ≡ true)) ∷ (OTHER_KIND, HasHistory answer.old.value × HasHistory other.old.value) ∷ [])
        (DONE ∷ []) result }
{
    if !answer.is_open() || !other.is_open() {
        return CLOSED;
    }
    let Some(front) = front_of(answer.lend()) else {
        return OTHER_KIND;
    };
    let Some(other) = front_of(other.lend()) else {
        return OTHER_KIND;
    };
    *out = front.is_prefix_of(other);
    DONE
}
