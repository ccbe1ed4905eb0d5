//! The calls of a session that hand in neither a block nor a certificate.
ghost use Rattle.std.specs.Prelude.{◌≡◌, ◌^◌, ◌∷◌, ◌<◌, [], pos, None, true, IfErr, IfOk};
ghost use Rattle.nw_ed25519.specs.Accepts.{accepts};
ghost use Rattle.nw_model.specs.declared.call.Call.TheVariants as Call;
ghost use Rattle.nw_shared_store.specs.Session.{IsRefusedBy, IsSameSession};
ghost use Rattle.nw_shared_store.specs.declared.error.Refusal.{Refusal};
ghost use Rattle.nw_c.specs.Kinds.{HoldsRoom, HoldsSession, IsUnchanged};
ghost use Rattle.nw_c.specs.Plain.{digest_in};
ghost use Rattle.nw_c.specs.Sessions.{IsCalled, IsCausalRead, IsReadBy, IsRefusedTo};
ghost use Rattle.nw_c.specs.Stores.{refusal_code};
ghost use Rattle.nw_c.specs.Codes.{IsFirstUnmet, IsOneOf, call_codes, early_codes};
ghost use Rattle.nw_c.specs.declared.codes.TheConstants.{BAD_ROUND, CLOSED, OTHER_KIND};

use super::call;
use crate::codes::{BAD_ROUND, DONE, OTHER_KIND};
use crate::content::{Content, code_of_room};
use crate::handle::{AnswerHandle, Handle, SessionHandle};
use crate::plain::CDigest;
use crate::stores::code_of_refusal;
use nw_book::Command;
use nw_check::{CheckedBlock, CheckedCert};
use nw_digest::{Digest, Round};
use nw_ed25519::Ed25519;
use nw_shared_store::{Refusal, SharedSession};
use std::alloc::Global;

// What a command may borrow. The prover finds these types only in the function that makes a command, so each such function has a value of
// this type.
type Lent<'a> = (
    Option<&'a CheckedBlock<Ed25519>>,
    Option<&'a CheckedCert<Ed25519>>,
);

/// Asks for the certificate of the digest, as the session's next call.
#[unsafe(no_mangle)]
pub extern "C" fn nw_session_certificate(
    alloc: Global,
    session: &mut SessionHandle,
    digest: &CDigest,
    answer: &mut AnswerHandle,
) -> i32
    ensures called { result ≡ pos 0 → IsCalled accepts (Call.Certificate (digest_in digest.now))
        session.old.value session.new.value answer.new.value }
    ensures refused { (why : Refusal) → result ≡ refusal_code why
        → IsRefusedTo accepts session.old.value session.new.value None why }
    ensures unchanged { IsOneOf early_codes result → IsUnchanged session.old session.new }
    ensures answer { (result ≡ pos 0 → ⊥) → IsUnchanged answer.old answer.new }
    ensures stays { session.new.held ≡ session.old.held }
    ensures answer_stays { answer.new.held ≡ answer.old.held }
    ensures code { IsFirstUnmet
        ((CLOSED, (session.old.held ≡ true) × (answer.old.held ≡ true)) ∷ (OTHER_KIND, HoldsSession session.old.value × HoldsRoom answer.old.value) ∷ [])
        call_codes result }
{
    let _lent: Lent<'_> = (None, None);
    let command = Command::Certificate(digest.get());
    call(alloc, session, answer, &command)
}

/// Asks for the block of the digest, as the session's next call.
#[unsafe(no_mangle)]
pub extern "C" fn nw_session_read(
    alloc: Global,
    session: &mut SessionHandle,
    digest: &CDigest,
    answer: &mut AnswerHandle,
) -> i32
    ensures called { result ≡ pos 0 → IsCalled accepts (Call.Read (digest_in digest.now))
        session.old.value session.new.value answer.new.value }
    ensures refused { (why : Refusal) → result ≡ refusal_code why
        → IsRefusedTo accepts session.old.value session.new.value None why }
    ensures unchanged { IsOneOf early_codes result → IsUnchanged session.old session.new }
    ensures answer { (result ≡ pos 0 → ⊥) → IsUnchanged answer.old answer.new }
    ensures stays { session.new.held ≡ session.old.held }
    ensures answer_stays { answer.new.held ≡ answer.old.held }
    ensures code { IsFirstUnmet
        ((CLOSED, (session.old.held ≡ true) × (answer.old.held ≡ true)) ∷ (OTHER_KIND, HoldsSession session.old.value × HoldsRoom answer.old.value) ∷ [])
        call_codes result }
{
    let _lent: Lent<'_> = (None, None);
    let command = Command::Read(digest.get());
    call(alloc, session, answer, &command)
}

/// Raises the garbage round to this round and drops everything of lower rounds, as the session's next call. Returns `NW_BAD_ROUND` if the
/// round is not below 2^48.
#[unsafe(no_mangle)]
pub extern "C" fn nw_session_collect(
    alloc: Global,
    session: &mut SessionHandle,
    round: u64,
    answer: &mut AnswerHandle,
) -> i32
    ensures called { result ≡ pos 0 → IsCalled accepts (Call.Collect round)
        session.old.value session.new.value answer.new.value }
    ensures refused { (why : Refusal) → result ≡ refusal_code why
        → IsRefusedTo accepts session.old.value session.new.value None why }
    ensures unchanged { IsOneOf early_codes result → IsUnchanged session.old session.new }
    ensures answer { (result ≡ pos 0 → ⊥) → IsUnchanged answer.old answer.new }
    ensures stays { session.new.held ≡ session.old.held }
    ensures answer_stays { answer.new.held ≡ answer.old.held }
    ensures code { IsFirstUnmet
        ((CLOSED, (session.old.held ≡ true) × (answer.old.held ≡ true)) ∷ (OTHER_KIND, HoldsSession session.old.value × HoldsRoom answer.old.value) ∷ (BAD_ROUND, round < 2 ^ 48) ∷ [])
        call_codes result }
{
    let Some(round) = Round::new(round) else {
        return code_of_bad_round(session, answer);
    };
    let _lent: Lent<'_> = (None, None);
    let command = Command::Collect(round);
    call(alloc, session, answer, &command)
}

/// The code of a call with a round that is not below 2^48: `BAD_ROUND`, unless a handle is closed or of another kind.
fn code_of_bad_round(session: &mut Handle, answer: &mut Handle) -> i32
    ensures same { IsUnchanged session.old session.new }
    ensures answer { IsUnchanged answer.old answer.new }
    ensures code { IsFirstUnmet
        ((CLOSED, (session.old.held ≡ true) × (answer.old.held ≡ true)) ∷ (OTHER_KIND, HoldsSession session.old.value × HoldsRoom answer.old.value) ∷ [])
        (BAD_ROUND ∷ []) result }
{
    let code = code_of_room(session, answer);
    if code != DONE {
        return code;
    }
    match session.lend() {
        Content::Session(_) => BAD_ROUND,
        _ => OTHER_KIND,
    }
}

/// Asks for the first `most` missing parents, or for all if there are fewer, as the session's next call. They ascend by round, author and
/// digest.
#[unsafe(no_mangle)]
pub extern "C" fn nw_session_missing(
    alloc: Global,
    session: &mut SessionHandle,
    most: u16,
    answer: &mut AnswerHandle,
) -> i32
    ensures called { result ≡ pos 0 → IsCalled accepts (Call.Missing most)
        session.old.value session.new.value answer.new.value }
    ensures refused { (why : Refusal) → result ≡ refusal_code why
        → IsRefusedTo accepts session.old.value session.new.value None why }
    ensures unchanged { IsOneOf early_codes result → IsUnchanged session.old session.new }
    ensures answer { (result ≡ pos 0 → ⊥) → IsUnchanged answer.old answer.new }
    ensures stays { session.new.held ≡ session.old.held }
    ensures answer_stays { answer.new.held ≡ answer.old.held }
    ensures code { IsFirstUnmet
        ((CLOSED, (session.old.held ≡ true) × (answer.old.held ≡ true)) ∷ (OTHER_KIND, HoldsSession session.old.value × HoldsRoom answer.old.value) ∷ [])
        call_codes result }
{
    let _lent: Lent<'_> = (None, None);
    let command = Command::Missing(most);
    call(alloc, session, answer, &command)
}

/// Asks for the missing parents of the block of the digest, as the session's next call: those that it refers to, and that are not stored or
/// not certified. They ascend by author and digest. A block that is not above the garbage round has none.
#[unsafe(no_mangle)]
pub extern "C" fn nw_session_missing_of(
    alloc: Global,
    session: &mut SessionHandle,
    digest: &CDigest,
    answer: &mut AnswerHandle,
) -> i32
    ensures called { result ≡ pos 0 → IsCalled accepts (Call.MissingOf (digest_in digest.now))
        session.old.value session.new.value answer.new.value }
    ensures refused { (why : Refusal) → result ≡ refusal_code why
        → IsRefusedTo accepts session.old.value session.new.value None why }
    ensures unchanged { IsOneOf early_codes result → IsUnchanged session.old session.new }
    ensures answer { (result ≡ pos 0 → ⊥) → IsUnchanged answer.old answer.new }
    ensures stays { session.new.held ≡ session.old.held }
    ensures answer_stays { answer.new.held ≡ answer.old.held }
    ensures code { IsFirstUnmet
        ((CLOSED, (session.old.held ≡ true) × (answer.old.held ≡ true)) ∷ (OTHER_KIND, HoldsSession session.old.value × HoldsRoom answer.old.value) ∷ [])
        call_codes result }
{
    let _lent: Lent<'_> = (None, None);
    let command = Command::MissingOf(digest.get());
    call(alloc, session, answer, &command)
}

/// Asks for the counts of the store, as the session's next call.
#[unsafe(no_mangle)]
pub extern "C" fn nw_session_status(
    alloc: Global,
    session: &mut SessionHandle,
    answer: &mut AnswerHandle,
) -> i32
    ensures called { result ≡ pos 0 → IsCalled accepts Call.Status
        session.old.value session.new.value answer.new.value }
    ensures refused { (why : Refusal) → result ≡ refusal_code why
        → IsRefusedTo accepts session.old.value session.new.value None why }
    ensures unchanged { IsOneOf early_codes result → IsUnchanged session.old session.new }
    ensures answer { (result ≡ pos 0 → ⊥) → IsUnchanged answer.old answer.new }
    ensures stays { session.new.held ≡ session.old.held }
    ensures answer_stays { answer.new.held ≡ answer.old.held }
    ensures code { IsFirstUnmet
        ((CLOSED, (session.old.held ≡ true) × (answer.old.held ≡ true)) ∷ (OTHER_KIND, HoldsSession session.old.value × HoldsRoom answer.old.value) ∷ [])
        call_codes result }
{
    let _lent: Lent<'_> = (None, None);
    call(alloc, session, answer, &Command::Status)
}

/// Opens a causal read of the digest, as the session's next call. The answer is a ticket if the digest is complete: the block and its
/// ancestors, down to the garbage round, are stored and certified. Otherwise the reply of the answer says why there is no ticket. A ticket is
/// walked without the lock.
#[unsafe(no_mangle)]
pub extern "C" fn nw_session_open(
    alloc: Global,
    session: &mut SessionHandle,
    digest: &CDigest,
    answer: &mut AnswerHandle,
) -> i32
    ensures called { result ≡ pos 0 → IsCausalRead accepts (digest_in digest.now)
        session.old.value session.new.value answer.new.value }
    ensures refused { (why : Refusal) → result ≡ refusal_code why
        → IsRefusedTo accepts session.old.value session.new.value None why }
    ensures unchanged { IsOneOf early_codes result → IsUnchanged session.old session.new }
    ensures answer { (result ≡ pos 0 → ⊥) → IsUnchanged answer.old answer.new }
    ensures stays { session.new.held ≡ session.old.held }
    ensures answer_stays { answer.new.held ≡ answer.old.held }
    ensures code { IsFirstUnmet
        ((CLOSED, (session.old.held ≡ true) × (answer.old.held ≡ true)) ∷ (OTHER_KIND, HoldsSession session.old.value × HoldsRoom answer.old.value) ∷ [])
        call_codes result }
{
    let code = code_of_room(session, answer);
    if code != DONE {
        return code;
    }
    let Content::Session(held) = session.lend() else {
        return OTHER_KIND;
    };
    match read_causally(alloc, held, digest.get()) {
        Ok(content) => {
            *answer.lend() = content;
            DONE
        }
        Err(why) => code_of_refusal(why),
    }
}

/// Opens a causal read of the digest, as the session's next call. Returns the content of the answer.
fn read_causally(
    alloc: Global,
    session: &mut SharedSession<Ed25519>,
    digest: Digest,
) -> Result<Content, Refusal>
    ensures read { IfOk result (IsReadBy accepts digest session.old session.new) }
    ensures refused { IfErr result (IsRefusedBy accepts session.old session.new None) }
    ensures same { IsSameSession session.old session.new }
{
    match session.open_causal(alloc, digest) {
        Ok(Ok(ticket)) => Ok(Content::Ticket(ticket)),
        Ok(Err(done)) => Ok(Content::Answer(done)),
        Err(why) => Err(why),
    }
}
