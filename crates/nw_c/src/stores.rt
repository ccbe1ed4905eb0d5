//! Stores that threads share: making and sharing them, what they were made with, and making sessions.
ghost use Rattle.std.specs.Prelude.{◌≡◌, ◌∷◌, [], pos, true, false};
ghost use Rattle.nw_history.specs.Limits.{AreInRange};
ghost use Rattle.nw_book.specs.declared.error.NoStep.TheVariants as NoStep;
ghost use Rattle.nw_ed25519.specs.Accepts.{accepts};
ghost use Rattle.nw_shared_store.specs.Session.{IsPassing, IsUnavailable, IsUnseen};
ghost use Rattle.nw_shared_store.specs.declared.error.Refusal.{Refusal};
ghost use Rattle.nw_c.specs.Kinds.{HoldsCommittee, HoldsStore, IsUnchanged};
ghost use Rattle.nw_c.specs.Stores.{HasLimits, IsEmptyStore, IsShared, IsUnder, MakesNoSession, MakesSession, limits_in, refusal_code};
ghost use Rattle.nw_c.specs.Codes.{IsFirstUnmet, IsOneOf, call_codes, look_codes};
ghost use Rattle.nw_c.specs.declared.codes.TheConstants.{BAD_LIMITS, BUSY, CLOSED, DONE, ENDED, NO_MEMORY, OPEN, OTHER_KIND, TOO_MANY_SESSIONS};

use crate::codes::{
    BAD_LIMITS, BUSY, CLOSED, DONE, ENDED, NO_MEMORY, OPEN, OTHER_KIND, TOO_MANY_SESSIONS,
    code_of_step,
};
use crate::committees::put_prepared;
use crate::content::Content;
use crate::handle::{CommitteeHandle, SessionHandle, StoreHandle, open, put, room};
use nw_book::{BookError, Limits};
use nw_ed25519::Ed25519;
use nw_shared_store::{Refusal, SharedStore};
use std::alloc::Global;

/// The limits of a store. `blocks` limits the stored blocks, and separately the certificates: 1 to 65,536. `events` limits the events of the
/// history of a run: 1 to 65,536. `window` is the number of rounds that the store accepts, from the garbage round on: 1 to 4,096. `sessions`
/// limits the sessions, which are numbered from 0: 1 to 256.
#[repr(C)]
#[derive(Clone, Copy)]
pub struct CLimits {
    pub blocks: u32,
    pub events: u32,
    pub window: u32,
    pub sessions: u32,
}

impl CLimits {
    /// The limits as values of `nw_book`.
    pub fn get(&self) -> Limits
        ensures { result ≡ limits_in self.now }
    {
        Limits {
            blocks: self.blocks,
            events: self.events,
            window: self.window,
            sessions: self.sessions,
        }
    }
}

/// The code of a refusal.
pub(crate) fn code_of_refusal(why: Refusal) -> i32
    ensures code { result ≡ refusal_code why }
    ensures passing { IsPassing why → IsOneOf (BUSY ∷ NO_MEMORY ∷ []) result }
    ensures unavailable { IsUnavailable why → IsOneOf (BUSY ∷ ENDED ∷ []) result }
    ensures unseen { IsUnseen why → IsOneOf look_codes result }
    ensures of_call { (why ≡ Refusal.TooMany → ⊥) → (why ≡ Refusal.NoStep NoStep.OutOfTurn → ⊥) → IsOneOf call_codes result }
{
    match why {
        Refusal::Busy => BUSY,
        Refusal::Ended => ENDED,
        Refusal::TooMany => TOO_MANY_SESSIONS,
        Refusal::NoStep(why) => code_of_step(why),
    }
}

/// Makes a store under the committee and the limits. Its first run, run 0, has an empty history. Threads may call it at the same time without
/// a lock of their own: each through a handle of its own, see `nw_store_share`, and sessions of its own. Returns `NW_BAD_LIMITS` if a limit is
/// out of range.
#[unsafe(no_mangle)]
pub extern "C" fn nw_store_new(
    alloc: Global,
    committee: &mut CommitteeHandle,
    limits: &CLimits,
    out: &mut StoreHandle,
) -> i32
    ensures made { result ≡ pos 0 → IsEmptyStore committee.old.value limits.now out.new.value }
    ensures same { IsUnchanged committee.old committee.new }
    ensures unchanged { (result ≡ pos 0 → ⊥) → IsUnchanged out.old out.new }
    ensures opened { result ≡ pos 0 → out.new.held ≡ true }
    ensures bad_limits { result ≡ BAD_LIMITS → AreInRange (limits_in limits.now) → ⊥ }
    ensures code { IsFirstUnmet
        ((CLOSED, committee.old.held ≡ true) ∷ (OPEN, out.old.held ≡ false) ∷ (OTHER_KIND, HoldsCommittee committee.old.value) ∷ [])
        (DONE ∷ NO_MEMORY ∷ BAD_LIMITS ∷ []) result }
{
    if !committee.is_open() {
        return CLOSED;
    }
    if out.is_open() {
        return OPEN;
    }
    let Content::Committee(members) = committee.lend() else {
        return OTHER_KIND;
    };
    let Ok(members) = members.get().committee().try_clone() else {
        return NO_MEMORY;
    };
    match SharedStore::<Ed25519>::new(alloc, members, limits.get()) {
        Ok(store) => put(alloc, out, Content::Store(store)),
        Err(BookError::BadLimits) => BAD_LIMITS,
        Err(BookError::NoMemory) => NO_MEMORY,
    }
}

/// Opens one more handle of the store, for another thread. The store lives until its last handle and its last session are freed.
#[unsafe(no_mangle)]
pub extern "C" fn nw_store_share(
    alloc: Global,
    store: &mut StoreHandle,
    out: &mut StoreHandle,
) -> i32
    ensures shared { result ≡ pos 0 → IsShared store.old.value store.new.value out.new.value }
    ensures store { (result ≡ pos 0 → ⊥) → IsUnchanged store.old store.new }
    ensures unchanged { (result ≡ pos 0 → ⊥) → IsUnchanged out.old out.new }
    ensures stays { store.new.held ≡ store.old.held }
    ensures opened { result ≡ pos 0 → out.new.held ≡ true }
    ensures code { IsFirstUnmet
        ((CLOSED, store.old.held ≡ true) ∷ (OPEN, out.old.held ≡ false) ∷ (OTHER_KIND, HoldsStore store.old.value) ∷ [])
        (DONE ∷ NO_MEMORY ∷ []) result }
{
    if !store.is_open() {
        return CLOSED;
    }
    if out.is_open() {
        return OPEN;
    }
    let Content::Store(held) = store.lend() else {
        return OTHER_KIND;
    };
    // The room comes first, because an owner that is made is counted.
    let Some(mut other) = room(alloc) else {
        return NO_MEMORY;
    };
    match held.share() {
        Ok(shared) => {
            *other = Content::Store(shared);
            open(out, other);
            DONE
        }
        Err(_) => NO_MEMORY,
    }
}

/// Makes a session of the present run, which has made no call. A store numbers its sessions from 0, in all runs together. Returns `NW_BUSY` if
/// another thread has the lock, and `NW_TOO_MANY_SESSIONS` at the limit on sessions.
#[unsafe(no_mangle)]
pub extern "C" fn nw_store_session(
    alloc: Global,
    store: &mut StoreHandle,
    out: &mut SessionHandle,
) -> i32
    ensures made { result ≡ pos 0
        → MakesSession accepts store.old.value store.new.value out.new.value }
    ensures refused { (why : Refusal) → result ≡ refusal_code why
        → MakesNoSession store.old.value store.new.value why }
    ensures store { (result ≡ pos 0 → ⊥) → (result ≡ TOO_MANY_SESSIONS → ⊥) → IsUnchanged store.old store.new }
    ensures stays { store.new.held ≡ store.old.held }
    ensures unchanged { (result ≡ pos 0 → ⊥) → IsUnchanged out.old out.new }
    ensures opened { result ≡ pos 0 → out.new.held ≡ true }
    ensures code { IsFirstUnmet
        ((CLOSED, store.old.held ≡ true) ∷ (OPEN, out.old.held ≡ false) ∷ (OTHER_KIND, HoldsStore store.old.value) ∷ [])
        (DONE ∷ BUSY ∷ TOO_MANY_SESSIONS ∷ NO_MEMORY ∷ []) result }
{
    if !store.is_open() {
        return CLOSED;
    }
    if out.is_open() {
        return OPEN;
    }
    let Content::Store(held) = store.lend() else {
        return OTHER_KIND;
    };
    // The room comes first, because a session that is made is counted.
    let Some(mut room) = room(alloc) else {
        return NO_MEMORY;
    };
    match held.session() {
        Ok(session) => {
            *room = Content::Session(session);
            open(out, room);
            DONE
        }
        Err(why) => code_of_refusal(why),
    }
}

/// Writes the limits that the store was made with. Returns `NW_BUSY` if another thread has the lock.
#[unsafe(no_mangle)]
pub extern "C" fn nw_store_limits(store: &mut StoreHandle, out: &mut CLimits) -> i32
    ensures limits { result ≡ pos 0 → HasLimits store.old.value out.new }
    ensures same { IsUnchanged store.old store.new }
    ensures unchanged { (result ≡ pos 0 → ⊥) → out.new ≡ out.old }
    ensures code { IsFirstUnmet
        ((CLOSED, store.old.held ≡ true) ∷ (OTHER_KIND, HoldsStore store.old.value) ∷ [])
        (DONE ∷ BUSY ∷ NO_MEMORY ∷ []) result }
{
    if !store.is_open() {
        return CLOSED;
    }
    let Content::Store(held) = store.lend() else {
        return OTHER_KIND;
    };
    match held.history() {
        Ok(history) => {
            let limits = history.limits();
            *out = CLimits {
                blocks: limits.blocks,
                events: limits.events,
                window: limits.window,
                sessions: limits.sessions,
            };
            DONE
        }
        Err(why) => code_of_refusal(why),
    }
}

/// Opens a handle of the store's committee. It prepares the keys again, which costs what it costs in `nw_committee_new`. Returns `NW_BUSY` if
/// another thread has the lock.
#[unsafe(no_mangle)]
pub extern "C" fn nw_store_committee(
    alloc: Global,
    store: &mut StoreHandle,
    out: &mut CommitteeHandle,
) -> i32
    ensures committee { result ≡ pos 0 → IsUnder store.old.value out.new.value }
    ensures same { IsUnchanged store.old store.new }
    ensures unchanged { (result ≡ pos 0 → ⊥) → IsUnchanged out.old out.new }
    ensures opened { result ≡ pos 0 → out.new.held ≡ true }
    ensures code { IsFirstUnmet
        ((CLOSED, store.old.held ≡ true) ∷ (OPEN, out.old.held ≡ false) ∷ (OTHER_KIND, HoldsStore store.old.value) ∷ [])
        (DONE ∷ BUSY ∷ NO_MEMORY ∷ []) result }
{
    if !store.is_open() {
        return CLOSED;
    }
    if out.is_open() {
        return OPEN;
    }
    let Content::Store(held) = store.lend() else {
        return OTHER_KIND;
    };
    let history = match held.history() {
        Ok(history) => history,
        Err(why) => return code_of_refusal(why),
    };
    match history.committee().try_clone() {
        Ok(committee) => put_prepared(alloc, out, committee),
        Err(_) => NO_MEMORY,
    }
}

/// Rebuilds the list of complete blocks that tickets share, without collected blocks. Later tickets share the new list, and earlier
/// tickets keep theirs. It changes nothing that a call can observe. Returns `NW_BUSY` if another thread has the lock.
#[unsafe(no_mangle)]
pub extern "C" fn nw_store_compact(alloc: Global, store: &mut StoreHandle) -> i32
    ensures same { IsUnchanged store.old store.new }
    ensures code { IsFirstUnmet
        ((CLOSED, store.old.held ≡ true) ∷ (OTHER_KIND, HoldsStore store.old.value) ∷ [])
        (DONE ∷ BUSY ∷ NO_MEMORY ∷ []) result }
{
    if !store.is_open() {
        return CLOSED;
    }
    match store.lend() {
        Content::Store(held) => match held.compact(alloc) {
            Ok(()) => DONE,
            Err(why) => code_of_refusal(why),
        },
        _ => OTHER_KIND,
    }
}
