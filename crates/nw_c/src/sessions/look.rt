//! Looks of a session at slots and rounds of its store.
ghost use Rattle.std.specs.Prelude.{◌≡◌, ◌^◌, ◌∷◌, ◌<◌, ◌≤◌, [], pos, true, is_some, length, map, take};
ghost use Rattle.nw_ed25519.specs.Accepts.{accepts};
ghost use Rattle.nw_c.specs.Kinds.{HoldsSession, IsUnchanged};
ghost use Rattle.nw_c.specs.Look.{HasLook, HasLooks, HasManyLooks, author_look_in, digest_if, look_in};
ghost use Rattle.nw_c.specs.Sessions.{KnowsEnd};
ghost use Rattle.nw_c.specs.Codes.{IsFirstUnmet, look_codes};
ghost use Rattle.nw_c.specs.declared.codes.TheConstants.{BAD_ROUND, BUSY, CLOSED, DONE, ENDED, OTHER_KIND, SMALL};

use crate::codes::{BAD_ROUND, CLOSED, DONE, OTHER_KIND, SMALL};
use crate::content::Content;
use crate::handle::SessionHandle;
use crate::plain::CDigest;
use crate::stores::code_of_refusal;
use nw_digest::{Digest, Round};
use nw_model::Look;
use std::alloc::Global;

/// What a store has in a slot, that is, for a round and an author: the garbage round, the newest round with a digest (the garbage round if
/// none is newer), the digest of the slot's first block, how many parents this block misses, and the certified digest. A digest that the slot
/// lacks is 0, and its flag is not set. `stands` is set if the block of the certified digest is stored, and `complete` if also all its
/// ancestors above the garbage round have their parents.
#[repr(C)]
#[derive(Clone, Copy)]
pub struct CLook {
    pub garbage_round: u64,
    pub newest_round: u64,
    pub missing: usize,
    pub first: CDigest,
    pub certified: CDigest,
    pub has_first: bool,
    pub has_certified: bool,
    pub stands: bool,
    pub complete: bool,
}

/// What a store has in the slot of this author.
#[repr(C)]
#[derive(Clone, Copy)]
pub struct CAuthorLook {
    pub author: u16,
    pub look: CLook,
}

impl CLook {
    /// The look as C sees it.
    fn of(look: &Look) -> CLook
        ensures { look_in result ≡ look.now }
    {
        CLook {
            garbage_round: look.floor.get(),
            newest_round: look.newest.get(),
            missing: look.missing,
            first: digest_or_zero(look.first),
            certified: digest_or_zero(look.certified),
            has_first: look.first.is_some(),
            has_certified: look.certified.is_some(),
            stands: look.stands,
            complete: look.complete,
        }
    }
}

impl CAuthorLook {
    /// The look and its author as C sees them.
    fn of(seen: &(u16, Look)) -> CAuthorLook
        ensures { author_look_in result ≡ seen.now }
    {
        CAuthorLook {
            author: seen.0,
            look: CLook::of(&seen.1),
        }
    }
}

/// The digest, or 32 bytes of 0 if there is none.
fn digest_or_zero(digest: Option<Digest>) -> CDigest
    ensures { digest_if (is_some digest) result ≡ digest }
{
    match digest {
        Some(digest) => CDigest::of(&digest),
        None => CDigest { bytes: [0; 32] },
    }
}

/// Writes what the store has in the slot of this round and author, after a history that has all calls that the session knows of. This is not
/// a call: it adds no event. A parent of a block of the next round, with this author and a digest, is stored and certified exactly when the
/// digest is the certified one and `stands` is set. An author who is not a member has an empty slot. Returns `NW_BAD_ROUND` if the round is not
/// below 2^48, `NW_BUSY` if another thread has the lock, and `NW_ENDED` if the run of the session has ended.
#[unsafe(no_mangle)]
pub extern "C" fn nw_session_look(
    session: &mut SessionHandle,
    round: u64,
    author: u16,
    out: &mut CLook,
) -> i32
    ensures look { result ≡ pos 0
        → HasLook accepts round author (look_in out.new) session.old.value session.new.value }
    ensures unchanged { (result ≡ pos 0 → ⊥) → (result ≡ ENDED → ⊥) → IsUnchanged session.old session.new }
    ensures ended { result ≡ ENDED → KnowsEnd session.old.value session.new.value }
    ensures out { (result ≡ pos 0 → ⊥) → out.new ≡ out.old }
    ensures stays { session.new.held ≡ session.old.held }
    ensures code { IsFirstUnmet
        ((CLOSED, session.old.held ≡ true) ∷ (OTHER_KIND, HoldsSession session.old.value) ∷ (BAD_ROUND, round < 2 ^ 48) ∷ [])
        (DONE ∷ BUSY ∷ ENDED ∷ []) result }
{
    if !session.is_open() {
        return CLOSED;
    }
    let Content::Session(held) = session.lend() else {
        return OTHER_KIND;
    };
    let Some(round) = Round::new(round) else {
        return BAD_ROUND;
    };
    match held.look(round, author) {
        Ok(look) => {
            *out = CLook::of(&look);
            DONE
        }
        Err(why) => code_of_refusal(why),
    }
}

/// Copies the looks. There must be room.
fn copy_all(found: &[(u16, Look)], looks: &mut [CAuthorLook])
    requires { length found.now ≤ length looks.old }
    ensures { map author_look_in (take (length found.now) looks.new) ≡ found.now }
{
    for (index, seen) in found.iter().enumerate() {
        looks[index] = CAuthorLook::of(seen);
    }
}

/// Writes the number of the looks to `needed`, and copies them to the start of the array if they fit. Returns `SMALL` if they do not.
fn hand_out(found: &[(u16, Look)], looks: &mut [CAuthorLook], needed: &mut usize) -> i32
    ensures copied { result ≡ pos 0 → map author_look_in (take needed.new looks.new) ≡ found.now }
    ensures unchanged { (result ≡ pos 0 → ⊥) → looks.new ≡ looks.old }
    ensures needed { needed.new ≡ length found.now }
    ensures code { IsFirstUnmet ((SMALL, needed.new ≤ length looks.old) ∷ []) (DONE ∷ []) result }
{
    let size = found.len();
    *needed = size;
    if size > looks.len() {
        return SMALL;
    }
    copy_all(found, looks);
    DONE
}

/// Writes what the store has in each slot of this round that has a first or a certified digest, ascending by author, after a history that has
/// all calls that the session knows of. Writes the number of these slots to `needed`; it is at most the number of members. Returns
/// `NW_BAD_ROUND` if the round is not below 2^48, `NW_BUSY` if another thread has the lock, `NW_ENDED` if the run of the session has ended,
/// and `NW_SMALL` if the array is smaller. It needs memory, even for an array of length 0. This is not a call: it adds no event.
#[unsafe(no_mangle)]
pub extern "C" fn nw_session_look_round(
    alloc: Global,
    session: &mut SessionHandle,
    round: u64,
    looks: &mut [CAuthorLook],
    needed: &mut usize,
) -> i32
    ensures looks { result ≡ pos 0
        → HasLooks accepts round (map author_look_in (take needed.new looks.new)) session.old.value session.new.value }
    ensures small { result ≡ SMALL → length looks.old < needed.new }
    ensures needed { result ≡ SMALL
        → HasManyLooks accepts round needed.new session.old.value session.new.value }
    ensures unchanged { (result ≡ pos 0 → ⊥) → (result ≡ SMALL → ⊥) → (result ≡ ENDED → ⊥) → IsUnchanged session.old session.new }
    ensures ended { result ≡ ENDED → KnowsEnd session.old.value session.new.value }
    ensures array { (result ≡ pos 0 → ⊥) → looks.new ≡ looks.old }
    ensures stays { session.new.held ≡ session.old.held }
    ensures fits { result ≡ pos 0 → needed.new ≤ length looks.old }
    ensures needed_stays { (result ≡ pos 0 → ⊥) → (result ≡ SMALL → ⊥) → needed.new ≡ needed.old }
    ensures code { IsFirstUnmet
        ((CLOSED, session.old.held ≡ true) ∷ (OTHER_KIND, HoldsSession session.old.value) ∷ (BAD_ROUND, round < 2 ^ 48) ∷ [])
        (SMALL ∷ look_codes) result }
{
    if !session.is_open() {
        return CLOSED;
    }
    let Content::Session(held) = session.lend() else {
        return OTHER_KIND;
    };
    let Some(round) = Round::new(round) else {
        return BAD_ROUND;
    };
    match held.look_round(alloc, round) {
        Ok(found) => hand_out(&found, looks, needed),
        Err(why) => code_of_refusal(why),
    }
}
