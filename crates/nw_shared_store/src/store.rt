//! Shared stores.
ghost use Rattle.std.specs.Prelude.{◌≡◌, ◌↔◌, ◌+◌, [], IfOk, IfErr, OnOk, OnErr};
ghost use Rattle.std.specs.Result.{IsErrOf};
ghost use Rattle.nw_history.specs.Limits.{AreInRange};
ghost use Rattle.nw_history.specs.Story.{IsLegalStory, first_origin, story_of};
ghost use Rattle.nw_shared_store.specs.Session.{IsOfStore, IsOwnerAt, IsPassing, IsSessionAt, IsSessionOf, IsUnmade, new_owner, owner_at, with_owner, with_session};

use crate::lock::{
    cut_owner, cut_session, end_counting, end_enrolment, give_back, new_seat, try_take,
};
use crate::locked::Locked;
use crate::rule::{Lock, Seat};
use crate::work::{compact_at, enrol_at, history_at};
use crate::{Refusal, SharedSession};
use nw_book::{Book, BookError, Front, Limits};
use nw_committee::Committee;
use nw_digest::{NoMemory, Shared};
use nw_sig::Scheme;
use std::alloc::Global;
use std::marker::Model;
use std::mem;
use std::sync::Arc;

/// One owner of a store that threads share. Contracts see which store it is, the history with which the store began, and how many sessions and
/// owners were made through this owner. Only an owner's seat has the right to make these, so no other function makes a session.
///
/// No call waits: each makes one attempt to take the store's lock.
#[derive(Drop)]
pub struct SharedStore<S: Scheme> {
    lock: Arc<Lock<S>, Global>,
    seat: Seat<S>,
}

impl<S: Scheme> Model for SharedStore<S> {
    ghost use Rattle.std.specs.Coded.{codes};
    ghost use Rattle.nw_model.specs.State.{coded_state};
    ghost use Rattle.nw_shared_store.specs.Session.{IsOwnerAt, StoreView, owner_at};

    ghost Value = { StoreView };

    ghost coded = { Prim.hlevel (codes, coded_state) };

    ghost view = { λ s. owner_at s.lock.value.shared.table_id s.lock.value.shared.key s.seat.me };

    ghost invariant = { λ s. IsOwnerAt s.lock.value.shared.table_id s.lock.value.shared.key s.seat.table_id s.seat.me };
}

impl<S: Scheme> SharedStore<S> {
    /// A store with an empty history under the committee and limits, and no sessions.
    ///
    /// `BadLimits`: a limit is outside its range. `NoMemory`: the limits are in their ranges, but an allocation failed.
    pub fn new(
        alloc: Global,
        committee: Shared<Committee>,
        limits: Limits,
    ) -> Result<SharedStore<S>, BookError>
        ensures first { IfOk result (λ store. store.first ≡ story_of (first_origin committee limits) []) }
        ensures none_made { IfOk result (λ store. store ≡ new_owner store) }
        ensures bad_limits { IsErrOf result BookError.BadLimits ↔ (AreInRange limits → ⊥) }
        ensures no_memory { IsErrOf result BookError.NoMemory → AreInRange limits }
    {
        let book = Book::new(alloc, committee, limits)?;
        Ok(SharedStore::over(alloc, book)?)
    }

    /// A store over the book, whose history must be empty.
    fn over(alloc: Global, book: Book<S>) -> Result<SharedStore<S>, NoMemory>
        requires in_range { AreInRange book.limits }
        requires legal { IsLegalStory S.accepts book }
        requires empty { book.events ≡ [] }
        ensures first { IfOk result (λ store. store.first ≡ book) }
        ensures none_made { IfOk result (λ store. store ≡ new_owner store) }
    {
        let first = book.history().try_clone()?;
        let mut slots = Vec::with_capacity(alloc, 1)?;
        slots.push_reserved(Locked::over(book));
        match Lock::new(alloc, &[0], slots, &first) {
            Ok((table, seat)) => match Arc::new(alloc, table) {
                Ok(lock) => Ok(SharedStore { lock, seat }),
                Err(refused) => {
                    drop(refused);
                    Err(NoMemory)
                }
            },
            Err(refused) => {
                drop(refused);
                Err(NoMemory)
            }
        }
    }

    /// One more owner of the store, for another thread.
    ///
    /// `NoMemory`: a reference count is at its limit.
    pub fn share(&mut self) -> Result<SharedStore<S>, NoMemory>
        ensures shared { IfOk result (λ store. store ≡ new_owner self.old) }
        ensures counted { OnOk result (self.new ≡ with_owner self.old) }
        ensures unchanged { OnErr result (self.new ≡ self.old) }
    {
        let lock = Arc::try_clone(&self.lock)?;
        let seat = cut_owner(&lock, &mut self.seat);
        Ok(SharedStore { lock, seat })
    }

    /// Makes a new session, which has made no call. It makes one session, and if it is refused none.
    ///
    /// `Busy`: another thread has the lock. `TooMany`: the store has made as many sessions as its limit allows. `NoMemory`: a reference
    /// count is at its limit.
    pub fn session(&mut self) -> Result<SharedSession<S>, Refusal>
        ensures made { IfOk result (IsSessionOf S.accepts self.old) }
        ensures counted { IfOk result (λ session. self.new ≡ with_session self.old session.journal.id) }
        ensures refused { IfErr result (IsUnmade self.old self.new) }
    {
        let lock = Arc::try_clone(&self.lock)?;
        let (seat, run, id) = enrol(&lock, &mut self.seat)?;
        Ok(SharedSession {
            lock,
            seat,
            run,
            id,
        })
    }

    /// The history of the present run. It has the store's committee and limits. This is not a call. It compares and copies no events.
    ///
    /// `Busy`: another thread has the lock. `NoMemory`: a reference count is at its limit.
    pub fn history(&self) -> Result<Front<S>, Refusal>
        ensures of_store { IfOk result (IsOfStore S.accepts self.now) }
        ensures refused { IfErr result IsPassing }
    {
        let mut seat = new_seat(&self.lock);
        try_take(&self.lock, &mut seat)?;
        let found = history_at(&self.lock, &mut seat);
        give_back(&self.lock, &mut seat);
        let (history, _) = found?;
        Ok(history)
    }

    /// Freezes all complete blocks as one generation, which later tickets share. Collected blocks are not part of it. This is not a call:
    /// no history, reply or earlier ticket changes, even on error. The cost grows with the number of complete blocks.
    ///
    /// `Busy`: another thread has the lock. `NoMemory`: an allocation failed.
    pub fn compact(&self, alloc: Global) -> Result<(), Refusal>
        ensures { IfErr result IsPassing }
    {
        let mut seat = new_seat(&self.lock);
        try_take(&self.lock, &mut seat)?;
        let done = compact_at(&self.lock, &mut seat, alloc);
        give_back(&self.lock, &mut seat);
        Ok(done?)
    }
}

/// Makes a new session under the lock. Returns its seat, its run and its number. The owner's seat counts it.
fn enrol<S: Scheme>(lock: &Lock<S>, seat: &mut Seat<S>) -> Result<(Seat<S>, u64, u16), Refusal>
    requires owner { IsOwnerAt lock.now.shared.table_id lock.now.shared.key seat.old.table_id seat.old.me }
    ensures owner { IsOwnerAt lock.now.shared.table_id lock.now.shared.key seat.new.table_id seat.new.me }
    ensures session { IfOk result (λ made.
        IsSessionAt lock.now.shared.table_id made.1 made.2 made.0.table_id made.0.me) }
    ensures new { IfOk result (λ made.
        IsSessionOf S.accepts (owner_at lock.now.shared.table_id lock.now.shared.key seat.old.me)
        (record { lock = lock.now.shared.table_id; run = made.0.me.0.run; past = made.0.me.0.past; over = made.0.me.0.over; first = made.0.me.0.first; journal = made.0.me.0.journal })) }
    ensures counted { IfOk result (λ made.
        owner_at lock.now.shared.table_id lock.now.shared.key seat.new.me
        ≡ with_session (owner_at lock.now.shared.table_id lock.now.shared.key seat.old.me) made.2) }
    ensures refused { IfErr result (IsUnmade
        (owner_at lock.now.shared.table_id lock.now.shared.key seat.old.me)
        (owner_at lock.now.shared.table_id lock.now.shared.key seat.new.me)) }
{
    try_take(lock, seat)?;
    match enrol_at(lock, seat) {
        Some((run, id)) => {
            let owner = cut_session(lock, seat);
            end_enrolment(lock, seat);
            Ok((mem::replace(seat, owner), run, id))
        }
        None => {
            end_counting(lock, seat);
            Err(Refusal::TooMany)
        }
    }
}
