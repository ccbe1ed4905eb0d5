//! The store. Each method takes the lock, does its work, and releases the lock.
ghost use Rattle.std.specs.Prelude.{◌≡◌, ◌↔◌, ◌<◌, [], Some, None, IsOk, IfOk, IfErr, OnOk, OnErr};
ghost use Rattle.std.specs.Result.{IsErrOf};
ghost use Rattle.nw_model.specs.Checks.{digest_of};
ghost use Rattle.nw_history.specs.Limits.{AreInRange, most_sessions};
ghost use Rattle.nw_history.specs.Story.{first_origin};
ghost use Rattle.nw_book.specs.Answer.{IsTicketFor, front_of, reply_of};
ghost use Rattle.nw_book.specs.Command.{call_of, committee_of};
ghost use Rattle.nw_book.specs.Turn.{MatchesCommittee};
ghost use Rattle.nw_model.specs.declared.call.Call.TheVariants as Call;
ghost use Rattle.nw_book.specs.Journal.{KnowsAll, origin_of};
ghost use Rattle.nw_store.specs.Lock.{parts_of_a_ledger};
ghost use Rattle.nw_book.specs.Answered.{IsExplained, TakesNoStep};

use crate::calls::{call_locked, open_locked};
use crate::locked::{compact_locked, session_locked};
use crate::notes::{hear_locked, note_locked};
use crate::{Home, Locked, Note, Opening, Session, TooMany};
use nw_book::{Book, BookError, Command, Done, Limits, NoStep, Ticket};
use nw_check::{CheckedBlock, CheckedCert};
use nw_committee::Committee;
use nw_digest::{Digest, NoMemory, Round, Shared};
use nw_sig::Scheme;
use std::alloc::Global;
use std::sync::{Mutex, Wait};

/// A store that threads share: one lock around a book. `L` names it: its origin, and its log and ledger. Sessions of another
/// store have another type.
///
/// The answer to a call carries a legal history that has the store's origin and ends with the call. The fronts of the session's
/// earlier answers are prefixes of it.
///
/// A refused call does not change the session. For some history of the store, the error is the first of these that applies:
///
/// 1. `OutOfTurn`: the session's next call is out of turn.
/// 2. `OtherCommittee`: the block or certificate was checked under another committee.
/// 3. `HistoryFull`: the history has reached its limit of events.
/// 4. `NoMemory`: an allocation failed.
#[derive(Drop)]
pub struct Store<S: Scheme, L: Home> {
    pub(crate) locked: Mutex<Locked<S, L>>,
}

impl<S: Scheme, L: Home> Store<S, L> {
    /// A store with an empty history under the committee and limits, and no sessions.
    ///
    /// `BadLimits`: a limit is outside its range. `NoMemory`: the limits are in their ranges, but an allocation failed.
    pub fn new(
        alloc: Global,
        opening: Opening<S>,
        committee: Shared<Committee>,
        limits: Limits,
    ) -> Result<Store<S, L>, BookError>
        requires log { opening.log ≡ L.log }
        requires ledger { (opening.ledger ≡ L.name) × (L.parts ≡ parts_of_a_ledger) }
        requires origin { first_origin committee limits ≡ L.origin }
        ensures bad_limits { IsErrOf result BookError.BadLimits ↔ (AreInRange limits → ⊥) }
        ensures no_memory { IsErrOf result BookError.NoMemory → AreInRange limits }
    {
        let book = Book::new(alloc, committee, limits)?;
        Ok(Store {
            locked: Mutex::new(Locked::over(opening, book)),
        })
    }

    /// A store over the book, without sessions. If the book's history is not empty, the error returns the book. Allocates nothing.
    pub fn over(opening: Opening<S>, book: Book<S>) -> Result<Store<S, L>, Book<S>>
        requires log { opening.log ≡ L.log }
        requires ledger { (opening.ledger ≡ L.name) × (L.parts ≡ parts_of_a_ledger) }
        requires origin { origin_of book ≡ L.origin }
        ensures taken { IsOk result ↔ (book.events ≡ []) }
        ensures back { IfErr result (λ refused. refused ≡ book) }
    {
        if !book.history().is_empty() {
            drop(opening);
            return Err(book);
        }
        Ok(Store {
            locked: Mutex::new(Locked::over(opening, book)),
        })
    }

    /// Makes a new session.
    ///
    /// `TooMany`: the store has made as many sessions as its limit allows.
    pub fn session<R: Wait>(&self, rt: &R, alloc: Global) -> Result<Session<S, L>, TooMany>
        ensures { IfOk result (λ session. (session.answers ≡ []) × (session.id < most_sessions)) }
    {
        session_locked(&mut *self.locked.lock(rt), alloc)
    }

    /// Takes a note of all histories that the session knows of, for another session of this store. A note is not a call, and
    /// allocates nothing.
    pub fn note<R: Wait>(&self, rt: &R, session: &mut Session<S, L>) -> Note<S, L>
        ensures knows { KnowsAll result session.old.known }
        ensures session { session.new ≡ session.old }
    {
        note_locked(&mut *self.locked.lock(rt), session)
    }

    /// Lets the session hear the note. From then on the session knows of the note's histories: each is a prefix of the history of
    /// every later answer. Hearing is not a call, and allocates nothing.
    pub fn hear<R: Wait>(&self, rt: &R, session: &mut Session<S, L>, note: Note<S, L>)
        ensures heard { KnowsAll session.new.known note }
        ensures knew { KnowsAll session.new.known session.old.known }
        ensures id { session.new.id ≡ session.old.id }
        ensures answers { session.new.answers ≡ session.old.answers }
    {
        hear_locked(&mut *self.locked.lock(rt), session, note)
    }

    /// Makes the command's call as the session's next call. A refused command can be tried again.
    pub fn call<R: Wait>(
        &self,
        rt: &R,
        alloc: Global,
        session: &mut Session<S, L>,
        command: &Command<S>,
    ) -> Result<Done<S>, NoStep>
        ensures answered { IfOk result
            (λ done. IsExplained S.accepts L.origin session.old session.new
            (call_of command.now) done.event.reply done.front) }
        ensures own_committee { OnOk result (MatchesCommittee L.origin.committee (committee_of command.now)) }
        ensures no_step { IfErr result
            (TakesNoStep S.accepts L.origin session.old (committee_of command.now)) }
        ensures unchanged { OnErr result (session.new ≡ session.old) }
    {
        call_locked(&mut *self.locked.lock(rt), alloc, session, command)
    }

    /// Stores the block under its digest: a call of the session. A refused write can be tried again.
    pub fn write<R: Wait>(
        &self,
        rt: &R,
        alloc: Global,
        session: &mut Session<S, L>,
        block: &CheckedBlock<S>,
    ) -> Result<Done<S>, NoStep>
        ensures answered { IfOk result
            (λ done. IsExplained S.accepts L.origin session.old session.new
            (Call.Write (digest_of block.now.block) block.now.block) done.event.reply done.front) }
        ensures own_committee { OnOk result (block.now.committee ≡ L.origin.committee) }
        ensures no_step { IfErr result
            (TakesNoStep S.accepts L.origin session.old (Some block.now.committee)) }
        ensures unchanged { OnErr result (session.new ≡ session.old) }
    {
        self.call(rt, alloc, session, &Command::Write(block))
    }

    /// Keeps the certificate: a call of the session. A refused call can be tried again.
    pub fn certify<R: Wait>(
        &self,
        rt: &R,
        alloc: Global,
        session: &mut Session<S, L>,
        certificate: &CheckedCert<S>,
    ) -> Result<Done<S>, NoStep>
        ensures answered { IfOk result
            (λ done. IsExplained S.accepts L.origin session.old session.new
            (Call.Certify certificate.now.certificate) done.event.reply done.front) }
        ensures own_committee { OnOk result (certificate.now.committee ≡ L.origin.committee) }
        ensures no_step { IfErr result
            (TakesNoStep S.accepts L.origin session.old (Some certificate.now.committee)) }
        ensures unchanged { OnErr result (session.new ≡ session.old) }
    {
        self.call(rt, alloc, session, &Command::Certify(certificate))
    }

    /// Reads the certificate for the digest, if there is one: a call of the session.
    pub fn certificate<R: Wait>(
        &self,
        rt: &R,
        alloc: Global,
        session: &mut Session<S, L>,
        digest: Digest,
    ) -> Result<Done<S>, NoStep>
        ensures answered { IfOk result
            (λ done. IsExplained S.accepts L.origin session.old session.new
            (Call.Certificate digest) done.event.reply done.front) }
        ensures no_step { IfErr result (TakesNoStep S.accepts L.origin session.old None) }
        ensures unchanged { OnErr result (session.new ≡ session.old) }
    {
        self.call(rt, alloc, session, &Command::Certificate(digest))
    }

    /// Reads the block under the digest, if there is one: a call of the session.
    pub fn read<R: Wait>(
        &self,
        rt: &R,
        alloc: Global,
        session: &mut Session<S, L>,
        digest: Digest,
    ) -> Result<Done<S>, NoStep>
        ensures answered { IfOk result
            (λ done. IsExplained S.accepts L.origin session.old session.new
            (Call.Read digest) done.event.reply done.front) }
        ensures no_step { IfErr result (TakesNoStep S.accepts L.origin session.old None) }
        ensures unchanged { OnErr result (session.new ≡ session.old) }
    {
        self.call(rt, alloc, session, &Command::Read(digest))
    }

    /// Raises the garbage round to `round`, and drops all entries of lower rounds: a call of the session. Walks of earlier
    /// tickets do not change.
    pub fn collect<R: Wait>(
        &self,
        rt: &R,
        alloc: Global,
        session: &mut Session<S, L>,
        round: Round,
    ) -> Result<Done<S>, NoStep>
        ensures answered { IfOk result
            (λ done. IsExplained S.accepts L.origin session.old session.new
            (Call.Collect round) done.event.reply done.front) }
        ensures no_step { IfErr result (TakesNoStep S.accepts L.origin session.old None) }
        ensures unchanged { OnErr result (session.new ≡ session.old) }
    {
        self.call(rt, alloc, session, &Command::Collect(round))
    }

    /// Reads the first `most` wanted parents by round, author and digest, or all if there are fewer: a call of the session.
    pub fn missing<R: Wait>(
        &self,
        rt: &R,
        alloc: Global,
        session: &mut Session<S, L>,
        most: u16,
    ) -> Result<Done<S>, NoStep>
        ensures answered { IfOk result
            (λ done. IsExplained S.accepts L.origin session.old session.new
            (Call.Missing most) done.event.reply done.front) }
        ensures no_step { IfErr result (TakesNoStep S.accepts L.origin session.old None) }
        ensures unchanged { OnErr result (session.new ≡ session.old) }
    {
        self.call(rt, alloc, session, &Command::Missing(most))
    }

    /// Reads the missing parents of the block under the digest, by round, author and digest: a call of the session. The list is empty if all
    /// parents are stored and certified, or if the block is not above the garbage round.
    pub fn missing_of<R: Wait>(
        &self,
        rt: &R,
        alloc: Global,
        session: &mut Session<S, L>,
        digest: Digest,
    ) -> Result<Done<S>, NoStep>
        ensures answered { IfOk result
            (λ done. IsExplained S.accepts L.origin session.old session.new
            (Call.MissingOf digest) done.event.reply done.front) }
        ensures no_step { IfErr result (TakesNoStep S.accepts L.origin session.old None) }
        ensures unchanged { OnErr result (session.new ≡ session.old) }
    {
        self.call(rt, alloc, session, &Command::MissingOf(digest))
    }

    /// Reads the garbage round and the numbers of blocks, certificates, complete blocks and wanted parents: a call of the session.
    pub fn status<R: Wait>(
        &self,
        rt: &R,
        alloc: Global,
        session: &mut Session<S, L>,
    ) -> Result<Done<S>, NoStep>
        ensures answered { IfOk result
            (λ done. IsExplained S.accepts L.origin session.old session.new
            Call.Status done.event.reply done.front) }
        ensures no_step { IfErr result (TakesNoStep S.accepts L.origin session.old None) }
        ensures unchanged { OnErr result (session.new ≡ session.old) }
    {
        self.call(rt, alloc, session, &Command::Status)
    }

    /// Freezes all complete blocks as one generation, which later tickets share. Collected blocks are not part of it. This is not a call:
    /// no history, reply or earlier ticket changes, even on error. The cost grows with the number of complete blocks.
    ///
    /// `NoMemory`: an allocation failed.
    pub fn compact<R: Wait>(&self, rt: &R, alloc: Global) -> Result<(), NoMemory> {
        compact_locked(&mut *self.locked.lock(rt), alloc)
    }

    /// Opens a causal read of the digest: a call of the session. If the digest is complete, returns a ticket, which is walked later without
    /// the lock. Otherwise returns an answer that says why there is no list.
    pub fn open_causal<R: Wait>(
        &self,
        rt: &R,
        alloc: Global,
        session: &mut Session<S, L>,
        digest: Digest,
    ) -> Result<Result<Ticket<S>, Done<S>>, NoStep>
        ensures answered { IfOk result
            (λ answer. IsExplained S.accepts L.origin session.old session.new
            (Call.Causal digest) (reply_of answer) (front_of answer)) }
        ensures told { IfOk result (IsTicketFor digest) }
        ensures no_step { IfErr result (TakesNoStep S.accepts L.origin session.old None) }
        ensures unchanged { OnErr result (session.new ≡ session.old) }
    {
        open_locked(&mut *self.locked.lock(rt), alloc, session, digest)
    }
}
