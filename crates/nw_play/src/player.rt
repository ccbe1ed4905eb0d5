//! A store and its sessions, which make the calls of a script.
ghost use Rattle.std.specs.Prelude.{◌≡◌};
ghost use Rattle.nw_store.specs.Journal.{origin_of};
ghost use Rattle.nw_store.specs.Lock.{parts_of_a_ledger};

use crate::books::Start;
use nw_check::Checked;
use nw_digest::Round;
use nw_interpreter::{Bindings, LineFault, empty_line, hash, refused};
use nw_script::{Name, Request};
use nw_sig::DemoScheme;
use nw_store::{Command, Done, Home, NoStep, Opening, Session, Store};
use std::alloc::Global;
use std::fmt::Write;
use std::sync::Wait;

/// A store, its sessions by id, and the one that makes the next call.
#[derive(Drop)]
pub struct Player<L: Home> {
    pub store: Store<DemoScheme, L>,
    pub sessions: Vec<Session<DemoScheme, L>>,
    current: usize,
    /// Whether the next line may be a `limits` line.
    pub may_set_limits: bool,
}

impl<L: Home> Player<L> {
    /// A player without sessions, with a new store over `start.book`. `Bad` if the book's history is not empty.
    pub fn new(
        alloc: Global,
        opening: Opening<DemoScheme>,
        start: Start,
    ) -> Result<Player<L>, LineFault>
        requires log { opening.log ≡ L.log }
        requires ledger { (opening.ledger ≡ L.name) × (L.parts ≡ parts_of_a_ledger) }
        requires origin { origin_of start.book ≡ L.origin }
    {
        let Start {
            book,
            may_set_limits,
        } = start;
        match Store::over(opening, book) {
            Ok(store) => Ok(Player {
                store,
                sessions: Vec::new(alloc),
                current: 0,
                may_set_limits,
            }),
            Err(book) => {
                drop(book);
                Err(LineFault::Bad)
            }
        }
    }

    /// Plays the request and returns the line of its answer. `Bad` if it can't be played, `NoMemory` if an allocation fails.
    pub fn answer<'a, R: Wait>(
        &mut self,
        rt: &R,
        alloc: Global,
        bindings: &mut Bindings<'a>,
        request: &Request<'a>,
    ) -> Result<String, LineFault> {
        self.may_set_limits = false;
        let (name, command) = match request {
            Request::Block(line) => return bindings.block(alloc, line),
            Request::Body(name) => return bindings.body_in_hex(alloc, *name),
            Request::Digest(name) => return bindings.digest_in_hex(alloc, *name),
            Request::Hash(word) => return hash(alloc, word),
            Request::Valid { name, signers } => return bindings.valid(alloc, *name, signers),
            Request::Gather { name, signers } => return bindings.gather(alloc, *name, signers),
            Request::Walk(ticket) => return bindings.walk(alloc, *ticket),
            Request::Write { name, signer } => {
                return self.write(rt, alloc, bindings, *name, *signer);
            }
            Request::Certify { name, signers } => {
                return self.certify(rt, alloc, bindings, *name, signers);
            }
            Request::Look { round, author } => {
                return self.look(rt, alloc, bindings, *round, *author);
            }
            Request::LookRound(round) => return self.look_round(rt, alloc, bindings, *round),
            Request::Causal(name) => return self.open(rt, alloc, bindings, *name, *name, false),
            Request::Open { ticket, name } => {
                return self.open(rt, alloc, bindings, *ticket, *name, true);
            }
            Request::Session(id) => return self.select_session(rt, alloc, *id),
            Request::Compact => return self.compact(rt, alloc),
            Request::Certificate(name) => {
                let digest = bindings.digest_of(*name)?;
                (Some(*name), Command::Certificate(digest))
            }
            Request::Read(name) => (Some(*name), Command::Read(bindings.digest_of(*name)?)),
            Request::MissingOf(name) => {
                (Some(*name), Command::MissingOf(bindings.digest_of(*name)?))
            }
            Request::Collect(round) => (None, Command::Collect(*round)),
            Request::Missing(most) => (None, Command::Missing(*most)),
            Request::Status => (None, Command::Status),
        };
        self.call(rt, alloc, bindings, name, &command)
    }

    // Writes the named block after its message is encoded, decoded and checked. The given member signs it, or its author if none is given.
    fn write<'a, R: Wait>(
        &mut self,
        rt: &R,
        alloc: Global,
        bindings: &Bindings<'a>,
        name: Name<'a>,
        signer: Option<u16>,
    ) -> Result<String, LineFault> {
        let checked = bindings.checked_block(alloc, name, signer)?;
        self.hand_in(rt, alloc, bindings, name, checked)
    }

    // Certifies the named block, with the votes in the order of `signers`, after the message is encoded, decoded and checked.
    fn certify<'a, R: Wait>(
        &mut self,
        rt: &R,
        alloc: Global,
        bindings: &Bindings<'a>,
        name: Name<'a>,
        signers: &[u16],
    ) -> Result<String, LineFault> {
        match bindings.checked_certificate(alloc, name, signers)? {
            Some(checked) => self.hand_in(rt, alloc, bindings, name, checked),
            None => refused(alloc, name, "over limit"),
        }
    }

    // Hands in the checked block or certificate of the name, or answers with the rule that it breaks. `Bad` if the message was neither.
    fn hand_in<'a, R: Wait>(
        &mut self,
        rt: &R,
        alloc: Global,
        bindings: &Bindings<'a>,
        name: Name<'a>,
        checked: Checked<DemoScheme>,
    ) -> Result<String, LineFault> {
        match checked {
            Checked::Block(block) => {
                self.call(rt, alloc, bindings, Some(name), &Command::Write(&block))
            }
            Checked::Cert(certificate) => {
                let command = Command::Certify(&certificate);
                self.call(rt, alloc, bindings, Some(name), &command)
            }
            Checked::BadBlock(fault) => refused(alloc, name, fault),
            Checked::BadCert(fault) => refused(alloc, name, fault),
            Checked::Vote(_) | Checked::BadText(_) => Err(LineFault::Bad),
        }
    }

    // Makes the call as the current session's next call. The answer names the block if there is a name. `Bad` if there is no session.
    fn call<'a, R: Wait>(
        &mut self,
        rt: &R,
        alloc: Global,
        bindings: &Bindings<'a>,
        name: Option<Name<'a>>,
        command: &Command<DemoScheme>,
    ) -> Result<String, LineFault> {
        let session = self.sessions.get_mut(self.current).ok_or(LineFault::Bad)?;
        match self.store.call(rt, alloc, session, command) {
            Ok(done) => line_of(alloc, bindings, name, done),
            Err(refusal) => line_of_refusal(alloc, refusal),
        }
    }

    // Makes a causal read of the block `name` as the current session's next call, answered under `printed_as`. If the ticket is kept,
    // `printed_as` must not be bound to a ticket. `Bad` if it is, if `name` is not bound, or if there is no session.
    fn open<'a, R: Wait>(
        &mut self,
        rt: &R,
        alloc: Global,
        bindings: &mut Bindings<'a>,
        printed_as: Name<'a>,
        name: Name<'a>,
        is_kept: bool,
    ) -> Result<String, LineFault> {
        if is_kept && bindings.has_ticket(printed_as) {
            return Err(LineFault::Bad);
        }
        let digest = bindings.digest_of(name)?;
        let session = self.sessions.get_mut(self.current).ok_or(LineFault::Bad)?;
        match self.store.open_causal(rt, alloc, session, digest) {
            Ok(Ok(ticket)) => bindings.take_ticket(alloc, printed_as, ticket, is_kept),
            Ok(Err(done)) => line_of(alloc, bindings, Some(printed_as), done),
            Err(refusal) => line_of_refusal(alloc, refusal),
        }
    }

    // Looks at the slot.
    fn look<'a, R: Wait>(
        &self,
        rt: &R,
        alloc: Global,
        bindings: &Bindings<'a>,
        round: Round,
        author: u16,
    ) -> Result<String, LineFault> {
        let look = self.store.look(rt, round, author);
        bindings.lines_of_looks(alloc, round, &[(author, look)])
    }

    // Looks at the round.
    fn look_round<'a, R: Wait>(
        &self,
        rt: &R,
        alloc: Global,
        bindings: &Bindings<'a>,
        round: Round,
    ) -> Result<String, LineFault> {
        let looks = self.store.look_round(rt, alloc, round)?;
        bindings.lines_of_looks(alloc, round, &looks)
    }

    // Compacts the store.
    fn compact<'a, R: Wait>(&self, rt: &R, alloc: Global) -> Result<String, LineFault> {
        self.store.compact(rt, alloc)?;
        Ok(format!(in alloc; "compacted")?)
    }

    // Makes this session the current one. If its id is the next unused one, this makes a new session, unless the store has reached its
    // limit on sessions. `Bad` if the id is larger.
    fn select_session<'a, R: Wait>(
        &mut self,
        rt: &R,
        alloc: Global,
        id: u16,
    ) -> Result<String, LineFault> {
        let place = usize::from(id);
        if place > self.sessions.len() {
            return Err(LineFault::Bad);
        }
        if place == self.sessions.len() && !self.add_session(rt, alloc)? {
            return Ok(format!(in alloc; "refused too many")?);
        }
        self.current = place;
        let mut line = empty_line(alloc)?;
        write!(line, "session {id}")?;
        Ok(line)
    }

    /// Adds a session, and returns whether the store made one. The first one added is current at the start.
    pub fn add_session<R: Wait>(&mut self, rt: &R, alloc: Global) -> Result<bool, LineFault> {
        self.sessions.reserve(1)?;
        match self.store.session(rt, alloc) {
            Ok(session) => {
                self.sessions.push_reserved(session);
                Ok(true)
            }
            Err(_too_many) => Ok(false),
        }
    }
}

// The line for the reply of the call.
fn line_of<'a>(
    alloc: Global,
    bindings: &Bindings<'a>,
    name: Option<Name<'a>>,
    done: Done<DemoScheme>,
) -> Result<String, LineFault> {
    let line = bindings.line_of(alloc, name, done.reply());
    drop(done);
    line
}

// A full history is an answer, and any other refusal ends the play. `OutOfTurn` never comes: each session's id is below the limit, and each
// call has its session's next number. `OtherCommittee` never comes: every block and certificate was checked under the store's committee.
fn line_of_refusal(alloc: Global, refusal: NoStep) -> Result<String, LineFault> {
    match refusal {
        NoStep::HistoryFull => Ok(format!(in alloc; "refused history full")?),
        NoStep::NoMemory => Err(LineFault::NoMemory),
        NoStep::OutOfTurn | NoStep::OtherCommittee => Err(LineFault::Bad),
    }
}
