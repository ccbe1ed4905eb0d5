//! Sessions and their journals.
ghost use Rattle.std.specs.Prelude.{◌≡◌, ◌<◌, length};
ghost use Rattle.nw_history.specs.Limits.{most_sessions};

use crate::Home;
use crate::locked::Token;
use nw_book::Entry;
use nw_sig::Scheme;
use std::marker::Model;

/// One caller's sequence of calls: its id, and its journal of answers. Contracts see these, and the histories that the session
/// knows of.
///
/// A session knows of the front of each of its answers. After it hears a note, it also knows of all histories of the note.
///
/// It may be sent to another thread. `L` names its store.
#[derive(Drop)]
pub struct Session<S: Scheme, L: Home> {
    pub(crate) id: u16,
    pub(crate) journal: Vec<Entry<S>>,
    pub(crate) token: Token<S, L>,
}

impl<S: Scheme, L: Home> Model for Session<S, L> {
    ghost use Rattle.std.specs.Coded.{codes};
    ghost use Rattle.nw_model.specs.State.{coded_state};
    ghost use Rattle.nw_book.specs.Journal.{Journal};
    ghost use Rattle.nw_store.specs.Lock.{IsSession};

    ghost Value = { Journal };

    ghost coded = { Prim.hlevel (codes, coded_state) };

    ghost view = { λ s.
        record { id = s.id; answers = s.journal.items; known = s.token.known } };

    ghost invariant = { λ s. IsSession s.token.share.parts s.token.share.amount
        (record { id = s.id; answers = s.journal.items; known = s.token.known }) };
}

impl<S: Scheme, L: Home> Session<S, L> {
    /// The session's id. A store numbers its sessions from 0, in the order in which it makes them.
    pub fn id(&self) -> u16
        ensures id { result ≡ self.now.id }
        ensures below { result < most_sessions }
    {
        self.id
    }

    /// The number of answered calls of the session.
    pub fn calls(&self) -> usize
        ensures { result ≡ length self.now.answers }
    {
        self.journal.len()
    }
}
