//! Notes: they carry what one session knows to another session.
ghost use Rattle.std.specs.Prelude.{◌≡◌};
ghost use Rattle.nw_book.specs.Journal.{KnowsAll};
ghost use Rattle.nw_store.specs.Laws.{NotesCarryOrder};

use crate::{Home, Locked, Session};
use nw_book::Front;
use nw_log::KnownPrefix;
use nw_sig::Scheme;
use std::marker::Model;

/// All histories that a session knew of when the note was taken, and perhaps more of the store's histories. Contracts see these
/// histories.
///
/// A note takes no bytes, and may be sent to another thread. `L` names its store. A note may be dropped without being heard.
#[derive(Drop)]
pub struct Note<S: Scheme, L: Home> {
    known: KnownPrefix<Front<S>, L>,
}

impl<S: Scheme, L: Home> Model for Note<S, L> {
    ghost use Rattle.std.specs.Prelude.{List};
    ghost use Rattle.std.specs.Coded.{codes};
    ghost use Rattle.nw_model.specs.State.{coded_state};
    ghost use Rattle.nw_history.specs.Story.{Story};

    ghost Value = { List Story };

    ghost coded = { Prim.hlevel (codes, coded_state) };

    ghost view = { λ n. n.known };
}

/// Takes a note of all histories that the session knows of, for a caller that holds the lock. It changes nothing and compares no
/// events.
pub fn note_locked<S: Scheme, L: Home>(
    locked: &mut Locked<S, L>,
    session: &mut Session<S, L>,
) -> Note<S, L>
    ensures knows { KnowsAll result session.old.known }
    ensures same { locked.new ≡ locked.old }
    ensures session { session.new ≡ session.old }
{
    locked.count.owner.check_in_place(&mut session.token.known);
    Note {
        known: locked.count.owner.known(),
    }
}

/// Lets the session hear the note, for a caller that holds the lock. From then on the session knows of the note's histories: each
/// is a prefix of the history of every later answer. It adds and compares no events.
pub fn hear_locked<S: Scheme, L: Home>(
    locked: &mut Locked<S, L>,
    session: &mut Session<S, L>,
    note: Note<S, L>,
)
    ensures heard { KnowsAll session.new.known note }
    ensures knew { KnowsAll session.new.known session.old.known }
    ensures id { session.new.id ≡ session.old.id }
    ensures answers { session.new.answers ≡ session.old.answers }
    ensures same { locked.new ≡ locked.old }
{
    locked.count.owner.check(note.known);
    locked.count.owner.renew(&mut session.token.known);
}

/// The law of notes. Suppose that a session got an answer, a note was then taken of what it knew, and another session heard the
/// note. Then the front of the first answer is a prefix of the front of each later answer of the other session.
pub fn notes_carry_order()
    ensures { NotesCarryOrder }
{}
