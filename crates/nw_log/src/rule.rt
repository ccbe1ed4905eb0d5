//! What each seat of a log's table knows, and how its steps change that. A *seat* is a zero-sized value of `atomic_table`, with
//! which its owner takes steps on the table.
use atomic_table::{Join, Play, Split, TableRule};
use std::collections::LinkedList;

/// What a seat knows: the whole log, a prefix of it, or nothing. No value of this type is ever made.
pub(crate) struct Knowledge<E> {
    /// Whether this is the owner's seat.
    owns: bool,
    /// The whole log, if this is the owner's seat.
    all: LinkedList<E>,
    /// Whether the seat knows a prefix of the log.
    knows: bool,
    /// The known prefix, if the seat knows one.
    known: LinkedList<E>,
}

/// The rule of the table: there is one log. At most one seat knows all of it, and it begins with each known prefix.
pub(crate) struct OneLog;

impl<E> TableRule<E, Knowledge<E>, ()> for OneLog {
    ghost use Rattle.std.specs.Prelude.{[]};
    ghost use Rattle.nw_log.specs.Log.{IsOneLog, owner_knows};

    ghost holds = { λ _ s. IsOneLog s };

    ghost first = { λ _. owner_knows [] };
}

/// The step that adds an event to the log.
pub(crate) struct Appends;

impl<E> Play<E, Knowledge<E>> for Appends {
    ghost use Rattle.nw_log.specs.Log.{Appended};

    ghost then = { Appended };
}

/// The step that shows that the log begins with a known prefix.
pub(crate) struct Checks;

impl<E> Play<E, Knowledge<E>> for Checks {
    ghost use Rattle.nw_log.specs.Log.{Checked};

    ghost then = { Checked };
}

/// How the whole log becomes a known prefix, and how a known prefix is shown to the owner.
pub(crate) struct WholeLog;

impl<E> Split<Knowledge<E>> for WholeLog {
    ghost use Rattle.nw_log.specs.Log.{known_of};

    ghost left = { λ v. v };

    ghost right = { known_of };
}

/// How a known prefix is copied.
pub(crate) struct Copies;

impl<E> Split<Knowledge<E>> for Copies {
    ghost left = { λ v. v };

    ghost right = { λ v. v };
}

impl<E> Join<Knowledge<E>> for WholeLog {
    ghost use Rattle.nw_log.specs.Log.{with_known, knows_nothing};

    ghost both = { with_known };

    ghost spent = { knows_nothing };
}
