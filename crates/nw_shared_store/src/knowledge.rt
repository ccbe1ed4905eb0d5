//! What a seat knows.
use nw_book::{Entry, Front};
use nw_sig::Scheme;
use std::collections::LinkedList;
use std::marker::Model;

/// What a seat knows: `G` is the value under the lock, `F` a history, and `J` a journal. No value of this type is ever made.
pub struct Knowledge<G, F, J> {
    /// The value under the lock, if the seat has the lock.
    holds: Option<G>,
    /// Whether the seat has a session.
    acts: bool,
    /// The number of the run that it knows of.
    run: u64,
    /// The last histories of the runs before it, in order.
    past: LinkedList<F>,
    /// Whether it was told that this run has ended.
    over: bool,
    /// Last histories of ended runs that another seat knew of.
    other: LinkedList<F>,
    /// The history of this run when the seat came to it.
    first: F,
    /// The journal of its session. If it has none, only the known histories count.
    journal: J,
    /// What it may make.
    right: Right,
}

/// What a seat may make. No value of this type is ever made.
pub struct Right {
    /// Whether it may make one session, which it then has.
    one: bool,
    /// Whether it is an owner's, which may make sessions and owners.
    owns: bool,
    /// The number of sessions made through it.
    made: u64,
    /// The number of owners made through it.
    shares: u64,
    /// The number of sessions that the store had made, when it last made one through the seat or refused to.
    known: u64,
}

/// A journal, as a seat knows it. No value of this type is ever made.
pub struct Written<S: Scheme> {
    id: u16,
    answers: LinkedList<Entry<S>>,
    known: LinkedList<Front<S>>,
}

impl<S: Scheme> Model for Written<S> {
    ghost use Rattle.std.specs.Coded.{codes};
    ghost use Rattle.nw_model.specs.State.{coded_state};
    ghost use Rattle.nw_book.specs.Journal.{Journal};

    ghost Value = { Journal };

    ghost coded = { Prim.hlevel (codes, coded_state) };

    ghost view = { λ j. record { id = j.id; answers = j.answers; known = j.known } };
}
