//! The rule of the lock's table, and the steps on it.
use crate::knowledge::{Knowledge, Written};
use crate::locked::Locked;
use atomic_table::{Join as Joint, Play, Split, Table, TableRule};
use nw_book::Front;
use nw_sig::Scheme;
use std::alloc::Global;

/// What a seat knows.
pub(crate) type SeatView<S> = Knowledge<Locked<S>, Front<S>, Written<S>>;

/// The lock: a table of one word and one slot, which has the value.
pub(crate) type Lock<S> = Table<Locked<S>, SeatView<S>, Front<S>, OneHistory, Global>;

/// A seat: with it a session, a note or a single call takes its steps.
pub(crate) type Seat<S> = atomic_table::Seat<Locked<S>, SeatView<S>>;

/// The rule: there is one history, and it fits what each seat knows.
pub struct OneHistory;

impl<S: Scheme> TableRule<Locked<S>, SeatView<S>, Front<S>> for OneHistory {
    ghost use Rattle.nw_shared_store.specs.Rule.{IsOneHistory, owner_of};

    ghost holds = { λ first s. IsOneHistory S.accepts first s };

    ghost first = { λ first. owner_of first 0 0 0 };
}

/// The step that makes a new seat.
pub(crate) struct Come;

impl<S: Scheme> Play<Locked<S>, SeatView<S>> for Come {
    ghost use Rattle.nw_shared_store.specs.Rule.{Comes};

    ghost then = { Comes };
}

/// The step that cuts the seat of a new session off the seat of its owner.
pub(crate) struct CutSession;

impl<S: Scheme> Split<SeatView<S>> for CutSession {
    ghost use Rattle.nw_shared_store.specs.Rule.{after_session, for_session};

    ghost left = { for_session };

    ghost right = { after_session };
}

/// The step that cuts the seat of another owner off the seat of an owner.
pub(crate) struct CutOwner;

impl<S: Scheme> Split<SeatView<S>> for CutOwner {
    ghost use Rattle.nw_shared_store.specs.Rule.{after_share, for_share};

    ghost left = { after_share };

    ghost right = { for_share };
}

/// The step that cuts a witness off a seat.
pub(crate) struct CutWitness;

impl<S: Scheme> Split<SeatView<S>> for CutWitness {
    ghost use Rattle.nw_shared_store.specs.Rule.{witness};

    ghost left = { λ v. v };

    ghost right = { witness };
}

/// The step that makes one of two witnesses.
pub(crate) struct Meet;

impl<S: Scheme> Joint<SeatView<S>> for Meet {
    ghost use Rattle.nw_shared_store.specs.Rule.{nobody, witness_of_two};

    ghost both = { witness_of_two };

    ghost spent = { nobody };
}

/// The step with which a witness of two tells what they know.
pub(crate) struct Agree;

impl<S: Scheme> Play<Locked<S>, SeatView<S>> for Agree {
    ghost use Rattle.nw_shared_store.specs.Rule.{Agrees};

    ghost then = { Agrees };
}

/// The step that takes the lock.
pub(crate) struct Acquire;

impl<S: Scheme> Play<Locked<S>, SeatView<S>> for Acquire {
    ghost use Rattle.nw_shared_store.specs.Rule.{Acquires};

    ghost then = { Acquires S.accepts };
}

/// The step that gives the lock back, with the value as it was.
pub(crate) struct Return;

impl<S: Scheme> Play<Locked<S>, SeatView<S>> for Return {
    ghost use Rattle.nw_shared_store.specs.Rule.{Returns};

    ghost then = { Returns };
}

/// The step that gives the lock back after a call.
pub(crate) struct Release;

impl<S: Scheme> Play<Locked<S>, SeatView<S>> for Release {
    ghost use Rattle.nw_shared_store.specs.Rule.{Releases};

    ghost then = { Releases };
}

/// The step that gives the lock back after a session was made.
pub(crate) struct Enrol;

impl<S: Scheme> Play<Locked<S>, SeatView<S>> for Enrol {
    ghost use Rattle.nw_shared_store.specs.Rule.{Enrols};

    ghost then = { Enrols S.accepts };
}

/// The step that gives the lock back after the history was read.
pub(crate) struct Read;

impl<S: Scheme> Play<Locked<S>, SeatView<S>> for Read {
    ghost use Rattle.nw_shared_store.specs.Rule.{Reads};

    ghost then = { Reads };
}

/// The step that gives the lock back to a seat of an ended run.
pub(crate) struct Tell;

impl<S: Scheme> Play<Locked<S>, SeatView<S>> for Tell {
    ghost use Rattle.nw_shared_store.specs.Rule.{Tells};

    ghost then = { Tells };
}

/// The step that gives the lock back after the sessions were counted.
pub(crate) struct Count;

impl<S: Scheme> Play<Locked<S>, SeatView<S>> for Count {
    ghost use Rattle.nw_shared_store.specs.Rule.{Counts};

    ghost then = { Counts };
}

/// The step that gives the lock back, after which the seat's session is of the run of the value.
pub(crate) struct Join;

impl<S: Scheme> Play<Locked<S>, SeatView<S>> for Join {
    ghost use Rattle.nw_shared_store.specs.Rule.{Joins};

    ghost then = { Joins S.accepts };
}
