//! A new log, its owner and its known prefixes.
ghost use Rattle.std.specs.Prelude.{◌≡◌, ◌++◌, ◌∷◌, []};
ghost use mathlib.Core.List.{IsPrefix};

use crate::rule::{Appends, Checks, Copies, Knowledge, OneLog, WholeLog};
use atomic_table::{Seat, Table};
use std::alloc::{AllocError, Global};
use std::marker::{Brand, Model, PhantomData};
use std::mem;
use std::sync::ledger::Ledger;

/// The name of one log and its ledger, as a type. It keeps apart the owners and known prefixes of different logs.
///
/// If a function is generic in such a name, a program calls it with `Brand`. The proof of the call says which log it names.
pub trait LogName: Ledger + Send + Sync {
    ghost use Rattle.nw_log.specs.Log.{LogId};

    ghost log: { LogId };
}

impl LogName for Brand {
    ghost use Rattle.nw_log.specs.Log.{no_log};

    ghost log = { no_log };
}

type Log<E> = Table<E, Knowledge<E>, (), OneLog, Global>;

/// A new log without events, which no type names yet. Contracts see which log it is.
#[derive(Drop)]
pub struct NewLog<E> {
    table: Log<E>,
    seat: Seat<E, Knowledge<E>>,
}

impl<E> Model for NewLog<E> {
    ghost use Rattle.std.specs.Prelude.{◌≡◌, []};
    ghost use Rattle.nw_log.specs.Log.{LogId, IsOwnerOf};

    ghost Value = { LogId };

    ghost view = { λ o. o.table.shared.table_id };

    ghost invariant = { λ o. IsOwnerOf o.table.shared.table_id o.seat × (o.seat.me.0.all ≡ []) };
}

impl<E> NewLog<E> {
    /// A log without events. It allocates two blocks of a few bytes, which serve the log however long it grows. `AllocError`
    /// if an allocation fails.
    pub fn new(alloc: Global) -> Result<NewLog<E>, AllocError> {
        let (table, seat) = Log::of_words(alloc, &[0], &())?;
        Ok(NewLog { table, seat })
    }

    /// The only owner of the log. From now on, `L` names the log.
    pub fn owner<L: LogName>(self) -> LogOwner<E, L>
        requires { self ≡ L.log }
        ensures { result ≡ [] }
    {
        let NewLog { table, seat } = self;
        LogOwner {
            table,
            seat,
            of: PhantomData,
        }
    }
}

/// The owner of the log that `L` names: the only value that knows the whole log. Contracts see the events in order.
///
/// Each call takes one to three atomic steps on one word, whatever the length of the log. Neither that length nor the number
/// of known prefixes has a limit.
#[derive(Drop)]
pub struct LogOwner<E, L: LogName> {
    table: Log<E>,
    seat: Seat<E, Knowledge<E>>,
    of: PhantomData<L>,
}

impl<E, L: LogName> Model for LogOwner<E, L> {
    ghost use Rattle.std.specs.Prelude.{List, ◌≡◌};
    ghost use Rattle.nw_log.specs.Log.{IsOwnerOf};

    ghost Value = { List E };

    ghost view = { λ o. o.seat.me.0.all };

    ghost invariant = { λ o. (o.table.shared.table_id ≡ L.log) × IsOwnerOf L.log o.seat };
}

/// A known prefix of the log that `L` names. Contracts see its events in order.
///
/// It is zero-sized, and may move to another thread. Dropping it has no effect on the log.
#[derive(Drop)]
pub struct KnownPrefix<E, L: LogName> {
    seat: Seat<E, Knowledge<E>>,
    of: PhantomData<L>,
}

impl<E, L: LogName> Model for KnownPrefix<E, L> {
    ghost use Rattle.std.specs.Prelude.{List};
    ghost use Rattle.nw_log.specs.Log.{IsKnownPrefixOf};

    ghost Value = { List E };

    ghost view = { λ p. p.seat.me.0.known };

    ghost invariant = { λ p. IsKnownPrefixOf L.log p.seat };
}

impl<E, L: LogName> LogOwner<E, L> {
    /// Adds an event at the end of the log. Only contracts see it: the event is neither stored nor read.
    pub fn append(&mut self, event: &E)
        ensures { self.new ≡ self.old ++ event.now ∷ [] }
    {
        let LogOwner { table, seat, of: _ } = self;
        let shared = &table.shared;
        // The word is 0 and stays 0. The step only changes what the seats know.
        shared.compare_exchange_with::<Appends>(seat, 0, 0, 0, event);
    }

    /// The whole log as it is now, as a known prefix.
    pub fn known(&mut self) -> KnownPrefix<E, L>
        ensures known { result ≡ self.old }
        ensures same { self.new ≡ self.old }
    {
        let LogOwner { table, seat, of: _ } = self;
        let known = table.shared.split_seat::<WholeLog>(seat);
        KnownPrefix {
            seat: known,
            of: PhantomData,
        }
    }

    /// Shows that the log begins with the known prefix, however much it has grown since. It consumes the prefix, and compares no
    /// events.
    pub fn check(&mut self, known: KnownPrefix<E, L>)
        ensures begins { IsPrefix known self.old }
        ensures same { self.new ≡ self.old }
    {
        let LogOwner { table, seat, of: _ } = self;
        let KnownPrefix { seat: other, of: _ } = known;
        table.shared.join_seat::<WholeLog>(seat, other);
        table.shared.load::<Checks>(seat, 0);
    }

    /// The same as `check`, but does not consume the known prefix.
    pub fn check_in_place(&mut self, known: &mut KnownPrefix<E, L>)
        ensures begins { IsPrefix known.old self.old }
        ensures known { known.new ≡ known.old }
        ensures same { self.new ≡ self.old }
    {
        let copy = self.table.shared.split_seat::<Copies>(&mut known.seat);
        self.check(KnownPrefix {
            seat: copy,
            of: PhantomData,
        });
    }

    /// Shows that the log begins with the known prefix, and replaces this prefix with the whole log as it is now.
    pub fn renew(&mut self, known: &mut KnownPrefix<E, L>)
        ensures begins { IsPrefix known.old self.old }
        ensures known { known.new ≡ self.old }
        ensures same { self.new ≡ self.old }
    {
        let whole = self.known();
        let earlier = mem::replace(known, whole);
        self.check(earlier);
    }
}
