//! The log and the ledger that a store is opened with.

use nw_book::{Front, MAX_SESSIONS};
use nw_digest::NoMemory;
use nw_log::NewLog;
use nw_sig::Scheme;
use std::alloc::Global;
use std::marker::Model;
use std::sync::ledger::Blank;

/// An empty log and an empty ledger for a new store. No home names them yet. Contracts see the identities of both.
#[derive(Drop)]
pub struct Opening<S: Scheme> {
    pub(crate) log: NewLog<Front<S>>,
    pub(crate) blank: Blank,
}

impl<S: Scheme> Model for Opening<S> {
    ghost use Rattle.std.specs.Prelude.{◌≡◌};
    ghost use Rattle.nw_store.specs.Journal.{StoreNames};
    ghost use Rattle.nw_store.specs.Lock.{parts_of_a_ledger};

    ghost Value = { StoreNames };

    ghost view = { λ o. record { log = o.log; ledger = o.blank.name } };

    ghost invariant = { λ o. o.blank.parts ≡ parts_of_a_ledger };
}

impl<S: Scheme> Opening<S> {
    /// An empty log and an empty ledger. This makes two allocations of a few bytes each.
    ///
    /// `NoMemory`: an allocation failed.
    pub fn new(alloc: Global) -> Result<Opening<S>, NoMemory> {
        Ok(Opening {
            log: NewLog::new(alloc)?,
            blank: Blank::new(u64::from(MAX_SESSIONS) + 1),
        })
    }
}
