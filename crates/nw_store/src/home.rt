//! Names of stores.
use nw_log::LogName;
use std::marker::Brand;

/// The name of one store: its log, its ledger and the origin of its history. It keeps values of two stores apart.
///
/// Write a function that is generic in a home, and call it with `Brand`. The proof of that call chooses the log and the ledger, which are
/// those of the opening, and the origin.
pub trait Home: LogName {
    ghost use Rattle.nw_history.specs.Story.{Origin};

    /// The origin of each of the store's histories.
    ghost origin: { Origin };
}

// Only a placeholder: the proof of a call with `Brand` says which origin it has.
impl Home for Brand {
    ghost use Rattle.nw_store.specs.Journal.{placeholder_origin};

    ghost origin = { placeholder_origin };
}
