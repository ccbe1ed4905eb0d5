//! Reopening: a book continues from the state after its history, with an empty history.
ghost use Rattle.std.specs.Prelude.{◌≡◌, IfOk, IfErr, OnOk, OnErr};
ghost use Rattle.nw_history.specs.Story.{reopened};

use super::Book;
use nw_digest::NoMemory;
use nw_history::Front;
use nw_sig::Scheme;
use std::alloc::Global;

impl<S: Scheme> Book<S> {
    /// The reopened book. It has the same tables, committee and limits, and an empty history, whose base is the state after the old
    /// history. Each session starts again with call 1. Earlier tickets and fronts do not change.
    ///
    /// It copies the tables, sharing the blocks and certificates. The cost grows with the number of these, whatever the old history has.
    ///
    /// `NoMemory`: an allocation failed. The error returns the book unchanged.
    pub fn reopen(mut self, alloc: Global) -> Result<Book<S>, (NoMemory, Book<S>)>
        ensures reopened { IfOk result (λ book. book ≡ reopened self) }
        ensures back { IfErr result (λ refused. refused.1 ≡ self) }
    {
        match self.restart(alloc) {
            Ok(()) => Ok(self),
            Err(refused) => Err((refused, self)),
        }
    }

    /// Reopens the book in place.
    ///
    /// `NoMemory`: an allocation failed. Nothing changed.
    pub fn restart(&mut self, alloc: Global) -> Result<(), NoMemory>
        ensures restarted { OnOk result (self.new ≡ reopened self.old) }
        ensures unchanged { OnErr result (self.new ≡ self.old) }
    {
        self.history = self.restarted(alloc)?;
        self.calls.as_mut_slice().fill(0);
        Ok(())
    }

    /// The history without events that starts where the book's history ends.
    fn restarted(&self, alloc: Global) -> Result<Front<S>, NoMemory>
        ensures { IfOk result (λ history. history ≡ reopened self.now) }
    {
        let state = self.tables.copy(alloc)?;
        self.history.restarted(alloc, state)
    }
}
