//! Tests whether a call may take a step.
ghost use Rattle.std.specs.Prelude.{◌≡◌, IfOk, IfErr, OnOk};
ghost use Rattle.std.specs.Option.{option_copied};
ghost use Rattle.std.specs.Result.{IsErrOf};
ghost use Rattle.nw_book.specs.Turn.{IsInTurn, IsRefusal, MayStep, next_number};

use super::Book;
use crate::NoStep;
use nw_committee::Committee;
use nw_sig::Scheme;

impl<S: Scheme> Book<S> {
    /// The number of the session's next call.
    ///
    /// `OutOfTurn`: the session is not below the limit of sessions.
    pub fn next_number(&self, session: u16) -> Result<u32, NoStep>
        ensures number { IfOk result (λ number. number ≡ next_number self.now session) }
        ensures turn { OnOk result (IsInTurn self.now session (next_number self.now session)) }
        ensures refused { IfErr result (λ why.
            (why ≡ NoStep.OutOfTurn)
            × (IsInTurn self.now session (next_number self.now session) → ⊥)) }
    {
        match self.calls.get(usize::from(session)) {
            None => Err(NoStep::OutOfTurn),
            Some(calls) => Ok(*calls + 1),
        }
    }

    /// Tests whether the session's call with this number may take a step. `under` is the committee under which the block or
    /// certificate of the call was checked, if it has one. Allocates nothing.
    ///
    /// The error is the first of these that applies:
    ///
    /// 1. `OutOfTurn`: the session is not below the limit of sessions, or the number is not that of its next call.
    /// 2. `OtherCommittee`: `under` is not the book's committee.
    /// 3. `HistoryFull`: the history has reached its limit of events.
    pub fn may_step(
        &self,
        session: u16,
        number: u32,
        under: Option<&Committee>,
    ) -> Result<(), NoStep>
        ensures may { OnOk result (MayStep self.now session number (option_copied under.entry)) }
        ensures refused { IfErr result
            (IsRefusal self.now session number (option_copied under.entry)) }
        ensures no_memory { IsErrOf result NoStep.NoMemory → ⊥ }
    {
        if self.next_number(session)? != number {
            return Err(NoStep::OutOfTurn);
        }
        if let Some(committee) = under {
            // `eq` is called by name, because the proof needs its clause `same`.
            if !committee.eq(self.history.committee().get()) {
                return Err(NoStep::OtherCommittee);
            }
        }
        if self.history.len() >= self.history.limits().events as usize {
            return Err(NoStep::HistoryFull);
        }
        Ok(())
    }
}
