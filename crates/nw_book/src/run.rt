//! Runs: many moves in order.
ghost use Rattle.std.specs.Prelude.{◌≡◌, ◌++◌, [], ◌∷◌, List, None, OnOk, OnErr, IfErr};
ghost use Rattle.nw_history.specs.Story.{Story};
ghost use Rattle.nw_book.specs.Command.{call_of, committee_of};
ghost use Rattle.nw_book.specs.Ticket.{TicketView};
ghost use Rattle.nw_book.specs.Run.{Makes, IsStop, IsRun};
ghost use Rattle.nw_book.specs.Turn.{IsRefusal, next_number};

use crate::{Answer, Book, Cause, Command, Move, NoStep, Run, Stop, Ticket};
use nw_digest::{Digest, Sequence};
use nw_sig::Scheme;
use std::alloc::Global;

impl<S: Scheme> Book<S> {
    /// Makes the moves in order, and stops at the first that is refused. A refused move changes nothing.
    ///
    /// Each call and each causal read is its session's next call, and is refused if its step is refused. A walk is refused with `NoTicket`
    /// if the run got no ticket with this number. Otherwise it is refused with `NoMemory` if an allocation fails.
    pub fn run(&mut self, alloc: Global, moves: &[Move<S>]) -> Run<S>
        ensures { IsRun S.accepts self.old moves.now result self.new }
    {
        let mut answers = Vec::new(alloc);
        let mut tickets = Vec::new(alloc);
        for next in moves {
            if let Err(cause) = make(self, alloc, next, &mut tickets, &mut answers) {
                let at = answers.len();
                return Run {
                    answers: Sequence::new(answers),
                    stop: Some(Stop { at, cause }),
                };
            }
        }
        Run {
            answers: Sequence::new(answers),
            stop: None,
        }
    }
}

/// Makes the move. Adds its answer, and its ticket if it gets one.
fn make<S: Scheme>(
    book: &mut Book<S>,
    alloc: Global,
    next: &Move<S>,
    tickets: &mut Vec<Ticket<S>>,
    answers: &mut Vec<Answer<S>>,
) -> Result<(), Cause>
    ensures made { OnOk result (Makes S.accepts
        (record { history = book.old; tickets = tickets.old.items; answers = answers.old.items })
        next.now
        (record { history = book.new; tickets = tickets.new.items; answers = answers.new.items })) }
    ensures refused { IfErr result (IsStop
        (record { history = book.old; tickets = tickets.old.items; answers = answers.old.items })
        next.now) }
    ensures unchanged { OnErr result (book.new ≡ book.old) }
    ensures same_tickets { OnErr result (tickets.new.items ≡ tickets.old.items) }
    ensures same_answers { OnErr result (answers.new.items ≡ answers.old.items) }
{
    match next {
        Move::Call { session, command } => {
            Ok(make_call(book, alloc, *session, command, answers)?)
        }
        Move::Open { session, digest } => {
            Ok(make_open(book, alloc, *session, *digest, tickets, answers)?)
        }
        Move::Walk { ticket } => make_walk(alloc, tickets, *ticket, answers),
    }
}

/// Takes the step of the session's next call, and adds the answer.
fn make_call<S: Scheme>(
    book: &mut Book<S>,
    alloc: Global,
    session: u16,
    command: &Command<S>,
    answers: &mut Vec<Answer<S>>,
) -> Result<(), NoStep>
    ensures made { OnOk result ((tickets : List TicketView) → Makes S.accepts
        (record { history = book.old; tickets = tickets; answers = answers.old.items })
        (Move.Call session command.now)
        (record { history = book.new; tickets = tickets; answers = answers.new.items })) }
    ensures refused { IfErr result
        (IsRefusal book.old session (next_number book.old session) (committee_of command.now)) }
    ensures unchanged { OnErr result (book.new ≡ book.old) }
    ensures same_answers { OnErr result (answers.new.items ≡ answers.old.items) }
{
    let number = book.next_number(session)?;
    book.may_step(session, number, command.committee())?;
    answers.reserve(1)?;
    let call = command.call()?;
    let (done, _) = book.take_step(alloc, session, number, call)?;
    answers.push_reserved(Answer::Done(done));
    Ok(())
}

/// Opens a causal read as the session's next call. Adds the answer, and the ticket if there is one.
fn make_open<S: Scheme>(
    book: &mut Book<S>,
    alloc: Global,
    session: u16,
    digest: Digest,
    tickets: &mut Vec<Ticket<S>>,
    answers: &mut Vec<Answer<S>>,
) -> Result<(), NoStep>
    ensures made { OnOk result (Makes S.accepts
        (record { history = book.old; tickets = tickets.old.items; answers = answers.old.items })
        (Move.Open session digest)
        (record { history = book.new; tickets = tickets.new.items; answers = answers.new.items })) }
    ensures refused { IfErr result
        (IsRefusal book.old session (next_number book.old session) None) }
    ensures unchanged { OnErr result (book.new ≡ book.old) }
    ensures same_tickets { OnErr result (tickets.new.items ≡ tickets.old.items) }
    ensures same_answers { OnErr result (answers.new.items ≡ answers.old.items) }
{
    let number = book.next_number(session)?;
    book.may_step(session, number, None)?;
    answers.reserve(1)?;
    tickets.reserve(1)?;
    let (answer, _) = book.take_open(alloc, session, number, digest)?;
    match answer {
        Ok(ticket) => {
            tickets.push_reserved(ticket);
            answers.push_reserved(Answer::Opened);
        }
        Err(done) => answers.push_reserved(Answer::Done(done)),
    }
    Ok(())
}

/// Walks the ticket with this number, and adds the answer.
fn make_walk<S: Scheme>(
    alloc: Global,
    tickets: &[Ticket<S>],
    ticket: u32,
    answers: &mut Vec<Answer<S>>,
) -> Result<(), Cause>
    ensures made { OnOk result ((s : Story) → Makes S.accepts
        (record { history = s; tickets = tickets.now; answers = answers.old.items })
        (Move.Walk ticket)
        (record { history = s; tickets = tickets.now; answers = answers.new.items })) }
    ensures refused { IfErr result (λ cause. (s : Story) → IsStop {S = S}
        (record { history = s; tickets = tickets.now; answers = answers.old.items })
        (Move.Walk ticket) cause) }
    ensures same_answers { OnErr result (answers.new.items ≡ answers.old.items) }
{
    let Some(ticket) = tickets.get(ticket as usize) else {
        return Err(Cause::NoTicket);
    };
    answers.reserve(1)?;
    let blocks = ticket.walk(alloc)?;
    answers.push_reserved(Answer::Walked(Sequence::new(blocks)));
    Ok(())
}
