//! Runs of moves in books.
use super::fixture::{Fixture, Link, TWO};
use super::*;
use nw_book::{Answer, Cause, Move, Stop};

/// The limits of a book with one session.
const LIMITS: Limits = Limits {
    blocks: 16,
    events: 16,
    window: 4,
    sessions: 1,
};

/// A book of the committee.
fn new_book(alloc: Global, committee: &Shared<Committee>) -> Result<Book<DemoScheme>, BookError> {
    Book::new(alloc, committee.try_clone()?, LIMITS)
}

/// Moves that write, certify and open the block, collect its round, and walk its ticket and then a missing ticket.
fn moves(made: &Link) -> [Move<'_, DemoScheme>; 6] {
    let digest = made.block.digest();
    [
        Move::Call {
            session: 0,
            command: Command::Write(&made.block),
        },
        Move::Call {
            session: 0,
            command: Command::Certify(&made.certificate),
        },
        Move::Open { session: 0, digest },
        Move::Call {
            session: 0,
            command: Command::Collect(Round::new(1).unwrap_or(Round::ZERO)),
        },
        Move::Walk { ticket: 0 },
        Move::Walk { ticket: 5 },
    ]
}

/// The answers to those moves, without the last, which is refused.
const ANSWERS: [&str; 5] = [
    "Write(Stored { vote: true })",
    "Certify(Certified)",
    "Opened",
    "Collect(Raised { dropped: 1 })",
    "Walked(true)",
];

/// The text of the answer. For a walk of one block it says whether the block is this one.
fn text_of(alloc: Global, made: &Link, answer: &Answer<DemoScheme>) -> Result<String, AllocError> {
    match answer {
        Answer::Opened => format!(in alloc; "Opened"),
        Answer::Walked(blocks) => match blocks.as_slice() {
            [only] => {
                let is_it = only.get() == made.block.block().get();
                format!(in alloc; "Walked({is_it})")
            }
            more => format!(in alloc; "Walked {} blocks", more.len()),
        },
        Answer::Done(done) => format!(in alloc; "{:?}", done.reply()),
    }
}

/// Whether the answers are the first ones of `ANSWERS`, and the history has exactly their events.
fn are_answers(
    alloc: Global,
    made: &Link,
    answers: &[Answer<DemoScheme>],
    events: usize,
) -> Result<bool, AllocError> {
    for (answer, expected) in answers.iter().zip(&ANSWERS) {
        if retry!(AllocError, text_of(alloc, made, answer))?.as_str() != *expected {
            return Ok(false);
        }
    }
    Ok(events == answers.len().min(4))
}

/// Makes the moves for the link on the book. Returns the stop of the run. Fails if an answer before the stop is not the expected one.
fn stop_of(
    book: &mut Book<DemoScheme>,
    alloc: Global,
    made: &Link,
    moves: &[Move<DemoScheme>],
) -> Result<Option<Stop>, Fail> {
    let run = book.run(alloc, moves);
    let are_answers = are_answers(alloc, made, run.answers.as_slice(), book.history().len());
    let stop = run.stop;
    drop(run);
    match are_answers? {
        true => Ok(stop),
        false => Err(Fail::from("a move got another answer")),
    }
}

/// The stop of a run in a new book.
fn stop_anew(
    alloc: Global,
    committee: &Shared<Committee>,
    made: &Link,
    moves: &[Move<DemoScheme>],
) -> Result<Option<Stop>, Fail> {
    let mut book = retry!(BookError::NoMemory, new_book(alloc, committee))?;
    let stop = stop_of(&mut book, alloc, made, moves);
    drop(book);
    stop
}

/// Whether the run stopped because an allocation failed.
fn is_refused(stop: Option<Stop>) -> bool {
    match stop {
        Some(stop) => matches!(
            stop.cause,
            Cause::NoMemory | Cause::NoStep(NoStep::NoMemory)
        ),
        None => false,
    }
}

/// The stop of a run in a new book. If an allocation fails, the run is repeated in another new book.
fn stop_again(
    alloc: Global,
    committee: &Shared<Committee>,
    made: &Link,
    moves: &[Move<DemoScheme>],
) -> Result<Option<Stop>, Fail> {
    let stop = stop_anew(alloc, committee, made, moves)?;
    if is_refused(stop) {
        stop_anew(alloc, committee, made, moves)
    } else {
        Ok(stop)
    }
}

/// The stop of a run with the moves for the last block of the fixture.
fn stop_with(alloc: Global, fixture: &Fixture) -> Result<Option<Stop>, Fail> {
    let link = fixture.links.last().ok_or("an example has blocks")?;
    stop_again(alloc, &fixture.committee, link, &moves(link))
}

#[test]
fn a_run_of_moves_is_made_or_stops(rt: HostRuntime) -> Result<(), Fail> {
    let alloc = rt.alloc();
    let fixture = Fixture::new(alloc, &[0], &TWO)?;
    let stop = stop_with(alloc, &fixture);
    drop(fixture);
    let stop = stop?;
    let cause = Cause::NoTicket;
    assert!(rt; stop == Some(Stop { at: 5, cause }));
    Ok(())
}
