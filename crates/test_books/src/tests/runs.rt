//! Runs of moves and all their answers.
use super::*;
use nw_book::{Answer, Block, Cause, Stop};
use nw_model::{CertifyReply, CollectReply, Reply, WriteReply};

/// The answers to moves before a stop, in order, with the places in the chain of the blocks that each walk lists.
type Answers = &'static [(&'static str, &'static [usize])];

/// The answers of a run with late walks: before and after a child of the block is stored.
const LATE: Answers = &[
    ("stored vote", &[]),
    ("certified", &[]),
    ("opened", &[]),
    ("walked", &[0]),
    ("stored vote", &[]),
    ("certified", &[]),
    ("opened", &[]),
    ("walked", &[0]),
    ("walked", &[0, 1]),
];

/// The answers if a run stops at a ticket that it lacks, after a walk of a collected block.
const COLLECTED: Answers = &[
    ("stored vote", &[]),
    ("certified", &[]),
    ("opened", &[]),
    ("raised 1", &[]),
    ("walked", &[0]),
];

/// The answer in words, and the blocks that it lists. A reply that no case expects is `another reply`.
fn word(answer: &Answer<DemoScheme>) -> (&'static str, &[Shared<Block>]) {
    match answer {
        Answer::Opened => ("opened", &[]),
        Answer::Walked(list) => ("walked", list.as_slice()),
        Answer::Done(done) => match done.reply() {
            Reply::Write(WriteReply::Stored { vote: true }) => ("stored vote", &[]),
            Reply::Certify(CertifyReply::Certified) => ("certified", &[]),
            Reply::Collect(CollectReply::Raised { dropped: 1 }) => ("raised 1", &[]),
            _ => ("another reply", &[]),
        },
    }
}

/// Whether these are the chain's blocks at these places, in order.
fn are_at(blocks: &[Shared<Block>], chain: &[Link; 2], places: &[usize]) -> bool {
    for (block, place) in blocks.iter().zip(places) {
        match chain.get(*place) {
            Some(link) if link.block.block().get() == block.get() => {}
            _ => return false,
        }
    }
    blocks.len() == places.len()
}

/// Whether these are the answers, in order.
fn are_answers(given: &[Answer<DemoScheme>], chain: &[Link; 2], expected: Answers) -> bool {
    for (answer, (text, places)) in given.iter().zip(expected) {
        let (word, blocks) = word(answer);
        if word != *text || !are_at(blocks, chain, places) {
            return false;
        }
    }
    given.len() == expected.len()
}

/// Whether a run of the moves in a new book has these answers and then stops at a missing ticket.
fn is_answered(
    alloc: Global,
    chain: &[Link; 2],
    moves: &[Move<DemoScheme>],
    answers: Answers,
) -> Result<bool, Fail> {
    let mut book = book_of_one(alloc, LIMITS)?;
    let run = book.run(alloc, moves);
    drop(book);
    let stop = Stop {
        at: answers.len(),
        cause: Cause::NoTicket,
    };
    let is_answered = run.stop == Some(stop) && are_answers(run.answers.as_slice(), chain, answers);
    drop(run);
    Ok(is_answered)
}

/// Whether the run with late walks is answered.
fn is_late_answered(alloc: Global, chain: &[Link; 2]) -> Result<bool, Fail> {
    let [first, child] = chain;
    let moves = [
        first.write(),
        first.certify(),
        first.open(),
        Move::Walk { ticket: 0 },
        child.write(),
        child.certify(),
        child.open(),
        Move::Walk { ticket: 0 },
        Move::Walk { ticket: 1 },
        Move::Walk { ticket: 5 },
    ];
    is_answered(alloc, chain, &moves, LATE)
}

/// Whether the run with a walk of a collected block is answered.
fn is_collected_answered(alloc: Global, chain: &[Link; 2]) -> Result<bool, Fail> {
    let first = &chain[0];
    let moves = [
        first.write(),
        first.certify(),
        first.open(),
        first.collect(),
        Move::Walk { ticket: 0 },
        Move::Walk { ticket: 5 },
    ];
    is_answered(alloc, chain, &moves, COLLECTED)
}

/// Whether each of both runs is answered.
fn are_answered(alloc: Global, chain: &[Link; 2]) -> Result<[bool; 2], Fail> {
    Ok([
        is_late_answered(alloc, chain)?,
        is_collected_answered(alloc, chain)?,
    ])
}

#[test]
fn runs_of_moves_give_each_answer_and_stop_at_a_missing_ticket(
    rt: HostRuntime,
) -> Result<(), Fail> {
    let chain = chain(rt.alloc())?;
    let answered = are_answered(rt.alloc(), &chain);
    drop(chain);
    assert_eq!(rt;
        answered?,
        [true; 2],
        "late walks, and a walk of a collected block"
    );
    Ok(())
}
