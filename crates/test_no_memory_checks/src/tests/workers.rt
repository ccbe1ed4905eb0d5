//! Checks by several workers.
use super::texts::{text_of, word};
use super::*;
use nw_check::Checked;
use nw_intake::{FreeGate, Gate, IntakeFault, Point, check_all};
use nw_sig::DemoScheme;
use samples::fallible::vote;
use std::alloc::AllocError;
use std::sync::Wait;
use std::thread::Threads;

/// This many messages: blocks, and a vote after each block.
fn some_texts(alloc: Global, four: &Committee, count: usize) -> Result<Vec<Vec<u8>>, Fail> {
    let mut texts = retry!(AllocError, Vec::with_capacity(alloc, count))?;
    for place in 0..count {
        let message = match place % 2 {
            0 => block_message(alloc, four, 0)?,
            _ => Message::Vote(vote(four, VOTED, SLOT, 1)),
        };
        texts.push(text_of(alloc, &message)?)?;
    }
    Ok(texts)
}

/// The result of `check_all` with this gate and this many new texts.
fn checked<R: Threads + Wait + Sync, G: Gate + Sync>(
    rt: &R,
    alloc: Global,
    four: &Shared<Committee>,
    gate: &G,
    count: usize,
    workers: usize,
) -> Result<Result<Vec<Checked<DemoScheme>>, IntakeFault>, Fail> {
    let texts = some_texts(alloc, four.get(), count)?;
    if texts.len() > 3 {
        return Err(Fail::from("there are at most three texts"));
    }
    Ok(check_all(rt, alloc, four, texts, workers, gate))
}

/// Whether the results have these words, in order.
fn have_words(answers: &[Checked<DemoScheme>], words: &[&str]) -> bool {
    for (answer, expected) in answers.iter().zip(words) {
        if word(answer) != *expected {
            return false;
        }
    }
    answers.len() == words.len()
}

/// Whether the workers find what these words say. A call that could not start a thread is repeated too.
fn are_found<R: Threads + Wait + Sync, G: Gate + Sync>(
    rt: &R,
    alloc: Global,
    four: &Shared<Committee>,
    gate: &G,
    words: &[&str],
    workers: usize,
) -> Result<bool, Fail> {
    let count = words.len();
    let answers = match checked(rt, alloc, four, gate, count, workers)? {
        Err(IntakeFault::NoMemory | IntakeFault::Spawn) => {
            checked(rt, alloc, four, gate, count, workers)??
        }
        answers => answers?,
    };
    let are_found = have_words(&answers, words);
    drop(answers);
    Ok(are_found)
}

/// A gate that makes all allocations of the worker fail from the end of the second check to the start of the third. A third check that
/// started before the gate lets it would run out of memory.
#[derive(Drop)]
struct Starving {
    alloc: Global,
}

impl Gate for Starving {
    ghost says = { λ _ _ _. Unit {0} };

    fn reach(&self, point: Point) {
        match point {
            Point::CheckDone(1) => fail_allocations(self.alloc),
            Point::CheckStart(2) => allow_allocations(self.alloc),
            _ => {}
        }
    }

    fn may_pass(&self, _point: Point) -> bool {
        true
    }
}

#[test]
fn a_check_starts_after_its_gate_lets_it(rt: HostRuntime) -> Result<(), Fail> {
    let four = four(rt.alloc())?;
    let gate = Starving { alloc: rt.alloc() };
    let words = ["block", "vote", "block"];
    let are_found = are_found(&rt, rt.alloc(), &four, &gate, &words, 1);
    drop(four);
    assert!(rt; are_found?);
    Ok(())
}

/// Whether `check_all` refuses 0 workers, and a free gate lets a check start, while all allocations fail.
pub(super) fn refuses_no_workers<R: Threads + Wait + Sync>(
    rt: &R,
    alloc: Global,
    four: &Shared<Committee>,
) -> bool {
    let texts = Vec::new(alloc);
    fail_allocations(alloc);
    FreeGate.reach(Point::CheckStart(0));
    let passes = FreeGate.may_pass(Point::CheckStart(0));
    let refused = check_all::<DemoScheme, FreeGate, R>(rt, alloc, four, texts, 0, &FreeGate);
    allow_allocations(alloc);
    passes && refused.err() == Some(IntakeFault::BadWorkers)
}

#[test]
fn two_workers_check_two_messages(rt: HostRuntime) -> Result<(), Fail> {
    let four = four(rt.alloc())?;
    let are_found = are_found(&rt, rt.alloc(), &four, &FreeGate, &["block", "vote"], 2);
    drop(four);
    assert!(rt; are_found?);
    Ok(())
}
