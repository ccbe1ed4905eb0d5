//! Checks in several threads, and gates that hold them.
use super::signed::{block, certificate, vote};
use super::*;
use nw_intake::{FreeGate, Gate, GateShut, IntakeFault, Point, check_all, pass_start};
use samples::Naps;
use std::sync::Wait;
use std::sync::atomic::AtomicU64;
use std::sync::atomic::Ordering::SeqCst;
use std::thread::Threads;
use std::time::Clock;

/// How often a gate that will open naps at most: ten seconds.
const PATIENT: u64 = 10_000;

/// A gate that lets checks start when two of them have reached their start points. It counts how often it is asked.
#[derive(Drop)]
struct Meeting<C: Clock> {
    reached: AtomicU64,
    asked: AtomicU64,
    naps: Naps<C>,
}

impl<C: Clock> Meeting<C> {
    /// A gate that no check has reached yet, with at most this many naps.
    fn new(clock: C, naps: u64) -> Meeting<C> {
        Meeting {
            reached: AtomicU64::new(0),
            asked: AtomicU64::new(0),
            naps: Naps::new(clock, naps),
        }
    }
}

impl<C: Clock> Gate for Meeting<C> {
    ghost says = { λ _ _ _. Unit {0} };

    fn reach(&self, point: Point) {
        if matches!(point, Point::CheckStart(_)) {
            self.reached.fetch_add(1, SeqCst);
        }
    }

    fn may_pass(&self, _point: Point) -> bool {
        self.asked.fetch_add(1, SeqCst);
        let met = self.reached.load(SeqCst) >= 2;
        if !met {
            self.naps.nap();
        }
        met
    }
}

#[test]
fn a_shut_gate_is_asked_a_million_times(rt: HostRuntime) {
    let gate = Meeting::new(&rt, 0);
    let passed = pass_start(&gate, Point::WalkStart { node: 1, number: 2 });
    assert_eq!(rt;
        (passed, gate.asked.load(SeqCst)),
        (Err(GateShut), 1_000_000)
    );
}

/// A good block, a good certificate, a vote, bad bytes, and a block with another member's signature.
fn five_texts(alloc: Global, four: &Committee) -> Result<Vec<Vec<u8>>, Fail> {
    let mut texts = Vec::new(alloc);
    texts.push(block(alloc, four, 0)?)?;
    texts.push(certificate(alloc, four)?)?;
    texts.push(vote(alloc, four)?)?;
    texts.push(b"\x01".to_vec(alloc)?)?;
    texts.push(block(alloc, four, 1)?)?;
    Ok(texts)
}

/// The results for these texts.
const FIVE: [Found; 5] = [
    Found::Block,
    Found::Cert,
    Found::Vote,
    Found::BadText(DecodeError::Short),
    Found::BadBlock(BlockFault::Signature),
];

/// Whether both checks have the same result. Blocks, certificates and votes are compared by value.
fn is_same(one: &Checked<DemoScheme>, other: &Checked<DemoScheme>) -> bool {
    match (one, other) {
        (Checked::Block(one), Checked::Block(other)) => one.block().get() == other.block().get(),
        (Checked::Cert(one), Checked::Cert(other)) => {
            one.certificate().get() == other.certificate().get()
        }
        (Checked::Vote(one), Checked::Vote(other)) => one == other,
        _ => found_in(one) == found_in(other),
    }
}

/// Whether there are `count` answers, and they are those of separate checks of the texts, and those of [`FIVE`].
fn are_separate(
    alloc: Global,
    four: &Shared<Committee>,
    count: u8,
    answers: &[Checked<DemoScheme>],
) -> Result<bool, Fail> {
    let texts = five_texts(alloc, four.get())?;
    for (text, (answer, wanted)) in texts.iter().zip(answers.iter().zip(&FIVE)) {
        let separate = check_message(alloc, four, text)?;
        let is_it = is_same(&separate, answer);
        drop(separate);
        if !is_it || found_in(answer) != *wanted {
            return Ok(false);
        }
    }
    Ok(answers.len() == usize::from(count))
}

/// Checks the first `count` texts with this many workers, under this committee of four. Returns whether the answers are those of separate
/// checks, or the fault.
fn checked_by<G: Gate + Sync, R: Threads + Wait + Sync>(
    rt: &R,
    alloc: Global,
    four: &Shared<Committee>,
    count: u8,
    workers: usize,
    gate: &G,
) -> Result<Result<bool, IntakeFault>, Fail> {
    let mut texts = five_texts(alloc, four.get())?;
    texts.truncate(usize::from(count));
    match check_all(rt, alloc, four, texts, workers, gate) {
        Ok(answers) => {
            let are_separate = are_separate(alloc, four, count, &answers);
            drop(answers);
            Ok(Ok(are_separate?))
        }
        Err(fault) => Ok(Err(fault)),
    }
}

#[test]
fn two_workers_wait_for_each_other(rt: HostRuntime) -> Result<(), Fail> {
    let cases = [
        (2, Ok(true)),
        (0, Err(IntakeFault::BadWorkers)),
        (17, Err(IntakeFault::BadWorkers)),
    ];
    for is_weighted in [false, true] {
        let four = four(rt.alloc(), is_weighted)?;
        for (workers, wanted) in cases {
            let found = checked_by(
                &rt,
                rt.alloc(),
                &four,
                2,
                workers,
                &Meeting::new(&rt, PATIENT),
            )?;
            assert_eq!(rt; found, wanted, "{workers}");
        }
    }
    Ok(())
}

/// A gate that lets the texts of one worker's share start when all other texts are done.
#[derive(Drop)]
struct HoldsOne<C: Clock> {
    worker: u32,
    workers: u32,
    /// The number of texts of other shares.
    others: u32,
    /// How many of them are done.
    done: AtomicU64,
    naps: Naps<C>,
}

impl<C: Clock> HoldsOne<C> {
    /// A gate for this many texts.
    fn new(clock: C, worker: u32, workers: u32, texts: u32) -> HoldsOne<C> {
        let mut gate = HoldsOne {
            worker,
            workers,
            others: 0,
            done: AtomicU64::new(0),
            naps: Naps::new(clock, PATIENT),
        };
        for place in 0..texts {
            if !gate.holds(place) {
                gate.others = gate.others.saturating_add(1);
            }
        }
        gate
    }

    /// Whether the text at this place is of the share that it holds.
    fn holds(&self, place: u32) -> bool {
        place.checked_rem(self.workers) == Some(self.worker)
    }
}

impl<C: Clock> Gate for HoldsOne<C> {
    ghost says = { λ _ _ _. Unit {0} };

    fn reach(&self, point: Point) {
        match point {
            Point::CheckDone(place) if !self.holds(place) => {
                self.done.fetch_add(1, SeqCst);
            }
            _ => {}
        }
    }

    fn may_pass(&self, point: Point) -> bool {
        let passed = match point {
            Point::CheckStart(place) if self.holds(place) => {
                self.done.load(SeqCst) >= u64::from(self.others)
            }
            _ => true,
        };
        if !passed {
            self.naps.nap();
        }
        passed
    }
}

#[test]
fn answers_are_in_the_order_of_the_texts_whichever_finishes_first(
    rt: HostRuntime,
) -> Result<(), Fail> {
    let gate = HoldsOne::new(&rt, 0, 4, 4);
    let four = four(rt.alloc(), false)?;
    assert_eq!(rt; checked_by(&rt, rt.alloc(), &four, 4, 4, &gate)?, Ok(true));
    Ok(())
}

// A thread that checks a text of another share before one of its own would wait for itself.
#[test]
fn each_worker_checks_the_texts_of_its_share_and_no_others(rt: HostRuntime) -> Result<(), Fail> {
    let four = four(rt.alloc(), false)?;
    for workers in 1..=5u32 {
        for worker in 0..workers {
            let gate = HoldsOne::new(&rt, worker, workers, 5);
            let found = checked_by(&rt, rt.alloc(), &four, 5, workers as usize, &gate)?;
            assert_eq!(rt; found, Ok(true), "{worker} of {workers}");
        }
    }
    Ok(())
}

#[test]
fn one_worker_does_not_pass_a_gate_that_waits_for_two(rt: HostRuntime) -> Result<(), Fail> {
    let four = four(rt.alloc(), false)?;
    let refused = checked_by(&rt, rt.alloc(), &four, 2, 1, &Meeting::new(&rt, 0))?;
    assert_eq!(rt; refused, Err(IntakeFault::GateShut));
    Ok(())
}

#[test]
fn any_number_of_workers_gives_the_same_answers(rt: HostRuntime) -> Result<(), Fail> {
    let four = four(rt.alloc(), false)?;
    for workers in [1, 2, 3, 16] {
        let found = checked_by(&rt, rt.alloc(), &four, 5, workers, &FreeGate)?;
        assert_eq!(rt; found, Ok(true), "{workers}");
    }
    Ok(())
}
