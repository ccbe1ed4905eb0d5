//! Loads under gates that hold threads.
use nw_intake::{Gate, GateShut, Point, pass_start};
use nw_load::{LoadFault, NodeReport, load};
use samples::Naps;
use std::sync::atomic::AtomicBool;
use std::sync::atomic::Ordering::SeqCst;
use std::test::Fail;
use std::time::Clock;

/// How often a gate that will open naps at most: ten seconds.
const PATIENT: u64 = 10_000;

/// A gate that holds the second write until the first walk was reached, and the first walk until the second write was done.
#[derive(Drop)]
struct Interlocked<C: Clock> {
    walk_reached: AtomicBool,
    write_done: AtomicBool,
    naps: Naps<C>,
}

impl<C: Clock> Interlocked<C> {
    /// A gate before any point is reached, with at most this many naps.
    fn new(clock: C, naps: u64) -> Interlocked<C> {
        Interlocked {
            walk_reached: AtomicBool::new(false),
            write_done: AtomicBool::new(false),
            naps: Naps::new(clock, naps),
        }
    }
}

impl<C: Clock> Gate for Interlocked<C> {
    ghost says = { λ _ _ _. Unit {0} };

    fn reach(&self, point: Point) {
        match point {
            Point::WalkStart { number: 1, .. } => self.walk_reached.store(true, SeqCst),
            Point::WriteDone { number: 2, .. } => self.write_done.store(true, SeqCst),
            _ => {}
        }
    }

    fn may_pass(&self, point: Point) -> bool {
        let passed = match point {
            Point::WriteStart { number: 2, .. } => self.walk_reached.load(SeqCst),
            Point::WalkStart { number: 1, .. } => self.write_done.load(SeqCst),
            _ => true,
        };
        if !passed {
            self.naps.nap();
        }
        passed
    }
}

#[test]
fn a_walk_starts_before_a_write_and_ends_after_it(rt: HostRuntime) -> Result<(), Fail> {
    let gate = Interlocked::new(&rt, PATIENT);
    let reports = load(&rt, rt.alloc(), 1, 2, &gate);
    let wanted = vec![in rt.alloc(); NodeReport { events: 6, last: 2 }; 1]?;
    assert_eq!(rt; reports, Ok(wanted));
    Ok(())
}

// Fails only if the gate refuses a start. Then one thread waited for the other, as on one thread or under one lock.
#[test]
fn neither_thread_of_a_node_blocks_the_other(rt: HostRuntime) {
    let gate = Interlocked::new(&rt, PATIENT);
    let reports = load(&rt, rt.alloc(), 1, 2, &gate);
    assert!(rt; reports != Err(LoadFault::GateShut));
}

/// Passes the starts in order on one thread, and reaches the end of each before the next one.
fn passed<C: Clock>(gate: &Interlocked<C>, starts: &[(Point, Point)]) -> Result<(), GateShut> {
    for (start, done) in starts {
        pass_start(gate, *start)?;
        gate.reach(*done);
    }
    Ok(())
}

/// The start and the end of the write of this number.
const fn write(number: u32) -> (Point, Point) {
    let start = Point::WriteStart { node: 0, number };
    (start, Point::WriteDone { node: 0, number })
}

/// The start and the end of the walk of this number.
const fn walk(number: u32) -> (Point, Point) {
    let start = Point::WalkStart { node: 0, number };
    (start, Point::WalkDone { node: 0, number })
}

#[test]
fn on_one_thread_the_gate_is_shut(rt: HostRuntime) {
    for (shows, starts) in [
        ("the link first", [write(1), write(2), walk(1), walk(2)]),
        ("each in turn", [write(1), walk(1), write(2), walk(2)]),
    ] {
        assert_eq!(rt;
            passed(&Interlocked::new(&rt, 0), &starts),
            Err(GateShut),
            "{shows}"
        );
    }
}

/// A gate that refuses some starts.
#[derive(Clone, Copy, Debug, Drop)]
enum Shut {
    /// It refuses every start.
    Wall,
    /// It refuses every walk, so each client ends early.
    Walks,
    /// It refuses every write of the last of four nodes, so that node's link ends early.
    WritesOfTheLast,
}

impl Gate for Shut {
    ghost says = { λ _ _ _. Unit {0} };

    fn reach(&self, _point: Point) {}

    fn may_pass(&self, point: Point) -> bool {
        match self {
            Shut::Wall => false,
            Shut::Walks => !matches!(point, Point::WalkStart { .. }),
            Shut::WritesOfTheLast => !matches!(point, Point::WriteStart { node: 3, .. }),
        }
    }
}

#[test]
fn a_thread_that_ends_early_ends_the_load(rt: HostRuntime) {
    for (gate, nodes) in [
        (Shut::Wall, 1),
        (Shut::Wall, 4),
        (Shut::Walks, 4),
        (Shut::WritesOfTheLast, 4),
    ] {
        let refused = load(&rt, rt.alloc(), nodes, 3, &gate);
        assert_eq!(rt; refused, Err(LoadFault::GateShut), "{gate:?} {nodes}");
    }
}
