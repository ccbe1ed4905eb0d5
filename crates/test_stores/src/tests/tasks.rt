//! Sessions that do their tasks on one chain, each in its own thread.
use super::asking::reply_to;
use super::chains::Link;
use super::followers::Follower;
use super::late::BESIDE;
use super::plans::{Plan, Task};
use super::scripts::play_own;
use super::*;
use nw_intake::{Gate, Point, pass_start};
use nw_model::CertifyReply;
use std::sync::atomic::AtomicU64;
use std::sync::atomic::Ordering::SeqCst;
use std::thread::yield_now;

/// The number of times that a session tries to pass the gate.
const TRIES: u32 = 20;

/// The blocks, the tasks of the sessions, and the counters that make sessions wait for each other.
#[derive(Drop)]
pub(super) struct Crew {
    pub(super) links: Vec<Link>,
    tasks: Vec<Task>,
    limits: Limits,
    /// The number of certified links, and of early reads that found no block.
    steps: AtomicU64,
    /// The number of walks that reached their start point.
    walks: AtomicU64,
    /// The number of writes that are done.
    writes: AtomicU64,
    /// The number of sessions that got only expected replies and walks.
    pub(super) agreeing: AtomicU64,
}

impl Crew {
    /// A crew that has done nothing yet.
    pub(super) fn new(links: Vec<Link>, tasks: Vec<Task>, limits: Limits) -> Crew {
        Crew {
            links,
            tasks,
            limits,
            steps: AtomicU64::new(0),
            walks: AtomicU64::new(0),
            writes: AtomicU64::new(0),
            agreeing: AtomicU64::new(0),
        }
    }

    /// The plan of the session at this place, or `None` if rows describe its task.
    pub(super) fn plan(&self, place: usize) -> Option<&'static Plan> {
        self.tasks.get(place)?.plan()
    }

    /// Counts a step, if this reply lets other sessions continue.
    fn count_step(&self, reply: &Reply, plan: &Plan) {
        let counts = match reply {
            Reply::Certify(CertifyReply::Certified) => true,
            Reply::Read(None) => plan.early,
            _ => false,
        };
        if counts {
            self.reach(Point::CheckDone(0));
        }
    }

    /// Waits until the session may pass the start point, or all tries are used up. Returns whether it may pass.
    pub(super) fn passes(&self, start: Point) -> bool {
        for _ in 0..TRIES {
            if pass_start(self, start).is_ok() {
                return true;
            }
        }
        false
    }
}

/// The crew is the gate of its sessions. A session may pass a start point when a counter has reached the number of the point. The counter
/// is `steps` for a check, `walks` for a write, and `writes` for a walk. `may_pass` yields before it returns `false`.
impl Gate for Crew {
    ghost says = { λ _ _ _. Unit {0} };

    fn reach(&self, point: Point) {
        let counter = match point {
            Point::CheckDone(_) => &self.steps,
            Point::WalkStart { .. } => &self.walks,
            Point::WriteDone { .. } => &self.writes,
            _ => return,
        };
        counter.fetch_add(1, SeqCst);
    }

    fn may_pass(&self, point: Point) -> bool {
        let (counter, number) = match point {
            Point::CheckStart(number) => (&self.steps, number),
            Point::WriteStart { number, .. } => (&self.walks, number),
            Point::WalkStart { number, .. } => (&self.writes, number),
            _ => return true,
        };
        let passed = counter.load(SeqCst) >= u64::from(number);
        if !passed {
            yield_now();
        }
        passed
    }
}

/// Does the task at this place, and counts the session if it got only expected replies and walks.
pub(super) fn work<L: Home, R: Wait>(
    rt: &R,
    alloc: Global,
    store: &Store<DemoScheme, L>,
    session: &mut Session<DemoScheme, L>,
    crew: &Crew,
    place: usize,
) {
    let is_done = match crew.plan(place) {
        Some(plan) => follows(rt, alloc, store, session, crew, plan),
        None => play_own(rt, alloc, store, session, crew, &BESIDE),
    };
    if is_done {
        crew.agreeing.fetch_add(1, SeqCst);
    }
}

/// Takes all turns of the plan, with a new follower. Returns whether each reply and each walk is the expected one.
fn follows<L: Home, R: Wait>(
    rt: &R,
    alloc: Global,
    store: &Store<DemoScheme, L>,
    session: &mut Session<DemoScheme, L>,
    crew: &Crew,
    plan: &Plan,
) -> bool {
    let mut follower = Follower::new(alloc, crew.limits);
    let mut ticket = None;
    let done = turns(
        rt,
        alloc,
        store,
        session,
        crew,
        &mut follower,
        &mut ticket,
        plan,
    );
    drop(follower);
    drop(ticket);
    matches!(done, Ok(true))
}

/// Takes all turns of the plan. Returns whether each reply and each walk is the expected one.
fn turns<L: Home, R: Wait>(
    rt: &R,
    alloc: Global,
    store: &Store<DemoScheme, L>,
    session: &mut Session<DemoScheme, L>,
    crew: &Crew,
    follower: &mut Follower,
    ticket: &mut Option<Ticket<DemoScheme>>,
    plan: &Plan,
) -> Result<bool, NoStep> {
    for turn in 0..plan.turns {
        let kept = crew.passes(Point::CheckStart(plan.waits(turn)));
        let Some(link) = crew.links.get(plan.place(turn, session.id())) else {
            return Ok(false);
        };
        let asked = ask_all(rt, alloc, store, session, crew, link, ticket, plan)?;
        if !kept || !asked || !follower.agrees(alloc, ticket)? {
            return Ok(false);
        }
    }
    Ok(true)
}

/// Asks all that the plan asks about the link. Returns whether each reply is the expected one.
fn ask_all<L: Home, R: Wait>(
    rt: &R,
    alloc: Global,
    store: &Store<DemoScheme, L>,
    session: &mut Session<DemoScheme, L>,
    crew: &Crew,
    link: &Link,
    ticket: &mut Option<Ticket<DemoScheme>>,
    plan: &Plan,
) -> Result<bool, NoStep> {
    let round = link.block.block().get().round.get();
    for asked in plan.asks {
        let reply = reply_to(rt, alloc, store, session, link, ticket, asked)?;
        crew.count_step(&reply, plan);
        if !plan.accepts(&reply, round) {
            return Ok(false);
        }
    }
    Ok(true)
}
