//! Settles the sessions of a store, and examines their journals.
use super::records::{are_fronts, are_recorded, begin, calls_of, grows, matches_history, measured};
use super::scenes::Scene;
use super::*;
use nw_store::{Entry, NoMemory, SettleFault, Settled, Unsettled, settle, settle_locked};

/// What a settled store shows.
#[derive(Clone, Copy)]
pub(super) struct Seen {
    /// The numbers of made and of given sessions in the fault that came while one session was missing. Two zeros if all sessions settled
    /// at once.
    pub(super) withheld: (u16, usize),
    /// The number of events.
    pub(super) events: usize,
    /// The number of calls in journals that have exactly the session's calls and replies, in the order of the history.
    pub(super) recorded: usize,
    /// For each number in `MARKS`, the numbers of events and of parts of the first session's front at this number.
    pub(super) measured: [(usize, usize); 4],
}

/// Whether the session's journal has exactly the session's calls of the scene, in order, each with its reply and its front. The history
/// must have these calls in the same order, and begin with each of these fronts.
fn is_exact<L: Home>(
    alloc: Global,
    settled: &Settled<DemoScheme, L>,
    scene: &Scene<'_>,
    session: u16,
    journal: &[Entry<DemoScheme>],
) -> Result<bool, NoMemory> {
    let rows = calls_of(alloc, scene, session)?;
    Ok(
        are_recorded(alloc, journal, scene.links(), &rows)?
            && grows(journal)
            && are_fronts(journal, session)
            && begin(journal, settled.history())
            && matches_history(settled.history(), journal, session),
    )
}

/// The number of calls in exact journals.
fn count_recorded<L: Home>(
    alloc: Global,
    settled: &Settled<DemoScheme, L>,
    scene: &Scene<'_>,
) -> Result<usize, NoMemory> {
    let mut recorded: usize = 0;
    for session in 0..scene.sessions() {
        let journal = settled.journal(session).unwrap_or(&[]);
        if is_exact(alloc, settled, scene, session, journal)? {
            recorded = recorded.saturating_add(journal.len());
        }
    }
    Ok(recorded)
}

/// What the settled store shows, after this fault while a session was missing.
fn seen_in<L: Home>(
    alloc: Global,
    settled: Settled<DemoScheme, L>,
    scene: &Scene<'_>,
    withheld: (u16, usize),
) -> Result<Seen, Fail> {
    let events = settled.history().len();
    let measured = measured(settled.journal(0).unwrap_or(&[]));
    let recorded = count_recorded(alloc, &settled, scene);
    drop(settled);
    Ok(Seen {
        withheld,
        events,
        recorded: recorded?,
        measured,
    })
}

/// Settles all sessions at once. Returns what the settled store shows.
pub(super) fn seen_at_once<L: Home>(
    alloc: Global,
    store: Store<DemoScheme, L>,
    sessions: Vec<Session<DemoScheme, L>>,
    scene: &Scene<'_>,
) -> Result<Seen, Fail> {
    match settle(store, sessions) {
        Ok(settled) => seen_in(alloc, settled, scene, (0, 0)),
        Err(refused) => {
            drop(refused);
            Err(Fail::from("the sessions did not settle at once"))
        }
    }
}

/// Settles the sessions twice: first without the last one, which must fail, and then with all of them.
pub(super) fn seen_settled<L: Home>(
    alloc: Global,
    store: Store<DemoScheme, L>,
    mut sessions: Vec<Session<DemoScheme, L>>,
    scene: &Scene<'_>,
) -> Result<Seen, Fail> {
    let last = sessions.pop();
    match (settle(store, sessions), last) {
        (Err(refused), Some(last)) => seen_of_all(alloc, refused, last, scene),
        (settled, last) => {
            drop(settled);
            drop(last);
            Err(Fail::from("sessions settled although one was missing"))
        }
    }
}

/// Settles all sessions, including the one that was missing before. Returns what the settled store shows.
fn seen_of_all<L: Home>(
    alloc: Global,
    refused: Unsettled<DemoScheme, L>,
    last: Session<DemoScheme, L>,
    scene: &Scene<'_>,
) -> Result<Seen, Fail> {
    let Unsettled {
        fault,
        locked,
        mut sessions,
    } = refused;
    let withheld = withheld(fault, sessions.len());
    let pushed = sessions.push(last);
    match settle_locked(locked, sessions) {
        Ok(settled) => {
            let seen = seen_in(alloc, settled, scene, withheld)?;
            pushed?;
            Ok(seen)
        }
        Err((_, locked, sessions)) => {
            drop(locked);
            drop(sessions);
            Err(Fail::from("the sessions did not settle"))
        }
    }
}

/// The numbers of made and of given sessions in the fault, if the error returned all given sessions. Otherwise two zeros.
fn withheld(fault: SettleFault, back: usize) -> (u16, usize) {
    match fault {
        SettleFault::Unfinished { made, given } if given == back => (made, given),
        _ => (0, 0),
    }
}

/// The texts of the faults. No program gets the second fault: sessions of another store have another type, and no
/// session can be given twice.
const FAULTS: [(SettleFault, &str); 2] = [
    (
        SettleFault::Unfinished { made: 2, given: 1 },
        "1 of 2 sessions",
    ),
    (
        SettleFault::Differs {
            session: 3,
            number: 0,
        },
        "session 3 was not made, or is given twice",
    ),
];

#[test]
fn each_fault_of_a_settlement_has_its_words(rt: HostRuntime) -> Result<(), Fail> {
    for (fault, words) in FAULTS {
        let text = format!(in rt.alloc(); "{fault}")?;
        assert_eq!(rt; text.as_str(), words);
    }
    Ok(())
}
