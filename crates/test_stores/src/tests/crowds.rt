//! Sessions of one store, each in its own thread, until all settle.
use super::chains::chain;
use super::late::BEFORE;
use super::plans::Task;
use super::scenes::{Scene, played};
use super::scripts::Row;
use super::tasks::{Crew, work};
use super::*;
use std::sync::atomic::Ordering::SeqCst;
use std::thread::{Threads, for_each_mut};

/// Does each task of the crew in its own thread, with the session at the same place.
pub(super) fn in_threads<L: Home, R: Threads + Wait + Sync>(
    rt: &R,
    alloc: Global,
    store: &Store<DemoScheme, L>,
    sessions: &mut [Session<DemoScheme, L>],
    crew: &Crew,
) {
    for_each_mut(
        rt,
        sessions,
        16,
        &|place, session: &mut Session<DemoScheme, L>| {
            work(rt, alloc, store, session, crew, place);
        },
    );
}

/// On a store with these limits, asks the rows, and then does each task in its own thread, about a chain of `rounds` blocks.
/// Returns the number of events, the number of calls in exact journals, and the number of threads that got only expected replies.
pub(super) fn worked<R: Threads + Wait + Sync>(
    rt: &R,
    alloc: Global,
    limits: Limits,
    rounds: u64,
    before: &[Row],
    tasks: &[Task],
) -> Result<(usize, usize, u64), Fail> {
    let sessions = u16::try_from(tasks.len())?;
    let crew = Crew::new(chain(alloc, rounds)?, tasks.to_vec(alloc)?, limits);
    let book = book(alloc, 1, limits)?;
    let seen = played(rt, alloc, book, &Scene::Crowd(sessions, before, &crew))?;
    let agreeing = crew.agreeing.load(SeqCst);
    drop(crew);
    Ok((seen.events, seen.recorded, agreeing))
}

/// Limits for a chain of 200 blocks and two sessions.
const WIDE: Limits = Limits {
    window: 200,
    sessions: 2,
    ..LIMITS
};

#[test]
fn two_threads_write_a_hundred_blocks_each_and_settle(rt: HostRuntime) -> Result<(), Fail> {
    let tasks = [Task::Share; 2];
    assert_eq!(rt;
        worked(&rt, rt.alloc(), WIDE, 200, &[], &tasks)?,
        (200, 200, 2)
    );
    Ok(())
}

#[test]
fn sixteen_threads_follow_a_chain_and_settle(rt: HostRuntime) -> Result<(), Fail> {
    let tasks = [Task::Follow; 16];
    assert_eq!(rt;
        worked(&rt, rt.alloc(), LIMITS, 4, &[], &tasks)?,
        (16 * 4 * 4, 16 * 4 * 4, 16)
    );
    Ok(())
}

#[test]
fn a_walk_starts_after_a_collection_in_another_thread(rt: HostRuntime) -> Result<(), Fail> {
    let tasks = [Task::Beside; 2];
    assert_eq!(rt;
        worked(&rt, rt.alloc(), limits(4096, 2), 5, &BEFORE, &tasks)?,
        (14, 11 + 3, 2)
    );
    Ok(())
}

#[test]
fn fourteen_readers_beside_a_writer_and_a_collector(rt: HostRuntime) -> Result<(), Fail> {
    let mut tasks = [Task::Read; 16];
    tasks[0] = Task::Write;
    tasks[1] = Task::Collect;
    assert_eq!(rt;
        worked(&rt, rt.alloc(), limits(2048, 16), 64, &[], &tasks)?,
        (1560, 128 + 32 + 14 * 100, 16)
    );
    Ok(())
}
