//! Scenes, which tests play on stores. Only this module makes stores whose sessions are settled.
ghost use Rattle.std.specs.Prelude.{◌≡◌};
ghost use Rattle.nw_store.specs.Journal.{origin_of};
ghost use Rattle.nw_store.specs.Lock.{parts_of_a_ledger};

use super::chains::Link;
use super::crowds::in_threads;
use super::notes::exchange_notes;
use super::scripts::{Row, play_script};
use super::settling::{Seen, seen_at_once, seen_settled};
use super::tasks::Crew;
use super::*;
use nw_store::{Opening, TooMany};
use std::marker::Brand;
use std::thread::Threads;

/// What the sessions of a store do.
#[derive(Drop)]
pub(super) enum Scene<'a> {
    /// This many sessions ask the rows in order, about the crew's blocks.
    Script(u16, &'a [Row], &'a Crew),
    /// This many sessions ask the rows in order, and then each does its task of the crew in its own thread.
    Crowd(u16, &'a [Row], &'a Crew),
    /// One of two threads writes these blocks, and sends the other a note after each.
    Notes(&'a [Link]),
}

impl Scene<'_> {
    /// The number of sessions.
    pub(super) fn sessions(&self) -> u16 {
        match self {
            Scene::Script(count, _, _) | Scene::Crowd(count, _, _) => *count,
            Scene::Notes(_) => 2,
        }
    }

    /// The blocks of the scene.
    pub(super) fn links(&self) -> &[Link] {
        match self {
            Scene::Script(_, _, crew) | Scene::Crowd(_, _, crew) => &crew.links,
            Scene::Notes(links) => links,
        }
    }
}

/// Makes this many sessions, which must be as many as the store's limit allows.
fn make_sessions<L: Home, R: Wait>(
    rt: &R,
    alloc: Global,
    store: &Store<DemoScheme, L>,
    sessions: &mut Vec<Session<DemoScheme, L>>,
    count: u16,
) -> Result<(), Fail> {
    for _ in 0..count {
        sessions.push(store.session(rt, alloc)?)?;
    }
    match store.session(rt, alloc) {
        Err(TooMany) => Ok(()),
        Ok(more) => {
            drop(more);
            Err(Fail::from("the store made one session too many"))
        }
    }
}

/// Plays the scene in new sessions of the store.
fn perform<L: Home, R: Threads + Wait + Sync>(
    rt: &R,
    alloc: Global,
    store: &Store<DemoScheme, L>,
    sessions: &mut Vec<Session<DemoScheme, L>>,
    scene: &Scene<'_>,
) -> Result<(), Fail> {
    make_sessions(rt, alloc, store, sessions, scene.sessions())?;
    match scene {
        Scene::Script(_, rows, crew) => {
            drop(play_script(rt, alloc, store, sessions.as_mut_slice(), crew, rows)?);
        }
        Scene::Crowd(_, before, crew) => {
            drop(play_script(rt, alloc, store, sessions.as_mut_slice(), crew, before)?);
            in_threads(rt, alloc, store, sessions.as_mut_slice(), crew);
        }
        Scene::Notes(links) => exchange_notes(rt, alloc, store, sessions, links)?,
    }
    Ok(())
}

/// Plays the scene on the store, and settles its sessions. Those of a crowd settle at once, all others after a try without the last one.
fn on_store<L: Home, R: Threads + Wait + Sync>(
    rt: &R,
    alloc: Global,
    store: Store<DemoScheme, L>,
    scene: &Scene<'_>,
) -> Result<Seen, Fail> {
    let mut sessions = Vec::new(alloc);
    match perform(rt, alloc, &store, &mut sessions, scene) {
        Ok(()) => match scene {
            Scene::Crowd(_, _, _) => seen_at_once(alloc, store, sessions, scene),
            _ => seen_settled(alloc, store, sessions, scene),
        },
        Err(fail) => {
            drop(sessions);
            drop(store);
            Err(fail)
        }
    }
}

/// Plays the scene on a store over the book, and settles its sessions.
fn play<L: Home, R: Threads + Wait + Sync>(
    rt: &R,
    alloc: Global,
    opening: Opening<DemoScheme>,
    book: Book<DemoScheme>,
    scene: &Scene<'_>,
) -> Result<Seen, Fail>
    requires log { opening.log ≡ L.log }
    requires ledger { (opening.ledger ≡ L.name) × (L.parts ≡ parts_of_a_ledger) }
    requires origin { origin_of book ≡ L.origin }
{
    match Store::<DemoScheme, L>::over(opening, book) {
        Ok(store) => on_store(rt, alloc, store, scene),
        Err(book) => {
            drop(book);
            Err(Fail::from("the book has events"))
        }
    }
}

/// Plays the scene on a store with a new opening over the book, and settles its sessions.
pub(super) fn played<R: Threads + Wait + Sync>(
    rt: &R,
    alloc: Global,
    book: Book<DemoScheme>,
    scene: &Scene<'_>,
) -> Result<Seen, Fail> {
    let opening = Opening::new(alloc)?;
    play::<Brand, R>(rt, alloc, opening, book, scene)
}
