//! Notes between two threads.
use super::asking::{Ask, reply_to};
use super::chains::{Link, chain};
use super::crowds::worked;
use super::plans::Task;
use super::scenes::{Scene, played};
use super::*;
use crossbeam_channel::{Receiver, Sender, unbounded};
use nw_model::CertifyReply;
use nw_store::{Block, Note};
use std::thread;
use std::thread::Threads;

/// A session that its thread returned, and the number of blocks for which the thread got the expected replies.
type Worked<L> = (Session<DemoScheme, L>, usize);

/// Asks both of these about the block. Returns the reply to the second.
fn asked_both<L: Home, R: Wait>(
    rt: &R,
    alloc: Global,
    store: &Store<DemoScheme, L>,
    session: &mut Session<DemoScheme, L>,
    link: &Link,
    [one, other]: [Ask; 2],
) -> Result<Reply, NoStep> {
    let mut ticket = None;
    let first = reply_to(rt, alloc, store, session, link, &mut ticket, &one);
    let second = reply_to(rt, alloc, store, session, link, &mut ticket, &other);
    drop(ticket);
    drop(first?);
    second
}

/// Writes and certifies each block, and sends a note after each. Returns the session and the number of notes sent.
fn write_all<L: Home, R: Wait>(
    rt: &R,
    alloc: Global,
    store: &Store<DemoScheme, L>,
    mut session: Session<DemoScheme, L>,
    links: &[Link],
    notes: Sender<Note<DemoScheme, L>>,
) -> Worked<L> {
    let mut sent = 0usize;
    for link in links {
        let certified = asked_both(
            rt,
            alloc,
            store,
            &mut session,
            link,
            [Ask::Write, Ask::Certify],
        );
        if matches!(certified, Ok(Reply::Certify(CertifyReply::Certified))) {
            let note = store.note(rt, &mut session);
            if notes.send(rt, note).is_ok() {
                sent = sent.saturating_add(1);
            }
        }
    }
    drop(notes);
    (session, sent)
}

/// Whether the blocks have the rounds from 0 to the last one, in order.
fn is_chain(blocks: &[Shared<Block>], last: u64) -> bool {
    for (block, round) in blocks.iter().zip(0u64..) {
        if block.get().round.get() != round {
            return false;
        }
    }
    (blocks.len() as u64).checked_sub(1) == Some(last)
}

/// Hears a note for each block, and then walks from the block. Returns the session and the number of walks that list the chain up to
/// the block.
fn walk_all<L: Home, R: Wait>(
    rt: &R,
    alloc: Global,
    store: &Store<DemoScheme, L>,
    mut session: Session<DemoScheme, L>,
    links: &[Link],
    notes: Receiver<Note<DemoScheme, L>>,
) -> Worked<L> {
    let mut heard = 0usize;
    for link in links {
        if let Ok(note) = notes.recv(rt) {
            store.hear(rt, &mut session, note);
            let listed = asked_both(rt, alloc, store, &mut session, link, [Ask::Open, Ask::Walk]);
            let last = link.block.block().get().round.get();
            if matches!(&listed, Ok(Reply::List(list)) if is_chain(list.as_slice(), last)) {
                heard = heard.saturating_add(1);
            }
        }
    }
    drop(notes);
    (session, heard)
}

/// Writes the blocks in the first session and walks from each in the second, each session in its own thread. Notes of the first
/// session tell the second when to walk.
pub(super) fn in_both<L: Home, R: Threads + Wait + Sync>(
    rt: &R,
    alloc: Global,
    store: &Store<DemoScheme, L>,
    (one, other): (Session<DemoScheme, L>, Session<DemoScheme, L>),
    links: &[Link],
    (sender, receiver): (Sender<Note<DemoScheme, L>>, Receiver<Note<DemoScheme, L>>),
) -> (Worked<L>, Worked<L>) {
    thread::join(
        rt,
        move || write_all(rt, alloc, store, one, links, sender),
        move || walk_all(rt, alloc, store, other, links, receiver),
    )
}

/// One of two new sessions writes the blocks and sends notes to the other. Both are put back when their threads end.
pub(super) fn exchange_notes<L: Home, R: Threads + Wait + Sync>(
    rt: &R,
    alloc: Global,
    store: &Store<DemoScheme, L>,
    sessions: &mut Vec<Session<DemoScheme, L>>,
    links: &[Link],
) -> Result<(), Fail> {
    let channel = unbounded(alloc)?;
    match (sessions.pop(), sessions.pop()) {
        (Some(other), Some(one)) => {
            let ((one, sent), (other, heard)) = in_both(
                rt,
                alloc,
                store,
                (one, other),
                links,
                channel,
            );
            let first = sessions.push(one);
            let second = sessions.push(other);
            first?;
            second?;
            if sent == links.len() && heard == links.len() {
                Ok(())
            } else {
                Err(Fail::from("a walk after a note gave another list"))
            }
        }
        (one, other) => {
            drop(one);
            drop(other);
            drop(channel);
            Err(Fail::from("there are two sessions"))
        }
    }
}

// Without a note, no clause says which of two sessions' calls comes first. Here the write waits for the read, which finds no block. A
// note of the write is taken after the write, so a session that hears it reads after the write.
#[test]
fn without_a_note_a_read_may_come_before_the_write(rt: HostRuntime) -> Result<(), Fail> {
    let tasks = [Task::Early, Task::Late];
    assert_eq!(rt;
        worked(&rt, rt.alloc(), limits(96, 2), 1, &[], &tasks)?,
        (3, 3, 2)
    );
    Ok(())
}

#[test]
fn a_thread_walks_the_blocks_of_another_after_notes_of_them(rt: HostRuntime) -> Result<(), Fail> {
    let alloc = rt.alloc();
    let links = chain(alloc, 32)?;
    let scene = Scene::Notes(&links);
    let seen = played(&rt, alloc, book(alloc, 1, limits(96, 2))?, &scene)?;
    assert_eq!(rt; (seen.events, seen.recorded), (3 * 32, 3 * 32));
    Ok(())
}
