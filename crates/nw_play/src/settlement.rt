//! Settlement, and the store that a script reopens after it.
use crate::books::Start;
use crate::fault::PlayFault;
use crate::lines::Lines;
use crate::output::print;
use crate::player::Player;
use nw_script::Line;
use nw_sig::DemoScheme;
use nw_store::{Home, Settled, settle};
use std::alloc::Global;
use std::fmt::Write as _;
use std::io::Write;

/// Settles the store with all its sessions and prints the counts. Returns the start of the reopened store if the next line is `reopen`.
pub fn settle_store<L: Home, W: Write>(
    alloc: Global,
    player: Player<L>,
    lines: &mut Lines<'_>,
    out: &mut W,
) -> Result<Option<Start>, PlayFault> {
    match settle(player.store, player.sessions) {
        Ok(settled) => finish(alloc, settled, lines, out),
        Err(refused) => {
            let fault = PlayFault::unsettled(lines.last_number(), refused.fault);
            drop(refused);
            Err(fault)
        }
    }
}

// Prints the counts of the settlement. Returns the start of the reopened store if the next line is `reopen`.
fn finish<L: Home, W: Write>(
    alloc: Global,
    settled: Settled<DemoScheme, L>,
    lines: &mut Lines<'_>,
    out: &mut W,
) -> Result<Option<Start>, PlayFault> {
    match is_reopened(alloc, &settled, lines, out) {
        Ok(true) => reopen(alloc, settled, out),
        Ok(false) => {
            drop(settled);
            Ok(None)
        }
        Err(fault) => {
            drop(settled);
            Err(fault)
        }
    }
}

// Prints the counts of the settlement, and returns whether the next line reopens the store. Any other line is bad.
fn is_reopened<L: Home, W: Write>(
    alloc: Global,
    settled: &Settled<DemoScheme, L>,
    lines: &mut Lines<'_>,
    out: &mut W,
) -> Result<bool, PlayFault> {
    print(out, tally(alloc, settled)?.as_str())?;
    match lines.next_line(alloc)? {
        None => Ok(false),
        Some(Line::Reopen) => Ok(true),
        Some(_) => Err(lines.bad_last_line()),
    }
}

// Reopens the settled store. Returns the start of the next store.
fn reopen<L: Home, W: Write>(
    alloc: Global,
    settled: Settled<DemoScheme, L>,
    out: &mut W,
) -> Result<Option<Start>, PlayFault> {
    match settled.reopen(alloc) {
        Ok(book) => print_reopened(Start::without_limits_line(book), out),
        Err(refused) => {
            drop(refused);
            Err(PlayFault::NoMemory)
        }
    }
}

// Prints the line of the reopened store, and returns its start.
fn print_reopened<W: Write>(start: Start, out: &mut W) -> Result<Option<Start>, PlayFault> {
    match print(out, "reopened") {
        Ok(()) => Ok(Some(start)),
        Err(fault) => {
            drop(start);
            Err(fault)
        }
    }
}

// The line of the settlement: the number of events of the history, followed by the number of calls of each session.
fn tally<L: Home>(alloc: Global, settled: &Settled<DemoScheme, L>) -> Result<String, PlayFault> {
    let mut line = format!(in alloc; "settled {}", settled.history().len())?;
    for session in 0..=u16::MAX {
        match calls_of(settled, session) {
            Some(calls) => write!(line, " {calls}")?,
            None => break,
        }
    }
    Ok(line)
}

// The number of calls of the session, or `None` if no session has this id.
fn calls_of<L: Home>(settled: &Settled<DemoScheme, L>, session: u16) -> Option<usize> {
    match settled.journal(session) {
        Some(journal) => Some(journal.len()),
        None => None,
    }
}
