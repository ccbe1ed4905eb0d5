//! A whole script.
ghost use Rattle.std.specs.Prelude.{◌<◌, length, IfSome, IsErrAnd};
ghost use Rattle.nw_play.specs.Unread.{IsUnread, longest_script};

use crate::books::{Start, default_start, read_committee};
use crate::fault::PlayFault;
use crate::input::read_script;
use crate::lines::Lines;
use crate::output::{flush, print_fault};
use crate::stores::play_store;
use nw_interpreter::Bindings;
use nw_store::Opening;
use std::alloc::Global;
use std::io::{BufWriter, Read, Write};
use std::marker::Brand;
use std::sync::Wait;

/// Plays the script that the reader gives, and prints each answer to the writer on a line.
///
/// It reads the whole script before it plays the first line. `Read` and `TooLong` print nothing. `BadLine` and `Differs` print their
/// text after the answers before them. A script of more than 1,048,576 bytes gives `TooLong`, unless the reader or an allocation
/// fails first. It locks its own stores only, so no other thread holds their locks.
pub fn play<Rt: Wait, R: Read + Drop, W: Write + Drop>(
    rt: &Rt,
    alloc: Global,
    mut reader: R,
    writer: W,
) -> Result<(), PlayFault>
    ensures { IfSome (R.remaining reader)
        (λ bytes. longest_script < length bytes → IsErrAnd result IsUnread) }
{
    let script = read_script(alloc, &mut reader)?;
    let Ok(mut out) = BufWriter::new(alloc, writer) else {
        return Err(PlayFault::NoMemory);
    };
    let played = match play_script(rt, alloc, script.as_slice(), &mut out) {
        Err(PlayFault::Write) => Err(PlayFault::Write),
        played => flush(&mut out).and(played),
    };
    // A writer that failed is not asked again.
    drop(out.into_parts());
    played
}

fn play_script<Rt: Wait, W: Write>(
    rt: &Rt,
    alloc: Global,
    script: &[u8],
    out: &mut W,
) -> Result<(), PlayFault> {
    let played = play_stores(rt, alloc, script, out);
    if let Err(fault @ (PlayFault::BadLine { .. } | PlayFault::Differs { .. })) = played {
        print_fault(out, fault)?;
    }
    played
}

// Each store after the first has a line that starts it, so there are at most as many stores as lines.
fn play_stores<Rt: Wait, W: Write>(
    rt: &Rt,
    alloc: Global,
    script: &[u8],
    out: &mut W,
) -> Result<(), PlayFault> {
    let mut lines = Lines::new(script);
    let committee = read_committee(alloc, &mut lines)?;
    let start = default_start(alloc, &committee, lines.last_number())?;
    let mut bindings = Bindings::new(alloc, committee);
    play_from(
        rt,
        alloc,
        start,
        &mut bindings,
        &mut lines,
        out,
        script.len(),
    )
}

// Plays a store, and at most `more` stores after it.
fn play_from<'a, Rt: Wait, W: Write>(
    rt: &Rt,
    alloc: Global,
    start: Start,
    bindings: &mut Bindings<'a>,
    lines: &mut Lines<'a>,
    out: &mut W,
    more: usize,
) -> Result<(), PlayFault> {
    let mut start = start;
    for _ in 0..=more {
        match play_next(rt, alloc, start, bindings, lines, out)? {
            Some(next) => start = next,
            None => return Ok(()),
        }
    }
    Ok(())
}

// Plays a store under a new brand, and returns the start of the next one.
fn play_next<'a, Rt: Wait, W: Write>(
    rt: &Rt,
    alloc: Global,
    start: Start,
    bindings: &mut Bindings<'a>,
    lines: &mut Lines<'a>,
    out: &mut W,
) -> Result<Option<Start>, PlayFault> {
    match Opening::new(alloc) {
        Ok(opening) => play_store::<Brand, Rt, W>(rt, alloc, opening, start, bindings, lines, out),
        Err(_) => Err(PlayFault::NoMemory),
    }
}
