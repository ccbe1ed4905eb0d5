//! The stores of a script, one after another.
ghost use Rattle.std.specs.Prelude.{◌≡◌};
ghost use Rattle.nw_store.specs.Journal.{origin_of};
ghost use Rattle.nw_store.specs.Lock.{parts_of_a_ledger};

use crate::books::{Start, start_with_limits};
use crate::fault::PlayFault;
use crate::lines::{Lines, read_line};
use crate::output::print;
use crate::player::Player;
use crate::settlement::settle_store;
use nw_interpreter::Bindings;
use nw_script::{LimitsLine, Line, Request};
use nw_sig::DemoScheme;
use nw_store::{Home, Opening};
use std::alloc::Global;
use std::io::Write;
use std::sync::Wait;

/// Why a store plays no further lines.
enum StoreEnd {
    /// The script ended.
    Script,
    /// A `limits` line: another store with these limits takes its place.
    Limits(LimitsLine),
    /// A `settle` line.
    Settle,
}

/// Plays lines on a new store. Returns the start of the store that continues the script, or `None` at its end.
pub fn play_store<'a, L: Home, R: Wait, W: Write>(
    rt: &R,
    alloc: Global,
    opening: Opening<DemoScheme>,
    start: Start,
    bindings: &mut Bindings<'a>,
    lines: &mut Lines<'a>,
    out: &mut W,
) -> Result<Option<Start>, PlayFault>
    requires log { opening.log ≡ L.log }
    requires ledger { (opening.ledger ≡ L.name) × (L.parts ≡ parts_of_a_ledger) }
    requires origin { origin_of start.book ≡ L.origin }
{
    match Player::<L>::new(alloc, opening, start) {
        Ok(player) => play_to_end(rt, alloc, player, bindings, lines, out),
        Err(fault) => Err(PlayFault::at(lines.last_number(), fault)),
    }
}

// Plays lines on the store until it ends, and then settles, replaces or drops it.
fn play_to_end<'a, L: Home, R: Wait, W: Write>(
    rt: &R,
    alloc: Global,
    mut player: Player<L>,
    bindings: &mut Bindings<'a>,
    lines: &mut Lines<'a>,
    out: &mut W,
) -> Result<Option<Start>, PlayFault> {
    match play_all(rt, alloc, &mut player, bindings, lines, out) {
        Ok(StoreEnd::Settle) => settle_store(alloc, player, lines, out),
        Ok(StoreEnd::Limits(line)) => {
            drop(player);
            start_with_limits(alloc, bindings.committee(), line, lines.last_number())
        }
        Ok(StoreEnd::Script) => {
            drop(player);
            Ok(None)
        }
        Err(fault) => {
            drop(player);
            Err(fault)
        }
    }
}

// Makes the first session and plays lines.
fn play_all<'a, L: Home, R: Wait, W: Write>(
    rt: &R,
    alloc: Global,
    player: &mut Player<L>,
    bindings: &mut Bindings<'a>,
    lines: &mut Lines<'a>,
    out: &mut W,
) -> Result<StoreEnd, PlayFault> {
    match player.add_session(rt, alloc) {
        Ok(_) => play_lines(rt, alloc, player, bindings, lines, out),
        Err(fault) => Err(PlayFault::at(lines.last_number(), fault)),
    }
}

// Plays lines on the store, up to and including the line that ends it.
fn play_lines<'a, L: Home, R: Wait, W: Write>(
    rt: &R,
    alloc: Global,
    player: &mut Player<L>,
    bindings: &mut Bindings<'a>,
    lines: &mut Lines<'a>,
    out: &mut W,
) -> Result<StoreEnd, PlayFault> {
    for (number, text) in lines.by_ref() {
        let line = read_line(alloc, number, text)?;
        match &line {
            Line::Skipped => {}
            Line::Request(request) => {
                play_request(rt, alloc, player, bindings, number, request, out)?;
            }
            _ => return end_of(line, player.may_set_limits, number),
        }
    }
    Ok(StoreEnd::Script)
}

// How the line, which is not a request, ends the store. `number` is the line's number.
fn end_of(line: Line<'_>, may_set_limits: bool, number: usize) -> Result<StoreEnd, PlayFault> {
    match line {
        Line::Limits(line) if may_set_limits => Ok(StoreEnd::Limits(line)),
        Line::Settle => Ok(StoreEnd::Settle),
        _ => Err(PlayFault::BadLine { line: number }),
    }
}

// Plays the request of the line with this number, and prints the answer.
fn play_request<'a, L: Home, R: Wait, W: Write>(
    rt: &R,
    alloc: Global,
    player: &mut Player<L>,
    bindings: &mut Bindings<'a>,
    number: usize,
    request: &Request<'a>,
    out: &mut W,
) -> Result<(), PlayFault> {
    match player.answer(rt, alloc, bindings, request) {
        Ok(line) => print(out, line.as_str()),
        Err(fault) => Err(PlayFault::at(number, fault)),
    }
}
