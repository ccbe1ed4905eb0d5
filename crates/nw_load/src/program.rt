//! A load from the arguments of a program.
use crate::fault::LoadFault;
use crate::launch::load;
use crate::report::NodeReport;
use nw_intake::FreeGate;
use nw_script::number_u32;
use std::alloc::Global;
use std::io::{self, Write};
use std::sync::Wait;
use std::thread::Threads;

/// The exit status if the report was printed.
const DONE: u8 = 0;
/// The exit status if the output could not be written.
const NOT_WRITTEN: u8 = 1;
/// The exit status if the words do not name a load. Then nothing is run or printed.
const BAD_WORDS: u8 = 2;
/// The exit status if the load has no report.
const REFUSED: u8 = 3;

/// Runs the load that the words name, prints its report or fault, and returns the exit status. The status is 2 if the words are not `load`,
/// a number of nodes and a number of rounds. Otherwise it is that of `print_outcome`.
pub fn run<R: Threads + Wait + Sync, W: Write>(
    rt: &R,
    alloc: Global,
    words: &[String],
    out: &mut W,
) -> u8 {
    let Some((nodes, rounds)) = numbers(words) else {
        return BAD_WORDS;
    };
    print_outcome(&load(rt, alloc, nodes, rounds, &FreeGate), out)
}

/// Prints the report or the fault of a load. Returns the exit status: 0 for a report, 3 for a fault, and 1 if the output cannot be written.
pub fn print_outcome<W: Write>(outcome: &Result<Vec<NodeReport>, LoadFault>, out: &mut W) -> u8 {
    let (written, status) = match outcome {
        Ok(reports) => (print_reports(reports, out), DONE),
        Err(fault) => (print_fault(*fault, out), REFUSED),
    };
    match written {
        Ok(()) => status,
        Err(_) => NOT_WRITTEN,
    }
}

/// The numbers of nodes and rounds, or `None` if the words are not `load` and two numbers below 2^32.
fn numbers(words: &[String]) -> Option<(u32, u32)> {
    match words {
        [command, nodes, rounds] if command.as_str() == "load" => {
            Some((number_u32(nodes.as_str())?, number_u32(rounds.as_str())?))
        }
        _ => None,
    }
}

fn print_reports<W: Write>(reports: &[NodeReport], out: &mut W) -> io::Result<()> {
    for (node, report) in reports.iter().enumerate() {
        writeln!(out, "node {node} {report}")?;
    }
    out.flush()
}

fn print_fault<W: Write>(fault: LoadFault, out: &mut W) -> io::Result<()> {
    writeln!(out, "load refused {fault}")?;
    out.flush()
}
