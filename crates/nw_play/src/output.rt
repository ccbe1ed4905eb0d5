//! Printing the lines of a play.

use crate::fault::PlayFault;
use std::io::{self, Write};

/// Prints the line. `Write` if the writer fails.
pub fn print<W: Write>(out: &mut W, line: &str) -> Result<(), PlayFault> {
    written(out.write_all(line.as_bytes()))?;
    written(out.write_all(b"\n"))
}

/// Prints the fault on a line. It takes no memory. `Write` if the writer fails.
pub fn print_fault<W: Write>(out: &mut W, fault: PlayFault) -> Result<(), PlayFault> {
    written(writeln!(out, "{fault}"))
}

/// Writes what is not written yet. `Write` if the writer fails.
pub fn flush<W: Write>(out: &mut W) -> Result<(), PlayFault> {
    written(out.flush())
}

// The outcome of writing, with `Write` for any error of the writer.
fn written(outcome: io::Result<()>) -> Result<(), PlayFault> {
    match outcome {
        Ok(()) => Ok(()),
        Err(_) => Err(PlayFault::Write),
    }
}
