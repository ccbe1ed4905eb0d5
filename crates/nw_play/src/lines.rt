//! The lines of a script, one after another.
ghost use Rattle.std.specs.Iterator.{at_most};
ghost use Rattle.nw_play.specs.Lines.{lines_left};

use crate::fault::PlayFault;
use nw_script::{Line, LineFault, parse_line};
use std::alloc::Global;

/// The unread lines of a script, each with its number, counted from 1. A script has at least one line, which may be empty.
#[derive(Drop)]
pub struct Lines<'a> {
    rest: Option<&'a [u8]>,
    last_number: usize,
}

impl<'a> Lines<'a> {
    /// All lines of the script.
    pub fn new(script: &'a [u8]) -> Lines<'a> {
        Lines {
            rest: Some(script),
            last_number: 0,
        }
    }

    /// The number of the line read last, or 0 before the first.
    pub fn last_number(&self) -> usize {
        self.last_number
    }

    /// The fault if the line read last is bad.
    pub fn bad_last_line(&self) -> PlayFault {
        PlayFault::BadLine {
            line: self.last_number,
        }
    }

    /// Reads the next line that is not skipped, or returns `None` at the end.
    pub fn next_line(&mut self, alloc: Global) -> Result<Option<Line<'a>>, PlayFault> {
        for (number, text) in self.by_ref() {
            match read_line(alloc, number, text)? {
                Line::Skipped => {}
                line => return Ok(Some(line)),
            }
        }
        Ok(None)
    }
}

impl<'a> Iterator for Lines<'a> {
    type Item = (usize, &'a [u8]);

    ghost remaining = { λ lines. at_most (lines_left lines.rest) };

    fn next(&mut self) -> Option<(usize, &'a [u8])> {
        let rest = self.rest.take()?;
        self.last_number = self.last_number.saturating_add(1);
        match rest.iter().position(|byte| *byte == b'\n') {
            None => Some((self.last_number, rest)),
            Some(end) => {
                self.rest = Some(&rest[end + 1..]);
                Some((self.last_number, &rest[..end]))
            }
        }
    }
}

/// Parses the line, which has this number.
// A `Line` is large. It is inlined, so that it is made in its place.
#[inline(always)]
pub fn read_line(alloc: Global, number: usize, text: &[u8]) -> Result<Line<'_>, PlayFault> {
    match parse_line(alloc, text) {
        Ok(line) => Ok(line),
        Err(LineFault::Bad) => Err(PlayFault::BadLine { line: number }),
        Err(LineFault::NoMemory) => Err(PlayFault::NoMemory),
    }
}
