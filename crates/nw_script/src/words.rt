//! Reading the words of a line, one after another.

use crate::LineFault;
use crate::lists::list;
use crate::word::{Name, number, number_u16, number_u32, transaction};
use nw_digest::Round;
use std::alloc::Global;

/// The unread words of a line, separated by one space. A line has at least one word, which may be empty.
#[derive(Drop)]
pub struct Words<'a> {
    rest: Option<&'a [u8]>,
}

impl<'a> Words<'a> {
    /// All words of the line.
    pub fn new(line: &'a [u8]) -> Words<'a> {
        Words { rest: Some(line) }
    }

    /// The next word. `Bad` if there is none. The methods below also return `Bad` if the word is not of their kind.
    pub fn next(&mut self) -> Result<&'a [u8], LineFault> {
        let rest = self.rest.take().ok_or(LineFault::Bad)?;
        match rest.iter().position(|byte| *byte == b' ') {
            None => Ok(rest),
            Some(end) => {
                self.rest = Some(&rest[end + 1..]);
                Ok(&rest[..end])
            }
        }
    }

    /// The next word, which must be UTF-8.
    pub fn text(&mut self) -> Result<&'a str, LineFault> {
        str::from_utf8(self.next()?).ok().ok_or(LineFault::Bad)
    }

    /// Whether all words were read.
    pub fn is_empty(&self) -> bool {
        self.rest.is_none()
    }

    /// The next word, which must be a name.
    pub fn name(&mut self) -> Result<Name<'a>, LineFault> {
        Name::new(self.text()?).ok_or(LineFault::Bad)
    }

    /// The next word, which must be a number below 2^64.
    pub fn number(&mut self) -> Result<u64, LineFault> {
        number(self.text()?).ok_or(LineFault::Bad)
    }

    /// The next word, which must be a number below 2^32.
    pub fn number_u32(&mut self) -> Result<u32, LineFault> {
        number_u32(self.text()?).ok_or(LineFault::Bad)
    }

    /// The next word, which must be the number of a round.
    pub fn round(&mut self) -> Result<Round, LineFault> {
        Round::new(self.number()?).ok_or(LineFault::Bad)
    }

    /// The next word, which must be a number below 2^16.
    pub fn number_u16(&mut self) -> Result<u16, LineFault> {
        number_u16(self.text()?).ok_or(LineFault::Bad)
    }

    /// The next word, which must be a list of names.
    pub fn names(&mut self, alloc: Global) -> Result<Vec<Name<'a>>, LineFault> {
        list(alloc, self.text()?, Name::new)
    }

    /// The next word, which must be a list of members.
    pub fn members(&mut self, alloc: Global) -> Result<Vec<u16>, LineFault> {
        list(alloc, self.text()?, number_u16)
    }

    /// The next word, which must be a list of weights.
    pub fn weights(&mut self, alloc: Global) -> Result<Vec<u32>, LineFault> {
        list(alloc, self.text()?, number_u32)
    }

    /// The next word, which must be a list of transactions.
    pub fn transactions(&mut self, alloc: Global) -> Result<Vec<&'a str>, LineFault> {
        list(alloc, self.text()?, transaction)
    }
}
