//! Lines that a play prints, without their line ends.

use crate::fault::LineFault;
use nw_digest::{Digest, digest_of};
use nw_script::Name;
use std::alloc::Global;
use std::fmt::{Display, Write};

/// The room that a line starts with, in bytes. Most answers are shorter.
const ROOM: usize = 128;

/// An empty line, with room for most answers. `NoMemory` if an allocation fails.
pub fn empty_line(alloc: Global) -> Result<String, LineFault> {
    Ok(String::with_capacity(alloc, ROOM)?)
}

/// The line with the name and the words. `NoMemory` if an allocation fails.
pub(crate) fn named(alloc: Global, name: Name<'_>, words: &str) -> Result<String, LineFault> {
    let mut line = empty_line(alloc)?;
    line.push_str(name.as_str())?;
    line.push(' ')?;
    line.push_str(words)?;
    Ok(line)
}

/// The line with the name, the words and the number or name. `NoMemory` if an allocation fails.
pub(crate) fn named_with<T: Display + Drop>(
    alloc: Global,
    name: Name<'_>,
    words: &str,
    last: T,
) -> Result<String, LineFault> {
    let mut line = named(alloc, name, words)?;
    write!(line, " {last}")?;
    Ok(line)
}

/// The line for a block or a certificate that breaks a rule: its name and the rule. `NoMemory` if an allocation fails.
pub fn refused<F: Display + Drop>(
    alloc: Global,
    name: Name<'_>,
    rule: F,
) -> Result<String, LineFault> {
    named_with(alloc, name, "refused", rule)
}

/// The line with SHA-256 of the word's bytes in hex. `NoMemory` if an allocation fails.
pub fn hash(alloc: Global, word: &str) -> Result<String, LineFault> {
    let Digest(bytes) = digest_of(word.as_bytes());
    Ok(hex::encode(alloc, bytes.as_slice())?)
}
