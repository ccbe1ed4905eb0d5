//! The books that stores start from.
use crate::fault::PlayFault;
use crate::lines::Lines;
use nw_committee::Committee;
use nw_digest::Shared;
use nw_interpreter::{LineFault, committee};
use nw_script::{CommitteeLine, LimitsLine, Line};
use nw_sig::DemoScheme;
use nw_store::{Book, BookError, Limits};
use std::alloc::Global;

// The limits of a script without a `limits` line.
const DEFAULT_LIMITS: Limits = Limits {
    blocks: 1024,
    events: 1024,
    window: 64,
    sessions: 16,
};

/// The book from which a store of a script starts, and whether the script may still change its limits.
#[derive(Drop)]
pub struct Start {
    pub book: Book<DemoScheme>,
    /// Whether its first line may be a `limits` line.
    pub may_set_limits: bool,
}

impl Start {
    /// A start after which no `limits` line may come.
    pub fn without_limits_line(book: Book<DemoScheme>) -> Start {
        Start {
            book,
            may_set_limits: false,
        }
    }
}

/// Reads the committee from the first line that is not skipped. `BadLine` if that line names no committee.
pub fn read_committee(
    alloc: Global,
    lines: &mut Lines<'_>,
) -> Result<Shared<Committee>, PlayFault> {
    match lines.next_line(alloc)? {
        Some(Line::Committee(line)) => match shared_committee(alloc, &line) {
            Ok(committee) => Ok(committee),
            Err(fault) => Err(PlayFault::at(lines.last_number(), fault)),
        },
        _ => Err(lines.bad_last_line()),
    }
}

/// The start of a script: an empty book under the default limits. `number` is the line number for a `BadLine` error.
pub fn default_start(
    alloc: Global,
    committee: &Shared<Committee>,
    number: usize,
) -> Result<Start, PlayFault> {
    Ok(Start {
        book: new_book(alloc, committee, DEFAULT_LIMITS, number)?,
        may_set_limits: true,
    })
}

/// The start after the `limits` line with this number: an empty book under its limits. `BadLine` if a limit is out of range.
pub fn start_with_limits(
    alloc: Global,
    committee: &Shared<Committee>,
    line: LimitsLine,
    number: usize,
) -> Result<Option<Start>, PlayFault> {
    let limits = Limits {
        blocks: line.blocks,
        events: line.events,
        window: line.window,
        sessions: line.sessions,
    };
    Ok(Some(Start::without_limits_line(new_book(alloc, committee, limits, number)?)))
}

fn shared_committee(alloc: Global, line: &CommitteeLine) -> Result<Shared<Committee>, LineFault> {
    Ok(Shared::new(alloc, committee(alloc, line)?)?)
}

// An empty book with these limits. `number` is the line number for a `BadLine` error.
fn new_book(
    alloc: Global,
    committee: &Shared<Committee>,
    limits: Limits,
    number: usize,
) -> Result<Book<DemoScheme>, PlayFault> {
    match Book::new(alloc, committee.try_clone()?, limits) {
        Ok(book) => Ok(book),
        Err(BookError::BadLimits) => Err(PlayFault::BadLine { line: number }),
        Err(BookError::NoMemory) => Err(PlayFault::NoMemory),
    }
}
