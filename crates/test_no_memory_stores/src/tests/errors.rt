//! The texts of errors.
use super::*;
use nw_store::TooMany;
use std::fmt::Display;

const OF_BOOKS: [(BookError, &str); 2] = [
    (BookError::BadLimits, "a limit is out of range"),
    (BookError::NoMemory, "out of memory"),
];

const OF_STEPS: [(NoStep, &str); 4] = [
    (NoStep::OutOfTurn, "out of turn"),
    (NoStep::OtherCommittee, "checked under another committee"),
    (NoStep::HistoryFull, "the history is full"),
    (NoStep::NoMemory, "out of memory"),
];

/// The text of the error.
fn text_of<T: Display>(alloc: Global, error: &T) -> Result<String, AllocError> {
    format!(in alloc; "{error}")
}

/// The first text of the table that differs from the text of its error, if there is one.
fn wrong_text<T: Display>(
    alloc: Global,
    table: &[(T, &'static str)],
) -> Result<Option<&'static str>, AllocError> {
    for (error, text) in table {
        if retry!(AllocError, text_of(alloc, error))?.as_str() != *text {
            return Ok(Some(*text));
        }
    }
    Ok(None)
}

#[test]
fn errors_have_their_texts(rt: HostRuntime) -> Result<(), Fail> {
    let alloc = rt.alloc();
    let wrong = [
        wrong_text(alloc, &OF_BOOKS)?,
        wrong_text(alloc, &OF_STEPS)?,
        wrong_text(alloc, &[(TooMany, "too many sessions")])?,
    ];
    assert_eq!(rt; wrong, [None; 3]);
    Ok(())
}
