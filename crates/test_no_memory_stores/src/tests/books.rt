//! Books that are reopened. A book whose reopening is refused comes back, and is reopened once more.
use super::asking::{Ask, Row};
use super::examples::{CERTIFIED, STORED, new_book};
use super::fixture::{Fixture, Link, TWO};
use super::*;
use nw_store::Done;

/// The rows for a book, for the reopened one, and for the one that is reopened after that.
const FIRST: [Row; 2] = [Row(0, Ask::Write, STORED), Row(0, Ask::Certify, CERTIFIED)];

const SECOND: [Row; 3] = [
    Row(1, Ask::Write, "Equivocates(0)"),
    Row(0, Ask::Write, "Write(Held)"),
    Row(0, Ask::Collect(1), "Collect(Raised { dropped: 1 })"),
];

const THIRD: [Row; 1] = [Row(1, Ask::Write, "Write(Collected(Round { number: 1 }))")];

/// Makes session 0's call of this number: a write, a certificate or a collection.
fn call(
    book: &mut Book<DemoScheme>,
    alloc: Global,
    link: &Link,
    number: u32,
    asked: &Ask,
) -> Result<Done<DemoScheme>, NoStep> {
    match asked {
        Ask::Write => book.step(alloc, 0, number, &Command::Write(&link.block)),
        Ask::Certify => book.step(alloc, 0, number, &Command::Certify(&link.certificate)),
        Ask::Collect(round) => {
            let round = Round::new(*round).unwrap_or(Round::ZERO);
            book.step(alloc, 0, number, &Command::Collect(round))
        }
        _ => book.step(alloc, 0, number, &Command::Status),
    }
}

/// Makes the row's call, which is session 0's call of this number. Returns whether the reply is the expected one.
fn is_answered(
    book: &mut Book<DemoScheme>,
    alloc: Global,
    fixture: &Fixture,
    number: u32,
    row: &Row,
) -> Result<bool, Fail> {
    let Row(place, asked, expected) = row;
    let Some(link) = fixture.links.get(*place) else {
        return Ok(false);
    };
    let done = retry!(NoStep::NoMemory, call(book, alloc, link, number, asked))?;
    let has_text = fixture.has_text(alloc, done.reply(), expected);
    drop(done);
    Ok(has_text?)
}

/// Makes the calls of the rows in order. Returns whether each reply is the expected one, and the history has no other events.
fn are_answered(
    book: &mut Book<DemoScheme>,
    alloc: Global,
    fixture: &Fixture,
    rows: &[Row],
) -> Result<bool, Fail> {
    for (row, number) in rows.iter().zip(1u32..) {
        if !is_answered(book, alloc, fixture, number, row)? {
            return Ok(false);
        }
    }
    Ok(book.history().len() == rows.len())
}

/// The reopened book. If an allocation fails, the book must come back with this many events, and is reopened once more.
fn reopened(
    alloc: Global,
    book: Book<DemoScheme>,
    events: usize,
) -> Result<Book<DemoScheme>, Fail> {
    match book.reopen(alloc) {
        Ok(book) => Ok(book),
        Err((NoMemory, book)) => {
            if book.history().len() != events {
                drop(book);
                return Err(Fail::from("a refused book comes back as it was"));
            }
            match book.reopen(alloc) {
                Ok(book) => Ok(book),
                Err((refused, book)) => {
                    drop(book);
                    Err(Fail::from(refused))
                }
            }
        }
    }
}

/// The reopened book, if it gave all expected replies before.
fn reopened_after(
    alloc: Global,
    mut book: Book<DemoScheme>,
    fixture: &Fixture,
    rows: &[Row],
) -> Result<Book<DemoScheme>, Fail> {
    match are_answered(&mut book, alloc, fixture, rows) {
        Ok(true) => reopened(alloc, book, rows.len()),
        other => {
            drop(book);
            other?;
            Err(Fail::from("a book gave another reply"))
        }
    }
}

#[test]
fn a_book_of_a_reopened_store_votes_once(rt: HostRuntime) -> Result<(), Fail> {
    let alloc = rt.alloc();
    let fixture = Fixture::new(alloc, &[0], &TWO)?;
    let first = retry!(BookError::NoMemory, new_book(alloc, &fixture))?;
    let second = reopened_after(alloc, first, &fixture, &FIRST)?;
    let third = reopened_after(alloc, second, &fixture, &SECOND)?;
    let last = reopened_after(alloc, third, &fixture, &THIRD)?;
    let (is_empty, has_base) = (last.history().is_empty(), last.history().base().is_some());
    drop(last);
    assert!(rt; is_empty && has_base);
    Ok(())
}
