//! Calls that are refused as out of turn, as checked under another committee, or because the history is full. Limits out of range.
use super::*;
use nw_book::BookError;
use nw_check::CheckedBlock;

/// Writes by session 0, in order, in a book of one member whose history may have one event. Each has the number of the call, the number
/// of members of the block's committee, and the refusal, if there is one.
const ASKED: [(u32, u16, Option<NoStep>); 6] = [
    (2, 4, Some(NoStep::OutOfTurn)),
    (2, 1, Some(NoStep::OutOfTurn)),
    (1, 4, Some(NoStep::OtherCommittee)),
    (1, 1, None),
    (2, 4, Some(NoStep::OtherCommittee)),
    (2, 1, Some(NoStep::HistoryFull)),
];

/// The refusals of the block's write: that of `may_step`, and that of `step`.
fn refusals(
    book: &mut Book<DemoScheme>,
    alloc: Global,
    number: u32,
    block: CheckedBlock<DemoScheme>,
) -> [Option<NoStep>; 2] {
    // The prover finds the types that a command may borrow only in the function that makes the command.
    let _certificate: Option<&CheckedCert<DemoScheme>> = None;
    let command = Command::Write(&block);
    let said = book.may_step(0, number, command.committee()).err();
    let refused = book.step(alloc, 0, number, &command).err();
    drop(block);
    [said, refused]
}

/// Makes the calls of `ASKED` in order. Returns the number of the first one with an unexpected outcome, if there is one.
fn first_other(book: &mut Book<DemoScheme>, alloc: Global) -> Result<Option<u32>, Fail> {
    for (number, members, why) in ASKED {
        let under = committee(alloc, members)?;
        let block = block(alloc, &under, 0, 0, &[]);
        drop(under);
        let block = block?;
        if refusals(book, alloc, number, block) != [why; 2] {
            return Ok(Some(number));
        }
    }
    Ok(None)
}

#[test]
fn out_of_turn_then_another_committee(rt: HostRuntime) -> Result<(), Fail> {
    let limits = Limits {
        events: 1,
        ..LIMITS
    };
    let mut book = book_of_one(rt.alloc(), limits)?;
    let other = first_other(&mut book, rt.alloc());
    let full = book.may_step(0, 2, None);
    drop(book);
    assert_eq!(rt; other?, None);
    assert_eq!(rt; full, Err(NoStep::HistoryFull));
    Ok(())
}

/// Limits, in the order of their fields, and the error of a book with them, if there is one.
const LIMITED: [([u32; 4], Option<BookError>); 10] = [
    ([1, 1, 1, 1], None),
    ([65_536, 65_536, 4_096, 256], None),
    ([0, 1, 1, 1], Some(BookError::BadLimits)),
    ([65_537, 1, 1, 1], Some(BookError::BadLimits)),
    ([1, 0, 1, 1], Some(BookError::BadLimits)),
    ([1, 65_537, 1, 1], Some(BookError::BadLimits)),
    ([1, 1, 0, 1], Some(BookError::BadLimits)),
    ([1, 1, 4_097, 1], Some(BookError::BadLimits)),
    ([1, 1, 1, 0], Some(BookError::BadLimits)),
    ([1, 1, 1, 257], Some(BookError::BadLimits)),
];

#[test]
fn bad_limits(rt: HostRuntime) -> Result<(), Fail> {
    for ([blocks, events, window, sessions], why) in LIMITED {
        let limits = Limits {
            blocks,
            events,
            window,
            sessions,
        };
        let book = Book::<DemoScheme>::new(rt.alloc(), committee(rt.alloc(), 1)?, limits);
        assert_eq!(rt; book.err(), why, "{limits:?}");
    }
    Ok(())
}
