//! Reopened books, and tickets from before and after reopening.
use super::*;
use nw_book::Agreement;
use nw_model::{Reply, WriteReply};
use samples::block_with;

/// The replies to the writes of the other block and of the first one, and the front of the last answer.
fn answers(
    book: &mut Book<DemoScheme>,
    alloc: Global,
    other: &CheckedBlock<DemoScheme>,
    first: &Link,
) -> Result<([Reply; 2], Front<DemoScheme>), NoStep> {
    let one = ask(book, alloc, &Command::Write(other))?;
    let two = ask(book, alloc, &Command::Write(&first.block))?;
    let replies = [one.reply().try_clone(alloc)?, two.reply().try_clone(alloc)?];
    Ok((replies, two.front().try_clone()?))
}

/// Whether the front's base has this certified block of round 0 and author 0. The base must have no first digest for author 1, and no
/// block under the digest of zeros.
fn starts_with(front: &Front<DemoScheme>, digest: Digest) -> bool {
    let Some(base) = front.base() else {
        return false;
    };
    base.floor() == Round::ZERO
        && base.first(Round::ZERO, 0) == Some(digest)
        && base.first(Round::ZERO, 1).is_none()
        && base.block(&digest).is_some()
        && base.certificate(&digest).is_some()
        && base.block(&Digest([0; 32])).is_none()
}

/// Whether the book does not vote for a second block of the slot, and still holds the first, which is in its base.
fn votes_for_none(
    book: &mut Book<DemoScheme>,
    alloc: Global,
    other: &CheckedBlock<DemoScheme>,
    first: &Link,
) -> Result<bool, NoStep> {
    let (replies, front) = answers(book, alloc, other, first)?;
    let digest = first.digest();
    let is_so = front.len() == 2 && starts_with(&front, digest) && are_refused(&replies, digest);
    drop(replies);
    drop(front);
    Ok(is_so)
}

/// Whether the slot of the first write has another first digest, and the second write's block is held.
fn are_refused(replies: &[Reply; 2], first: Digest) -> bool {
    matches!(&replies[0], Reply::Write(WriteReply::Equivocates(other)) if *other == first)
        && matches!(&replies[1], Reply::Write(WriteReply::Held))
}

/// The reopened book, if it does not vote for a second block of the slot.
fn goes_on(
    alloc: Global,
    book: Book<DemoScheme>,
    other: &CheckedBlock<DemoScheme>,
    first: &Link,
) -> Option<Book<DemoScheme>> {
    let mut book = book.reopen(alloc).ok()?;
    match votes_for_none(&mut book, alloc, other, first) {
        Ok(true) => Some(book),
        _ => {
            drop(book);
            None
        }
    }
}

/// Whether a book with the first block does not vote for the other after it is reopened, once and then once more.
fn goes_on_twice(
    alloc: Global,
    other: &CheckedBlock<DemoScheme>,
    first: &Link,
) -> Result<bool, Fail> {
    let mut book = book_of_one(alloc, LIMITS)?;
    if !are_made(&mut book, alloc, &[first.write(), first.certify()]) {
        drop(book);
        return Ok(false);
    }
    let Some(book) = goes_on(alloc, book, other, first) else {
        return Ok(false);
    };
    Ok(goes_on(alloc, book, other, first).is_some())
}

#[test]
fn a_reopened_book_votes_for_no_second_block_of_a_slot(rt: HostRuntime) -> Result<(), Fail> {
    let other = block_with(rt.alloc(), &committee(rt.alloc(), 1)?, b"x")?;
    let first = Link::new(rt.alloc(), 0, &[])?;
    let goes_on = goes_on_twice(rt.alloc(), &other, &first);
    drop(first);
    drop(other);
    assert!(rt; goes_on?);
    Ok(())
}

/// Whether the tickets list the same blocks.
fn agree(alloc: Global, one: &Ticket<DemoScheme>, other: &Ticket<DemoScheme>) -> bool {
    one.digest() == other.digest()
        && one.view().floor() == other.view().floor()
        && matches!(one.agree(alloc, other), Ok(Agreement::Same))
}

/// A ticket for the second block from a new book, and the book.
fn opened_anew(
    alloc: Global,
    chain: &[Link; 2],
) -> Result<(Ticket<DemoScheme>, Book<DemoScheme>), Fail> {
    let mut book = book_of_one(alloc, LIMITS)?;
    match opened(&mut book, alloc, chain) {
        Some(ticket) => Ok((ticket, book)),
        None => {
            drop(book);
            Err(Fail::from("a ticket is opened"))
        }
    }
}

/// A ticket for the digest from the reopened book.
fn opened_later(
    book: Book<DemoScheme>,
    alloc: Global,
    digest: Digest,
) -> Option<Ticket<DemoScheme>> {
    let mut book = book.reopen(alloc).ok()?;
    let ticket = open(&mut book, alloc, digest);
    drop(book);
    ticket
}

/// Whether a ticket for the digest from the reopened book agrees with this one.
fn later_agrees(
    alloc: Global,
    book: Book<DemoScheme>,
    ticket: &Ticket<DemoScheme>,
    digest: Digest,
) -> bool {
    match opened_later(book, alloc, digest) {
        None => false,
        Some(later) => {
            let agrees = agree(alloc, ticket, &later) && agree(alloc, &later, ticket);
            drop(later);
            agrees
        }
    }
}

/// Whether a ticket from another new book agrees with this one.
fn other_agrees(
    alloc: Global,
    chain: &[Link; 2],
    ticket: &Ticket<DemoScheme>,
) -> Result<bool, Fail> {
    let (other, book) = opened_anew(alloc, chain)?;
    drop(book);
    let agrees = agree(alloc, ticket, &other);
    drop(other);
    Ok(agrees)
}

/// Whether three tickets for the second block agree: those of two books, and one of the first book after it is reopened.
fn three_agree(alloc: Global, chain: &[Link; 2]) -> Result<bool, Fail> {
    let (ticket, book) = opened_anew(alloc, chain)?;
    let later = later_agrees(alloc, book, &ticket, chain[1].digest());
    let other = other_agrees(alloc, chain, &ticket);
    drop(ticket);
    Ok(other? && later)
}

#[test]
fn tickets_of_two_books_and_of_a_reopened_one_agree(rt: HostRuntime) -> Result<(), Fail> {
    let chain = chain(rt.alloc())?;
    let agree = three_agree(rt.alloc(), &chain);
    drop(chain);
    assert!(rt; agree?);
    Ok(())
}
