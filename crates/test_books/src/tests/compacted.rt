//! Views of tickets, before and after their book is compacted.
use super::*;

/// The number of generations of a ticket's view, the number of blocks that the ticket lists, and whether the view has the parent.
type Seen = (usize, usize, bool);

/// What a case shows, whether the book collects the parent and is compacted between two tickets, and what the second ticket then shows.
type Case = (&'static str, bool, bool, Seen);

/// What the first ticket shows, whatever the book does.
const BEFORE: Seen = (2, 2, true);

const CASES: [Case; 4] = [
    ("each opening adds a part", false, false, (2, 2, true)),
    ("a view keeps a collected block", true, false, (2, 1, true)),
    ("compact joins the parts", false, true, (1, 2, true)),
    ("compact drops a collected block", true, true, (1, 1, false)),
];

/// What the ticket shows.
fn seen(alloc: Global, ticket: &Ticket<DemoScheme>, parent: &Digest) -> Seen {
    let listed = match ticket.walk(alloc) {
        Ok(blocks) => {
            let count = blocks.len();
            drop(blocks);
            count
        }
        Err(_) => 0,
    };
    (
        ticket.view().parts(),
        listed,
        ticket.view().get(parent).is_some(),
    )
}

/// What the first and the second ticket for the child show. The book does what the case says between them.
fn seen_of(
    book: &mut Book<DemoScheme>,
    alloc: Global,
    chain: &[Link; 2],
    case: &Case,
) -> Option<[Seen; 2]> {
    let before = opened(book, alloc, chain)?;
    let later = seen_later(book, alloc, chain, case);
    let seen = seen(alloc, &before, &chain[0].digest());
    drop(before);
    Some([seen, later?])
}

/// What the second ticket shows.
fn seen_later(
    book: &mut Book<DemoScheme>,
    alloc: Global,
    chain: &[Link; 2],
    case: &Case,
) -> Option<Seen> {
    let ([parent, child], (_, collects, compacts, _)) = (chain, case);
    if *collects && !are_made(book, alloc, &[parent.collect()]) {
        return None;
    }
    if *compacts && book.compact(alloc).is_err() {
        return None;
    }
    let later = open(book, alloc, child.digest())?;
    let seen = seen(alloc, &later, &parent.digest());
    drop(later);
    Some(seen)
}

/// What the tickets of a new book show in the case.
fn seen_anew(alloc: Global, chain: &[Link; 2], case: &Case) -> Result<Option<[Seen; 2]>, Fail> {
    let mut book = book_of_one(alloc, LIMITS)?;
    let seen = seen_of(&mut book, alloc, chain, case);
    drop(book);
    Ok(seen)
}

/// The first case whose tickets do not show what it expects, if there is one.
fn first_other(alloc: Global, chain: &[Link; 2]) -> Result<Option<&'static str>, Fail> {
    for case in &CASES {
        if seen_anew(alloc, chain, case)? != Some([BEFORE, case.3]) {
            return Ok(Some(case.0));
        }
    }
    Ok(None)
}

#[test]
fn views_after_compact_have_one_part(rt: HostRuntime) -> Result<(), Fail> {
    let chain = chain(rt.alloc())?;
    let other = first_other(rt.alloc(), &chain);
    drop(chain);
    assert_eq!(rt; other?, None);
    Ok(())
}
