use nw_book::{
    Book, CheckedBlock, CheckedCert, Command, Done, Front, Limits, Move, NoStep, Ticket,
};
use nw_digest::{Digest, Round, Shared};
use nw_sig::DemoScheme;
use samples::{block, certificate, committee};
use std::alloc::Global;
use std::test::Fail;

mod compacted;
mod reopened;
mod runs;
mod turns;

/// Limits of a book with 16 blocks, four rounds, 16 events and one session.
const LIMITS: Limits = Limits {
    blocks: 16,
    events: 16,
    window: 4,
    sessions: 1,
};

/// A book whose committee has one member.
fn book_of_one(alloc: Global, limits: Limits) -> Result<Book<DemoScheme>, Fail> {
    Ok(Book::new(alloc, committee(alloc, 1)?, limits)?)
}

/// A block and its certificate.
#[derive(Drop)]
struct Link {
    block: CheckedBlock<DemoScheme>,
    certificate: CheckedCert<DemoScheme>,
}

impl Link {
    /// The only member's block of this round with these parents, and its certificate.
    fn new(alloc: Global, round: u64, parents: &[Digest]) -> Result<Link, Fail> {
        let one = committee(alloc, 1)?;
        let block = block(alloc, &one, 0, round, parents)?;
        let certificate = certificate(alloc, &one, 0, round, block.digest())?;
        Ok(Link { block, certificate })
    }

    /// The digest of the block.
    fn digest(&self) -> Digest {
        self.block.digest()
    }

    /// The move that writes the block.
    fn write(&self) -> Move<'_, DemoScheme> {
        Move::Call {
            session: 0,
            command: Command::Write(&self.block),
        }
    }

    /// The move that certifies the block.
    fn certify(&self) -> Move<'_, DemoScheme> {
        Move::Call {
            session: 0,
            command: Command::Certify(&self.certificate),
        }
    }

    /// The move that opens a causal read of the block.
    fn open(&self) -> Move<'_, DemoScheme> {
        Move::Open {
            session: 0,
            digest: self.digest(),
        }
    }

    /// The move that raises the garbage round above the block.
    fn collect(&self) -> Move<'_, DemoScheme> {
        let round = self.block.block().get().round.get() + 1;
        Move::Call {
            session: 0,
            command: Command::Collect(Round::new(round).unwrap_or(Round::ZERO)),
        }
    }
}

/// A block of round 0 and its child.
fn chain(alloc: Global) -> Result<[Link; 2], Fail> {
    let first = Link::new(alloc, 0, &[])?;
    let digest = first.digest();
    Ok([first, Link::new(alloc, 1, &[digest])?])
}

/// Whether the book makes all moves.
fn are_made(book: &mut Book<DemoScheme>, alloc: Global, moves: &[Move<DemoScheme>]) -> bool {
    let run = book.run(alloc, moves);
    let are_made = run.stop.is_none();
    drop(run);
    are_made
}

/// Makes the command's call as the next call of session 0.
fn ask(
    book: &mut Book<DemoScheme>,
    alloc: Global,
    command: &Command<DemoScheme>,
) -> Result<Done<DemoScheme>, NoStep> {
    let number = book.next_number(0)?;
    book.step(alloc, 0, number, command)
}

/// A ticket for the digest, or `None` if the digest is not complete or the read is refused.
fn open(book: &mut Book<DemoScheme>, alloc: Global, digest: Digest) -> Option<Ticket<DemoScheme>> {
    let number = book.next_number(0).ok()?;
    book.open(alloc, 0, number, digest).ok()?.ok()
}

/// A ticket for the second block after the book wrote, certified and opened both, or `None` if a call is refused.
fn opened(
    book: &mut Book<DemoScheme>,
    alloc: Global,
    chain: &[Link; 2],
) -> Option<Ticket<DemoScheme>> {
    let [first, child] = chain;
    let moves = [
        first.write(),
        first.certify(),
        first.open(),
        child.write(),
        child.certify(),
        child.open(),
    ];
    match are_made(book, alloc, &moves) {
        true => open(book, alloc, child.digest()),
        false => None,
    }
}
