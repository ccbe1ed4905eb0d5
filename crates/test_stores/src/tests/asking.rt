//! Calls of a session, and other requests to a store.
use super::chains::Link;
use super::*;
use nw_digest::Sequence;
use nw_intake::Point;

/// What a session asks of its store, about one block and its certificate.
#[derive(Clone, Copy)]
pub(super) enum Ask {
    Write,
    Certify,
    Certificate,
    Read,
    Open,
    /// Walk the last ticket. This is not a call.
    Walk,
    /// Raise the garbage round to the block's round.
    Collect,
    Missing,
    Status,
    /// Count the generations of the last ticket's view. This is not a call.
    Parts,
    /// Compact the store. This is not a call.
    Compact,
    /// Wait until the gate lets the session pass this point. This is not a call.
    Start(Point),
    /// Tell the gate that this point is reached. This is not a call.
    Reach(Point),
}

/// The number of wanted parents that `Missing` asks for.
pub(super) const MOST: u16 = 3;

/// Makes a call that is not a causal read.
fn call<L: Home, R: Wait>(
    rt: &R,
    alloc: Global,
    store: &Store<DemoScheme, L>,
    session: &mut Session<DemoScheme, L>,
    link: &Link,
    asked: &Ask,
) -> Result<Done<DemoScheme>, NoStep> {
    match asked {
        Ask::Write => store.write(rt, alloc, session, &link.block),
        Ask::Certify => store.certify(rt, alloc, session, &link.certificate),
        Ask::Certificate => store.certificate(rt, alloc, session, link.block.digest()),
        Ask::Read => store.read(rt, alloc, session, link.block.digest()),
        Ask::Collect => store.collect(rt, alloc, session, link.block.block().get().round),
        Ask::Missing => store.missing(rt, alloc, session, MOST),
        _ => store.status(rt, alloc, session),
    }
}

/// Opens a causal read of the block, and keeps the ticket if there is one. Returns the reply in the history.
fn open<L: Home, R: Wait>(
    rt: &R,
    alloc: Global,
    store: &Store<DemoScheme, L>,
    session: &mut Session<DemoScheme, L>,
    link: &Link,
    ticket: &mut Option<Ticket<DemoScheme>>,
) -> Result<Reply, NoStep> {
    match store.open_causal(rt, alloc, session, link.block.digest())? {
        Ok(opened) => {
            *ticket = Some(opened);
            Ok(Reply::Ready)
        }
        Err(done) => {
            *ticket = None;
            Ok(done.reply().try_clone(alloc)?)
        }
    }
}

/// The reply to what the session asks. Keeps the last ticket. A walk without a ticket has the reply `Ready`.
pub(super) fn reply_to<L: Home, R: Wait>(
    rt: &R,
    alloc: Global,
    store: &Store<DemoScheme, L>,
    session: &mut Session<DemoScheme, L>,
    link: &Link,
    ticket: &mut Option<Ticket<DemoScheme>>,
    asked: &Ask,
) -> Result<Reply, NoStep> {
    match asked {
        Ask::Open => open(rt, alloc, store, session, link, ticket),
        Ask::Walk => match ticket {
            Some(ticket) => Ok(Reply::List(Sequence::new(ticket.walk(alloc)?))),
            None => Ok(Reply::Ready),
        },
        _ => Ok(
            call(rt, alloc, store, session, link, asked)?
                .reply()
                .try_clone(alloc)?,
        ),
    }
}
