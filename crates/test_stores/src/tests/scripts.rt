//! Scripts: rows that sessions ask in order, each with its expected reply.
use super::asking::{Ask, reply_to};
use super::chains::Link;
use super::tasks::Crew;
use super::*;
use nw_intake::Gate;
use nw_model::Wanted;
use nw_store::{Block, NoMemory};

/// The place of a session, the place of a block, what the session asks, and the text of the expected reply. An empty text
/// matches any reply in a journal.
#[derive(Clone, Copy)]
pub(super) struct Row(
    pub(super) usize,
    pub(super) usize,
    pub(super) Ask,
    pub(super) &'static str,
);

/// The parent that is not held.
pub(super) const PARENT: Digest = Digest([7; 32]);

impl Row {
    /// Whether the session's journal records it: it is a call that is not refused.
    pub(super) fn is_recorded(&self) -> bool {
        match self.2 {
            Ask::Walk | Ask::Parts | Ask::Compact | Ask::Start(_) | Ask::Reach(_) => false,
            _ => !self.3.starts_with(REFUSED),
        }
    }
}

/// The beginning of a refusal's text.
const REFUSED: &str = "refused ";

/// The places of the blocks among the links. A block that no link has is at the place after the last.
fn places_of(
    alloc: Global,
    blocks: &[Shared<Block>],
    links: &[Link],
) -> Result<Vec<usize>, NoMemory> {
    let mut places = Vec::new(alloc);
    for block in blocks {
        let place = links
            .iter()
            .position(|link: &Link| link.block.block().get() == block.get());
        places.push(place.unwrap_or(links.len()))?;
    }
    Ok(places)
}

/// The text of the reply. For a block or certificate it says whether it is that of the link, and for a list it has the places of the blocks
/// among the links. For a single wanted parent it has its round, its author, and whether it is `PARENT`; otherwise the number of wanted
/// parents.
pub(super) fn text_of(
    alloc: Global,
    reply: &Reply,
    link: &Link,
    links: &[Link],
) -> Result<String, NoMemory> {
    match reply {
        Reply::Certificate(Some(kept)) => {
            let is_it = kept.get() == link.certificate.certificate().get();
            Ok(format!(in alloc; "Certificate({is_it})")?)
        }
        Reply::Read(Some(found)) => {
            let is_it = found.get() == link.block.block().get();
            Ok(format!(in alloc; "Read({is_it})")?)
        }
        Reply::List(blocks) => {
            let places = places_of(alloc, blocks.as_slice(), links)?;
            Ok(format!(in alloc; "List({places:?})")?)
        }
        Reply::Missing(wanted) => match wanted.as_slice() {
            [only] => {
                let is_it = only.digest == PARENT;
                Ok(format!(in alloc; "Missing({}, {}, {is_it})", only.round.get(), only.author)?)
            }
            others => Ok(format!(in alloc; "Missing({})", others.len())?),
        },
        reply => Ok(format!(in alloc; "{reply:?}")?),
    }
}

/// Asks the row. Returns the text of the reply or of the refusal. A request that is not a call has no text once it is done.
fn asked<L: Home, R: Wait>(
    rt: &R,
    alloc: Global,
    store: &Store<DemoScheme, L>,
    session: &mut Session<DemoScheme, L>,
    crew: &Crew,
    ticket: &mut Option<Ticket<DemoScheme>>,
    row: &Row,
) -> Result<String, NoMemory> {
    let Some(link) = crew.links.get(row.1) else {
        return Ok(format!(in alloc; "a row has no block")?);
    };
    match &row.2 {
        Ask::Parts => {
            let parts = match ticket {
                Some(ticket) => ticket.view().parts(),
                None => 0,
            };
            Ok(format!(in alloc; "Parts({parts})")?)
        }
        Ask::Compact => {
            store.compact(rt, alloc)?;
            Ok(String::new(alloc))
        }
        Ask::Start(point) if !crew.passes(*point) => Ok(format!(in alloc; "a gate is shut")?),
        Ask::Start(_) => Ok(String::new(alloc)),
        Ask::Reach(point) => {
            crew.reach(*point);
            Ok(String::new(alloc))
        }
        asked => match &reply_to(rt, alloc, store, session, link, ticket, asked) {
            Ok(reply) => text_of(alloc, reply, link, &crew.links),
            Err(refusal) => Ok(format!(in alloc; "refused {refusal:?}")?),
        },
    }
}

/// Asks the rows in order, up to the first with another reply: the failure is the expected text of that row. Returns the last ticket, if
/// there is one.
pub(super) fn play_script<L: Home, R: Wait>(
    rt: &R,
    alloc: Global,
    store: &Store<DemoScheme, L>,
    sessions: &mut [Session<DemoScheme, L>],
    crew: &Crew,
    rows: &[Row],
) -> Result<Option<Ticket<DemoScheme>>, Fail> {
    let mut ticket = None;
    for row in rows {
        let Some(session) = sessions.get_mut(row.0) else {
            return Err(Fail::from("a row has no session"));
        };
        if asked(rt, alloc, store, session, crew, &mut ticket, row)?.as_str() != row.3 {
            return Err(Fail::from(row.3));
        }
    }
    Ok(ticket)
}

/// Asks the session's own rows in order, up to the first with another reply. Returns whether each gets the expected reply.
pub(super) fn play_own<L: Home, R: Wait>(
    rt: &R,
    alloc: Global,
    store: &Store<DemoScheme, L>,
    session: &mut Session<DemoScheme, L>,
    crew: &Crew,
    rows: &[Row],
) -> bool {
    let mut ticket = None;
    for row in rows {
        if row.0 == usize::from(session.id()) {
            let text = asked(rt, alloc, store, session, crew, &mut ticket, row);
            if !matches!(&text, Ok(text) if text.as_str() == row.3) {
                return false;
            }
        }
    }
    true
}
