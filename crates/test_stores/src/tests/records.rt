//! Whether journals have the right calls, replies and fronts, and match the history.
use super::asking::{Ask, MOST};
use super::chains::Link;
use super::late::BESIDE;
use super::scenes::Scene;
use super::scripts::{Row, text_of};
use super::tasks::Crew;
use super::*;
use nw_model::{CertifyReply, WriteReply};
use nw_store::{Call, Entry, Front, NoMemory};

/// Numbers of calls at which the lengths and parts of fronts are measured.
const MARKS: [usize; 4] = [255, 256, 257, 513];

/// The call in the history for what the session asks, if it gets this reply. A block or a certificate that was not kept is told by its
/// subject.
fn call_of(asked: &Ask, link: &Link, reply: &Reply) -> Result<Call, NoMemory> {
    let digest = link.block.digest();
    Ok(match asked {
        Ask::Write => match reply {
            Reply::Write(WriteReply::Stored { .. }) => {
                Call::Write(digest, link.block.block().try_clone()?)
            }
            _ => Call::AskWrite(link.block.block().get().subject(digest)),
        },
        Ask::Certify => match reply {
            Reply::Certify(CertifyReply::Certified) => {
                Call::Certify(link.certificate.certificate().try_clone()?)
            }
            _ => Call::AskCertify(link.certificate.certificate().get().subject()),
        },
        Ask::Certificate => Call::Certificate(digest),
        Ask::Read => Call::Read(digest),
        Ask::Open => Call::Causal(digest),
        Ask::Collect => Call::Collect(link.block.block().get().round),
        Ask::Missing => Call::Missing(MOST),
        _ => Call::Status,
    })
}

/// Adds those of the session's rows that its journal records.
fn add_rows(rows: &[Row], session: u16, own: &mut Vec<Row>) -> Result<(), NoMemory> {
    for row in rows {
        if row.0 == usize::from(session) && row.is_recorded() {
            own.push(*row)?;
        }
    }
    Ok(())
}

/// Adds the calls of the session's task. Their texts are empty, since the session's thread compares the replies itself.
fn add_task(crew: &Crew, session: u16, own: &mut Vec<Row>) -> Result<(), NoMemory> {
    let place = usize::from(session);
    let Some(plan) = crew.plan(place) else {
        return add_rows(&BESIDE, session, own);
    };
    for turn in 0..plan.turns {
        for asked in plan.asks {
            own.push(Row(place, plan.place(turn, session), *asked, ""))?;
        }
    }
    Ok(())
}

/// Adds the session's calls about each link, in order.
fn add_asks(asks: &[Ask], links: usize, session: u16, own: &mut Vec<Row>) -> Result<(), NoMemory> {
    for place in 0..links {
        for asked in asks {
            own.push(Row(usize::from(session), place, *asked, ""))?;
        }
    }
    Ok(())
}

/// The calls of the session in the scene, in order. Its journal must have exactly these.
pub(super) fn calls_of(
    alloc: Global,
    scene: &Scene<'_>,
    session: u16,
) -> Result<Vec<Row>, NoMemory> {
    let mut own = Vec::new(alloc);
    match scene {
        Scene::Script(_, rows, _) => add_rows(rows, session, &mut own)?,
        Scene::Crowd(_, before, crew) => {
            add_rows(before, session, &mut own)?;
            add_task(crew, session, &mut own)?;
        }
        Scene::Notes(links) if session == 0 => {
            add_asks(&[Ask::Write, Ask::Certify], links.len(), session, &mut own)?;
        }
        Scene::Notes(links) => add_asks(&[Ask::Open], links.len(), session, &mut own)?,
    }
    Ok(own)
}

/// Whether the entry has the row's call and, if the row has a text, the reply with this text.
fn is_recorded(
    alloc: Global,
    answer: &Entry<DemoScheme>,
    links: &[Link],
    row: &Row,
) -> Result<bool, NoMemory> {
    let Row(_, place, asked, expected) = row;
    let Some(link) = links.get(*place) else {
        return Ok(false);
    };
    let call = call_of(asked, link, answer.reply())?;
    let text = text_of(alloc, answer.reply(), link, links)?;
    Ok(answer.call().is_same(&call) && (expected.is_empty() || text.as_str() == *expected))
}

/// Whether the journal has the calls of the rows and no others, in order, each with the reply of its row.
pub(super) fn are_recorded(
    alloc: Global,
    journal: &[Entry<DemoScheme>],
    links: &[Link],
    rows: &[Row],
) -> Result<bool, NoMemory> {
    for (answer, row) in journal.iter().zip(rows) {
        if !is_recorded(alloc, answer, links, row)? {
            return Ok(false);
        }
    }
    Ok(journal.len() == rows.len())
}

/// For each number in `MARKS`, the numbers of events and of parts of the journal's front at this number, or zeros if there is none.
pub(super) fn measured(journal: &[Entry<DemoScheme>]) -> [(usize, usize); 4] {
    MARKS.map(|number: usize| match journal.get(number.saturating_sub(1)) {
        Some(answer) => (answer.front().len(), answer.front().parts()),
        None => (0, 0),
    })
}

/// Whether the front of each entry ends with the session's call at that place. The front must have one part for each full chunk of 256
/// events and one for each later event, because no front copies the events of a full chunk.
pub(super) fn are_fronts(journal: &[Entry<DemoScheme>], session: u16) -> bool {
    for (answer, number) in journal.iter().zip(1u32..) {
        let (front, length) = (answer.front(), answer.front().len());
        let Some(last) = front.last() else {
            return false;
        };
        let is_own = last.session == session && last.number == number;
        let has_parts = front.parts() == length / 256 + length % 256;
        if !is_own || !last.call.is_same(answer.call()) || !has_parts {
            return false;
        }
    }
    true
}

/// Whether each front of the journal is a prefix of the next one, and the next one is no prefix of it.
pub(super) fn grows(journal: &[Entry<DemoScheme>]) -> bool {
    for (earlier, later) in journal.iter().zip(journal.iter().skip(1)) {
        let (earlier, later) = (earlier.front(), later.front());
        if !earlier.is_prefix_of(later) || later.is_prefix_of(earlier) {
            return false;
        }
    }
    true
}

/// The largest number of events of a front that is compared with the whole history, unless it is the last one.
const SHORT: usize = 256;

/// Whether each front of the journal is a prefix of the history. A comparison visits each event of the front. So of the fronts of more than
/// `SHORT` events only the last is compared with the history: `grows` compares each with the next one.
pub(super) fn begin(journal: &[Entry<DemoScheme>], history: &Front<DemoScheme>) -> bool {
    for answer in journal {
        if answer.front().len() <= SHORT && !answer.front().is_prefix_of(history) {
            return false;
        }
    }
    match journal.last() {
        Some(last) => last.front().is_prefix_of(history),
        None => true,
    }
}

/// Whether the session's events in the history are the calls of its journal, in order.
pub(super) fn matches_history(
    history: &Front<DemoScheme>,
    journal: &[Entry<DemoScheme>],
    session: u16,
) -> bool {
    let mut next: usize = 0;
    for index in 0..history.len() {
        match history.event(index) {
            Some(event) if event.session == session => match journal.get(next) {
                Some(answer) if event.call.is_same(answer.call()) => {
                    next = next.saturating_add(1);
                }
                _ => return false,
            },
            _ => {}
        }
    }
    next == journal.len()
}
