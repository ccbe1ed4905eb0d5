//! A line of a script.

use crate::LineFault;
use crate::word::{Name, transaction};
use crate::words::Words;
use nw_digest::Round;
use std::alloc::Global;

/// A parsed line. Whether it can be played at its place is not tested yet.
#[derive(Drop)]
pub enum Line<'a> {
    /// An empty line or a comment.
    Skipped,
    /// The members of the committee.
    Committee(CommitteeLine),
    /// `limits <blocks> <events> <window> <sessions>`
    Limits(LimitsLine),
    /// `settle`
    Settle,
    /// `reopen`
    Reopen,
    /// A request to a store that is not settled.
    Request(Request<'a>),
}

/// The members of the committee.
#[derive(Drop)]
pub enum CommitteeLine {
    /// `committee v1 <members>`: the number of members, of equal weight.
    Equal { members: u32 },
    /// `committee v2 <weights>`: the weight of each member.
    Weighted { weights: Vec<u32> },
}

/// `limits <blocks> <events> <window> <sessions>`: the numbers as written, which may be out of range.
#[derive(Clone, Copy, Debug, PartialEq, Eq)]
pub struct LimitsLine {
    /// The limit on held blocks, and separately on certificates.
    pub blocks: u32,
    /// The limit on events of the history.
    pub events: u32,
    /// The number of rounds that the store accepts.
    pub window: u32,
    /// The limit on sessions.
    pub sessions: u32,
}

/// `block <name> <author> <round> <parents> <words>`: a block with the names of its parents and the words of its transactions.
#[derive(Drop)]
pub struct BlockLine<'a> {
    pub name: Name<'a>,
    pub author: u16,
    pub round: Round,
    pub parents: Vec<Name<'a>>,
    pub transactions: Vec<&'a str>,
}

/// A request to a store that is not settled. Each prints an answer.
#[derive(Drop)]
pub enum Request<'a> {
    /// `block <name> <author> <round> <parents> <words>`
    Block(BlockLine<'a>),
    /// `body <name>`
    Body(Name<'a>),
    /// `digest <name>`
    Digest(Name<'a>),
    /// `hash <word>`: the word, or the empty text if the line has `-`
    Hash(&'a str),
    /// `write <name> [<signer>]`; without a signer the author signs
    Write { name: Name<'a>, signer: Option<u16> },
    /// `read <name>`
    Read(Name<'a>),
    /// `certify <name> <signers>`
    Certify { name: Name<'a>, signers: Vec<u16> },
    /// `valid <name> <signers>`
    Valid { name: Name<'a>, signers: Vec<u16> },
    /// `gather <name> <signers>`
    Gather { name: Name<'a>, signers: Vec<u16> },
    /// `certificate <name>`
    Certificate(Name<'a>),
    /// `causal <name>`
    Causal(Name<'a>),
    /// `open <ticket> <name>`
    Open { ticket: Name<'a>, name: Name<'a> },
    /// `walk <ticket>`
    Walk(Name<'a>),
    /// `collect <round>`
    Collect(Round),
    /// `missing <most>`
    Missing(u16),
    /// `missing-of <name>`
    MissingOf(Name<'a>),
    /// `status`
    Status,
    /// `look <round> <author>`
    Look { round: Round, author: u16 },
    /// `look-round <round>`
    LookRound(Round),
    /// `compact`
    Compact,
    /// `session <id>`
    Session(u16),
}

/// Parses a line, given without its line end, by the grammar of docs/FORMATS.md.
///
/// `Bad` if the bytes are not ASCII or are not a line of the grammar. `NoMemory` if an allocation fails.
pub fn parse_line(alloc: Global, bytes: &[u8]) -> Result<Line<'_>, LineFault> {
    // Bytes that are not ASCII are neither a comment nor a word of any line.
    if bytes.is_empty() || (bytes[0] == b'#' && bytes.is_ascii()) {
        return Ok(Line::Skipped);
    }
    let mut words = Words::new(bytes);
    let line = match words.next()? {
        b"committee" => Line::Committee(committee(alloc, &mut words)?),
        b"limits" => Line::Limits(limits(&mut words)?),
        b"settle" => Line::Settle,
        b"reopen" => Line::Reopen,
        keyword => Line::Request(read_request(alloc, keyword, &mut words)?),
    };
    if words.is_empty() {
        return Ok(line);
    }
    drop(line);
    Err(LineFault::Bad)
}

// The request with this keyword and these further words. A `Request` is large. It is inlined, so that it is made in its place.
#[inline(always)]
fn read_request<'a>(
    alloc: Global,
    keyword: &[u8],
    words: &mut Words<'a>,
) -> Result<Request<'a>, LineFault> {
    Ok(match keyword {
        b"block" => Request::Block(block(alloc, words)?),
        b"body" => Request::Body(words.name()?),
        b"digest" => Request::Digest(words.name()?),
        b"read" => Request::Read(words.name()?),
        b"certificate" => Request::Certificate(words.name()?),
        b"causal" => Request::Causal(words.name()?),
        b"walk" => Request::Walk(words.name()?),
        b"hash" => Request::Hash(hash_word(words)?),
        b"write" => write(words)?,
        b"certify" => {
            let (name, signers) = named_signers(alloc, words)?;
            Request::Certify { name, signers }
        }
        b"valid" => {
            let (name, signers) = named_signers(alloc, words)?;
            Request::Valid { name, signers }
        }
        b"gather" => {
            let (name, signers) = named_signers(alloc, words)?;
            Request::Gather { name, signers }
        }
        b"open" => open(words)?,
        b"collect" => Request::Collect(words.round()?),
        b"missing" => Request::Missing(words.number_u16()?),
        b"missing-of" => Request::MissingOf(words.name()?),
        b"status" => Request::Status,
        b"look" => look(words)?,
        b"look-round" => Request::LookRound(words.round()?),
        b"compact" => Request::Compact,
        b"session" => Request::Session(words.number_u16()?),
        _ => return Err(LineFault::Bad),
    })
}

fn block<'a>(alloc: Global, words: &mut Words<'a>) -> Result<BlockLine<'a>, LineFault> {
    Ok(BlockLine {
        name: words.name()?,
        author: words.number_u16()?,
        round: words.round()?,
        parents: words.names(alloc)?,
        transactions: words.transactions(alloc)?,
    })
}

fn write<'a>(words: &mut Words<'a>) -> Result<Request<'a>, LineFault> {
    Ok(Request::Write {
        name: words.name()?,
        signer: signer(words)?,
    })
}

fn open<'a>(words: &mut Words<'a>) -> Result<Request<'a>, LineFault> {
    Ok(Request::Open {
        ticket: words.name()?,
        name: words.name()?,
    })
}

fn look<'a>(words: &mut Words<'a>) -> Result<Request<'a>, LineFault> {
    Ok(Request::Look {
        round: words.round()?,
        author: words.number_u16()?,
    })
}

// A name and a list of signers.
fn named_signers<'a>(
    alloc: Global,
    words: &mut Words<'a>,
) -> Result<(Name<'a>, Vec<u16>), LineFault> {
    Ok((words.name()?, words.members(alloc)?))
}

fn committee(alloc: Global, words: &mut Words<'_>) -> Result<CommitteeLine, LineFault> {
    match words.next()? {
        b"v1" => Ok(CommitteeLine::Equal {
            members: words.number_u32()?,
        }),
        b"v2" => Ok(CommitteeLine::Weighted {
            weights: words.weights(alloc)?,
        }),
        _ => Err(LineFault::Bad),
    }
}

fn limits(words: &mut Words<'_>) -> Result<LimitsLine, LineFault> {
    Ok(LimitsLine {
        blocks: words.number_u32()?,
        events: words.number_u32()?,
        window: words.number_u32()?,
        sessions: words.number_u32()?,
    })
}

// The signer in the last word, if there is one more word.
fn signer(words: &mut Words<'_>) -> Result<Option<u16>, LineFault> {
    if words.is_empty() {
        Ok(None)
    } else {
        Ok(Some(words.number_u16()?))
    }
}

// The next word, a transaction, or the empty text if it is `-`.
fn hash_word<'a>(words: &mut Words<'a>) -> Result<&'a str, LineFault> {
    match words.text()? {
        "-" => Ok(""),
        word => transaction(word).ok_or(LineFault::Bad),
    }
}
