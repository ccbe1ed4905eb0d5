//! Replies in words. A digest is printed as the first name of its block.

use crate::bindings::Bindings;
use crate::fault::LineFault;
use crate::words::{empty_line, named, named_with};
use nw_codec::{Block, Seal};
use nw_model::{CausalReply, CertifyReply, CollectReply, Counts, Reply, Wanted, WriteReply};
use nw_script::Name;
use std::alloc::Global;
use std::fmt::Write;

impl<'a> Bindings<'a> {
    /// The line for the reply of a call. `name` is the block of the call, if it has one.
    ///
    /// `Bad` if the reply is `List` or `Ready`, if it needs a name and `name` is `None`, or if it takes no name and one is given. `Bad`
    /// also if one of its digests has no name, or if the block of a read does not fit. `NoMemory` if an allocation fails.
    pub fn line_of(
        &self,
        alloc: Global,
        name: Option<Name<'a>>,
        reply: &Reply,
    ) -> Result<String, LineFault> {
        match (name, reply) {
            (Some(name), Reply::Write(reply)) => self.line_of_write(alloc, name, *reply),
            (Some(name), Reply::Certify(reply)) => self.line_of_certify(alloc, name, *reply),
            (Some(name), Reply::Certificate(Some(certificate))) => {
                signed(alloc, name, certificate.get().votes.as_slice())
            }
            (Some(name), Reply::Certificate(None)) => named(alloc, name, "none"),
            (Some(name), Reply::Read(Some(block))) => found(alloc, name, block.get()),
            (Some(name), Reply::Read(None)) => named(alloc, name, "unknown"),
            (Some(name), Reply::Causal(reply)) => named(alloc, name, word_of(*reply)),
            (None, Reply::Collect(reply)) => collected(alloc, *reply),
            (Some(name), Reply::MissingOf(Some(missing))) => {
                self.with_missing(named(alloc, name, "missing")?, missing.as_slice())
            }
            (Some(name), Reply::MissingOf(None)) => named(alloc, name, "unknown"),
            (None, Reply::Missing(missing)) => {
                let mut line = empty_line(alloc)?;
                line.push_str("missing")?;
                self.with_missing(line, missing.as_slice())
            }
            (None, Reply::Status(counts)) => counted(alloc, counts),
            _ => Err(LineFault::Bad),
        }
    }

    fn line_of_write(
        &self,
        alloc: Global,
        name: Name<'a>,
        reply: WriteReply,
    ) -> Result<String, LineFault> {
        let words = match reply {
            WriteReply::Collected(floor) => {
                return named_with(alloc, name, "collected", floor.get());
            }
            WriteReply::Equivocates(first) => {
                return named_with(alloc, name, "equivocates", self.names.first_name(&first)?);
            }
            WriteReply::TooFar => "too far",
            WriteReply::Held => "held",
            WriteReply::Clash => "clash",
            WriteReply::Misfit => "misfit",
            WriteReply::Full => "full",
            WriteReply::Stored { vote: true } => "stored vote",
            WriteReply::Stored { vote: false } => "stored",
        };
        named(alloc, name, words)
    }

    fn line_of_certify(
        &self,
        alloc: Global,
        name: Name<'a>,
        reply: CertifyReply,
    ) -> Result<String, LineFault> {
        let words = match reply {
            CertifyReply::Collected(floor) => {
                return named_with(alloc, name, "collected", floor.get());
            }
            CertifyReply::Conflict(other) => {
                return named_with(alloc, name, "conflict", self.names.first_name(&other)?);
            }
            CertifyReply::TooFar => "too far",
            CertifyReply::Already => "already",
            CertifyReply::Misfit => "misfit",
            CertifyReply::Full => "full",
            CertifyReply::Certified => "certified",
        };
        named(alloc, name, words)
    }

    // The line that starts in this way, with the missing parents.
    fn with_missing(&self, mut line: String, missing: &[Wanted]) -> Result<String, LineFault> {
        for parent in missing {
            let (round, author) = (parent.round.get(), parent.author);
            let name = self.names.first_name(&parent.digest)?;
            write!(line, " {round}.{author}.{name}")?;
        }
        if missing.is_empty() {
            line.push_str(" none")?;
        }
        Ok(line)
    }
}

fn collected(alloc: Global, reply: CollectReply) -> Result<String, LineFault> {
    Ok(match reply {
        CollectReply::Raised { dropped } => format!(in alloc; "raised {dropped}")?,
        CollectReply::NotHigher(floor) => format!(in alloc; "not higher {}", floor.get())?,
    })
}

fn found(alloc: Global, name: Name<'_>, block: &Block) -> Result<String, LineFault> {
    if !block.fits() {
        return Err(LineFault::Bad);
    }
    named_with(alloc, name, "found", block.body_size())
}

// The signers are separated by commas.
fn signed(alloc: Global, name: Name<'_>, votes: &[Seal]) -> Result<String, LineFault> {
    let mut line = named(alloc, name, "certified by")?;
    let mut before = ' ';
    for seal in votes {
        write!(line, "{before}{}", seal.signer)?;
        before = ',';
    }
    if votes.is_empty() {
        line.push_str(" -")?;
    }
    Ok(line)
}

fn counted(alloc: Global, counts: &Counts) -> Result<String, LineFault> {
    let Counts {
        floor,
        blocks,
        certificates,
        complete,
        wanted,
    } = counts;
    let floor = floor.get();
    let mut line = empty_line(alloc)?;
    write!(line, "status g={floor} blocks={blocks} ")?;
    write!(
        line,
        "certificates={certificates} complete={complete} wanted={wanted}"
    )?;
    Ok(line)
}

fn word_of(reply: CausalReply) -> &'static str {
    match reply {
        CausalReply::Unknown => "unknown",
        CausalReply::Uncertified => "uncertified",
        CausalReply::Incomplete => "incomplete",
    }
}
