//! The blocks of an example, and the texts of replies about them.
use super::*;
use nw_check::{BlockFault, CertFault, CheckedBlock, CheckedCert};
use nw_codec::{Certificate, Ref};
use nw_model::{Wanted, WriteReply};
use samples::fallible::{checked_block, checked_certificate, committee};

/// The round of a block, its author, its transactions of one byte each, and the places of its parents in the example.
pub(super) struct Sketch(
    pub(super) u64,
    pub(super) u16,
    pub(super) &'static [u8],
    pub(super) &'static [usize],
);

/// Three blocks of round 0, and one with them as parents.
pub(super) const FOUR: [Sketch; 4] = [
    Sketch(0, 0, b"", &[]),
    Sketch(0, 1, b"", &[]),
    Sketch(0, 2, b"", &[]),
    Sketch(1, 0, b"", &[0, 1, 2]),
];

/// Two blocks of one slot.
pub(super) const TWO: [Sketch; 2] = [Sketch(0, 0, b"", &[]), Sketch(0, 0, b"x", &[])];

/// A block and its certificate, with the votes of a quorum.
#[derive(Drop)]
pub(super) struct Link {
    pub(super) block: CheckedBlock<DemoScheme>,
    pub(super) certificate: CheckedCert<DemoScheme>,
}

/// References to the blocks at these places.
fn references(alloc: Global, links: &[Link], places: &[usize]) -> Result<Vec<Ref>, NoMemory> {
    let mut references = Vec::new(alloc);
    for place in places {
        if let Some(link) = links.get(*place) {
            references.push(Ref {
                author: link.block.block().get().author,
                digest: link.block.digest(),
            })?;
        }
    }
    Ok(references)
}

/// The block of the sketch. Its parents are among these blocks.
fn made(
    alloc: Global,
    committee: &Shared<Committee>,
    links: &[Link],
    sketch: &Sketch,
) -> Result<CheckedBlock<DemoScheme>, Fail> {
    let Sketch(round, author, bytes, places) = sketch;
    let slot = (Round::new(*round).unwrap_or(Round::ZERO), *author);
    let parents = retry!(NoMemory, references(alloc, links, places))?;
    Ok(retry!(
        BlockFault::NoMemory,
        checked_block(alloc, committee, slot, &parents, bytes, *author)
    )?)
}

/// The certificate of the block.
fn certified(
    alloc: Global,
    committee: &Shared<Committee>,
    block: &CheckedBlock<DemoScheme>,
) -> Result<CheckedCert<DemoScheme>, CertFault> {
    let slot = (block.block().get().round, block.block().get().author);
    let signers: &[u16] = match committee.get().quorum() {
        1 => &[0],
        _ => &[0, 1, 2],
    };
    checked_certificate(alloc, committee, block.digest(), slot, signers)
}

/// The blocks of an example, with their certificates, under its committee.
#[derive(Drop)]
pub(super) struct Fixture {
    pub(super) committee: Shared<Committee>,
    pub(super) links: Vec<Link>,
}

impl Fixture {
    /// The blocks of the sketches, for a committee of members with these numbers.
    pub(super) fn new(alloc: Global, members: &[u8], sketches: &[Sketch]) -> Result<Fixture, Fail> {
        let committee = retry!(NoMemory, committee(alloc, members))?;
        let links = retry!(AllocError, Vec::with_capacity(alloc, sketches.len()))?;
        let mut fixture = Fixture { committee, links };
        for sketch in sketches {
            fixture.add(alloc, sketch)?;
        }
        Ok(fixture)
    }

    /// Adds the block of the sketch.
    fn add(&mut self, alloc: Global, sketch: &Sketch) -> Result<(), Fail> {
        let block = made(alloc, &self.committee, &self.links, sketch)?;
        let certificate = retry!(
            CertFault::NoMemory,
            certified(alloc, &self.committee, &block)
        )?;
        Ok(self.links.push(Link { block, certificate })?)
    }

    /// The place of the block, or the number of blocks if it is not part of the example.
    fn place_of(&self, block: &Block) -> usize {
        for (place, link) in self.links.iter().enumerate() {
            if link.block.block().get() == block {
                return place;
            }
        }
        self.links.len()
    }

    /// The place of the digest, or the number of blocks if it is not part of the example.
    pub(super) fn place_under(&self, digest: &Digest) -> usize {
        for (place, link) in self.links.iter().enumerate() {
            if link.block.digest() == *digest {
                return place;
            }
        }
        self.links.len()
    }

    /// The places of the blocks.
    fn places_of(&self, alloc: Global, blocks: &[Shared<Block>]) -> Result<Vec<usize>, AllocError> {
        let mut places = Vec::new(alloc);
        for block in blocks {
            places.push(self.place_of(block.get()))?;
        }
        Ok(places)
    }

    /// The text of wanted parents: for a single one, its round, author and place; otherwise their number.
    fn missing(&self, alloc: Global, wanted: &[Wanted]) -> Result<String, AllocError> {
        match wanted {
            [only] => {
                let (round, place) = (only.round.get(), self.place_under(&only.digest));
                format!(in alloc; "Missing({round}.{}.{place})", only.author)
            }
            _ => format!(in alloc; "Missing {}", wanted.len()),
        }
    }

    /// The text of a certificate: its block's place, and its signers.
    fn certificate(&self, alloc: Global, kept: &Certificate) -> Result<String, AllocError> {
        let mut signers = Vec::new(alloc);
        for vote in kept.votes.as_slice() {
            signers.push(vote.signer)?;
        }
        format!(in alloc;
            "Certificate({} by {signers:?})",
            self.place_under(&kept.digest)
        )
    }

    /// The text of the reply. It names a block by its place in the example, and a certificate by its block's place and its signers.
    pub(super) fn text_of(&self, alloc: Global, reply: &Reply) -> Result<String, AllocError> {
        match reply {
            Reply::Write(WriteReply::Equivocates(first)) => {
                format!(in alloc; "Equivocates({})", self.place_under(first))
            }
            Reply::Certificate(Some(kept)) => self.certificate(alloc, kept.get()),
            Reply::Read(Some(found)) => {
                format!(in alloc; "Read({})", self.place_of(found.get()))
            }
            Reply::List(blocks) => {
                let places = self.places_of(alloc, blocks.as_slice())?;
                format!(in alloc; "List({places:?})")
            }
            Reply::Missing(wanted) => self.missing(alloc, wanted.as_slice()),
            reply => format!(in alloc; "{reply:?}"),
        }
    }

    /// Whether the reply has this text.
    pub(super) fn has_text(
        &self,
        alloc: Global,
        reply: &Reply,
        expected: &str,
    ) -> Result<bool, AllocError> {
        Ok(retry!(AllocError, self.text_of(alloc, reply))?.as_str() == expected)
    }
}
