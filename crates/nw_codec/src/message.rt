//! Messages between validators.
ghost use Rattle.std.specs.Prelude.{◌↔◌, IsTrue};
ghost use Rattle.nw_codec.specs.Fits.{MessageFits};

use crate::{Block, Certificate, Signature, Vote};

/// A message from one validator to another.
#[derive(Debug, PartialEq, Eq, Drop)]
pub enum Message {
    /// A block and its author's signature.
    Block { block: Block, signature: Signature },
    /// A certificate with its votes.
    Certificate(Certificate),
    /// The vote of one member.
    Vote(Vote),
}

impl Message {
    /// Whether its block or certificate fits (`Block::fits`, `Certificate::fits`). A vote always does.
    pub fn fits(&self) -> bool
        ensures { IsTrue result ↔ MessageFits self.now }
    {
        match self {
            Message::Block { block, .. } => block.fits(),
            Message::Certificate(certificate) => certificate.fits(),
            Message::Vote(_) => true,
        }
    }
}
