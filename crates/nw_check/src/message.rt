//! Decodes and checks messages from other validators.
ghost use Rattle.std.specs.Prelude.{◌≡◌, IfOk, OnErr};
ghost use Rattle.nw_codec.specs.Spelled.{Spells, DecodingAllocates};
ghost use Rattle.nw_codec.specs.declared.message.Message.TheVariants as messages;
ghost use Rattle.nw_check.specs.Message.{IsChecked};

use crate::{
    BlockFault, CertFault, CheckedBlock, CheckedCert, Verifier, check_block_by, check_cert_by,
};
use nw_codec::{Block, Certificate, Message, Signature, Vote};
use nw_committee::Committee;
use nw_decode::{DecodeError, decode_message};
use nw_digest::{NoMemory, Shared};
use nw_sig::Scheme;
use std::alloc::Global;

/// The result of checking a text from another validator. `check_message` never returns `NoMemory` as one of these faults.
#[derive(Drop)]
pub enum Checked<S: Scheme> {
    /// A well-formed block.
    Block(CheckedBlock<S>),
    /// A valid certificate.
    Cert(CheckedCert<S>),
    /// A vote. Its signature was not verified.
    Vote(Vote),
    /// The text is not a message. This is its first fault in reading order.
    BadText(DecodeError),
    /// The block is not well formed. This is the first rule that it breaks.
    BadBlock(BlockFault),
    /// The certificate is not valid. This is the first rule that it breaks.
    BadCert(CertFault),
}

/// Decodes the text, and checks the block or certificate in it. A fault of the text, the block or the certificate is no error: it
/// is returned in `Ok`.
///
/// `NoMemory`: an allocation failed. Only blocks and certificates need memory.
pub fn check_message<S: Scheme>(
    alloc: Global,
    committee: &Shared<Committee>,
    text: &[u8],
) -> Result<Checked<S>, NoMemory>
    ensures checked { IfOk result (IsChecked S.accepts committee.now text.now) }
    ensures memory { OnErr result (DecodingAllocates text.now) }
{
    check_message_by(alloc, committee, committee.get(), text)
}

/// Does what `check_message` does, and has the signatures verified by `verifier`, which is one of the committee's members.
pub fn check_message_by<S: Scheme, V: Verifier<S>>(
    alloc: Global,
    committee: &Shared<Committee>,
    verifier: &V,
    text: &[u8],
) -> Result<Checked<S>, NoMemory>
    requires { V.members verifier.now ≡ committee.now }
    ensures checked { IfOk result (IsChecked S.accepts committee.now text.now) }
    ensures memory { OnErr result (DecodingAllocates text.now) }
{
    match decode_message(alloc, text) {
        Ok(Message::Block { block, signature }) => checked_block(
            alloc, committee, verifier, text, block, signature,
        ),
        Ok(Message::Certificate(certificate)) => checked_cert(
            alloc,
            committee,
            verifier,
            text,
            certificate,
        ),
        Ok(Message::Vote(vote)) => Ok(Checked::Vote(vote)),
        Err(error) => match error {
            DecodeError::NoMemory => Err(NoMemory),
            fault => Ok(Checked::BadText(fault)),
        },
    }
}

/// Checks the block that the text contains.
fn checked_block<S: Scheme, V: Verifier<S>>(
    alloc: Global,
    committee: &Shared<Committee>,
    verifier: &V,
    text: &[u8],
    block: Block,
    signature: Signature,
) -> Result<Checked<S>, NoMemory>
    requires spelled { Spells text.now (messages.Block block signature) }
    requires members { V.members verifier.now ≡ committee.now }
    ensures { IfOk result (IsChecked S.accepts committee.now text.now) }
{
    match check_block_by(alloc, committee, verifier, block, signature) {
        Ok(checked) => Ok(Checked::Block(checked)),
        Err(BlockFault::NoMemory) => Err(NoMemory),
        Err(fault) => Ok(Checked::BadBlock(fault)),
    }
}

/// Checks the certificate that the text contains.
fn checked_cert<S: Scheme, V: Verifier<S>>(
    alloc: Global,
    committee: &Shared<Committee>,
    verifier: &V,
    text: &[u8],
    certificate: Certificate,
) -> Result<Checked<S>, NoMemory>
    requires spelled { Spells text.now (messages.Certificate certificate) }
    requires members { V.members verifier.now ≡ committee.now }
    ensures { IfOk result (IsChecked S.accepts committee.now text.now) }
{
    match check_cert_by(alloc, committee, verifier, certificate) {
        Ok(checked) => Ok(Checked::Cert(checked)),
        Err(CertFault::NoMemory) => Err(NoMemory),
        Err(fault) => Ok(Checked::BadCert(fault)),
    }
}
