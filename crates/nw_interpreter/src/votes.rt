//! Votes and certificates for named blocks.

use crate::bindings::Bindings;
use crate::fault::LineFault;
use crate::members::{certificate, vote};
use crate::names::NamedBlock;
use crate::words::{named, refused};
use nw_check::{Checked, Counted, Gather, GatherFault, StartFault, check_message, valid};
use nw_script::Name;
use nw_sig::DemoScheme;
use std::alloc::Global;

impl<'a> Bindings<'a> {
    /// Encodes the message of a certificate for the block, with the signers' votes in the given order, and returns the result of its check.
    /// `None` if the certificate is over a limit or its votes are out of order. `Bad` if the name is not bound, `NoMemory` if an allocation
    /// fails.
    pub fn checked_certificate(
        &self,
        alloc: Global,
        name: Name<'a>,
        signers: &[u16],
    ) -> Result<Option<Checked<DemoScheme>>, LineFault> {
        match self.certificate_text(alloc, name, signers)? {
            Some(text) => Ok(Some(check_message(alloc, &self.committee, &text)?)),
            None => Ok(None),
        }
    }

    // The encoded message of a certificate for the block, with the signers' votes in the given order, or `None` if it does not fit.
    fn certificate_text(
        &self,
        alloc: Global,
        name: Name<'a>,
        signers: &[u16],
    ) -> Result<Option<Vec<u8>>, LineFault> {
        let block = self.named_block(name)?;
        let certificate = certificate(alloc, signers, block.digest(), block.block())?;
        if !certificate.fits() {
            drop(certificate);
            return Ok(None);
        }
        Ok(Some(certificate.message(alloc)?))
    }

    /// The line that says whether a certificate for the block, with the signers' votes in the given order, is valid. `Bad` if the name is
    /// not bound, `NoMemory` if an allocation fails.
    pub fn valid(
        &self,
        alloc: Global,
        name: Name<'a>,
        signers: &[u16],
    ) -> Result<String, LineFault> {
        let block = self.named_block(name)?;
        let certificate = certificate(alloc, signers, block.digest(), block.block())?;
        let is_valid = valid::<DemoScheme>(self.committee.get(), block.digest(), &certificate);
        drop(certificate);
        named(alloc, name, if is_valid { "valid yes" } else { "valid no" })
    }

    /// Gathers the signers' votes for the block in the given order. Returns the line with the result of each. `Bad` if the name is not
    /// bound, `NoMemory` if an allocation fails.
    pub fn gather(
        &self,
        alloc: Global,
        name: Name<'a>,
        signers: &[u16],
    ) -> Result<String, LineFault> {
        let block = self.named_block(name)?;
        match Gather::new(
            alloc,
            &self.committee,
            block.digest(),
            block.block().round,
            block.block().author,
        ) {
            Ok(mut gather) => {
                let line = gather_all(alloc, &mut gather, signers, name, block);
                drop(gather);
                line
            }
            Err(StartFault::Author) => refused(alloc, name, "author"),
            Err(StartFault::NoMemory) => Err(LineFault::NoMemory),
        }
    }
}

// The line with the name and the result of each signer's vote.
fn gather_all(
    alloc: Global,
    gather: &mut Gather<DemoScheme>,
    signers: &[u16],
    name: Name<'_>,
    block: &NamedBlock,
) -> Result<String, LineFault> {
    let mut line = format!(in alloc; "{name}")?;
    for signer in signers {
        line.push(' ')?;
        line.push_str(gather_one(gather, *signer, block)?)?;
    }
    Ok(line)
}

// The result of the signer's vote, in words. The votes of a script are always for the gathered block.
fn gather_one(
    gather: &mut Gather<DemoScheme>,
    signer: u16,
    block: &NamedBlock,
) -> Result<&'static str, LineFault> {
    match gather.add(&vote(signer, block.digest(), block.block())) {
        Ok(Counted::Counted) => Ok("counted"),
        Ok(Counted::Quorum) => Ok("quorum"),
        Err(GatherFault::Repeated) => Ok("repeated"),
        Err(GatherFault::Signer) => Ok("signer"),
        Err(GatherFault::Signature) => Ok("signature"),
        Err(GatherFault::OtherBlock) => Err(LineFault::Bad),
        Err(GatherFault::NoMemory) => Err(LineFault::NoMemory),
    }
}
