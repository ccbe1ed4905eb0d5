//! The calls of a node's threads. Each thread has a type with the calls that it may make.
use crate::fault::Stop;
use nw_check::{CheckedBlock, CheckedCert};
use nw_codec::Ref;
use nw_digest::{Digest, Round};
use nw_model::{Reply, WriteReply};
use nw_sig::DemoScheme;
use nw_store::{Home, NoStep, Session, Store, Ticket};
use std::alloc::Global;
use std::sync::Wait;

/// The calls of a link.
#[derive(Drop)]
pub(crate) struct LinkCalls<'a, L: Home> {
    pub(crate) node: u32,
    pub(crate) store: &'a Store<DemoScheme, L>,
    pub(crate) session: &'a mut Session<DemoScheme, L>,
}

impl<'a, L: Home> LinkCalls<'a, L> {
    /// Writes the block, and returns whether the store votes for it.
    pub(crate) fn write<R: Wait>(
        &mut self,
        rt: &R,
        alloc: Global,
        block: &CheckedBlock<DemoScheme>,
    ) -> Result<bool, Stop> {
        match self.store.write(rt, alloc, self.session, block) {
            Ok(done) => {
                let vote = matches!(
                    done.reply(),
                    Reply::Write(WriteReply::Stored { vote: true })
                );
                drop(done);
                Ok(vote)
            }
            Err(refusal) => Err(stop_of_refusal(self.node, refusal)),
        }
    }

    /// References to the round's blocks of all `nodes` authors, ascending by author, or `None` if one is not stored and certified.
    pub(crate) fn parents<R: Wait>(
        &self,
        rt: &R,
        alloc: Global,
        round: Round,
        nodes: u16,
    ) -> Result<Option<Vec<Ref>>, Stop> {
        let mut parents = Vec::with_capacity(alloc, usize::from(nodes))?;
        for (author, look) in self.store.look_round(rt, alloc, round)? {
            match look.certified {
                Some(digest) if look.stands => parents.push(Ref { author, digest })?,
                _ => return Ok(None),
            }
        }
        Ok((parents.len() == usize::from(nodes)).then_some(parents))
    }

    /// Certifies the digest of the certificate.
    pub(crate) fn certify<R: Wait>(
        &mut self,
        rt: &R,
        alloc: Global,
        certificate: &CheckedCert<DemoScheme>,
    ) -> Result<(), Stop> {
        match self.store.certify(rt, alloc, self.session, certificate) {
            Ok(done) => {
                drop(done);
                Ok(())
            }
            Err(refusal) => Err(stop_of_refusal(self.node, refusal)),
        }
    }
}

/// The calls of a client.
#[derive(Drop)]
pub(crate) struct ClientCalls<'a, L: Home> {
    pub(crate) node: u32,
    pub(crate) store: &'a Store<DemoScheme, L>,
    pub(crate) session: &'a mut Session<DemoScheme, L>,
}

impl<'a, L: Home> ClientCalls<'a, L> {
    /// Opens a causal read. Returns `None` if the digest is not complete.
    pub(crate) fn open<R: Wait>(
        &mut self,
        rt: &R,
        alloc: Global,
        digest: Digest,
    ) -> Result<Option<Ticket<DemoScheme>>, Stop> {
        match self.store.open_causal(rt, alloc, self.session, digest) {
            Ok(answer) => Ok(answer.ok()),
            Err(refusal) => Err(stop_of_refusal(self.node, refusal)),
        }
    }
}

// The calls of a load are refused only if an allocation fails.
fn stop_of_refusal(node: u32, refusal: NoStep) -> Stop {
    match refusal {
        NoStep::NoMemory => Stop::NoMemory,
        NoStep::OutOfTurn | NoStep::OtherCommittee | NoStep::HistoryFull => Stop::Unsettled {
            node,
        },
    }
}
