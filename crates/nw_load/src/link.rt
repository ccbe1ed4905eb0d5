//! The link thread of a node. It makes the node's blocks, and writes, votes for and certifies the blocks of all nodes.
use crate::fault::Stop;
use crate::network::LinkChannels;
use crate::node::LoadContext;
use crate::store::LinkCalls;
use nw_check::{
    Checked, CheckedBlock, CheckedCert, Counted, FinishFault, Gather, GatherFault, StartFault,
    check_message,
};
use nw_codec::{Block, Ref, Transactions, Vote, block_digest};
use nw_committee::Committee;
use nw_digest::{Round, Sequence, Shared};
use nw_intake::{Gate, Point, pass_start};
use nw_interpreter::{block_message, vote_message};
use nw_sig::DemoScheme;
use nw_store::Home;
use std::alloc::Global;
use std::sync::Wait;

/// A link and its progress.
#[derive(Drop)]
pub(crate) struct Link<'a, L: Home, G: Gate> {
    alloc: Global,
    committee: &'a Shared<Committee>,
    node: u16,
    nodes: u16,
    rounds: u32,
    store: LinkCalls<'a, L>,
    channels: LinkChannels<'a>,
    gate: &'a G,
    /// The votes for the node's last block, until they reach the quorum.
    gather: Option<Gather<DemoScheme>>,
    /// The number of blocks that the node made.
    made: u32,
    /// The number of blocks written to the node's store.
    written: u32,
    /// The number of certificates handed to the node's store.
    certified: u32,
}

impl<'a, L: Home, G: Gate> Link<'a, L, G> {
    /// The link of the node, before its first block.
    pub(crate) fn new<R>(
        context: &LoadContext<'a, R, G>,
        node: u16,
        store: LinkCalls<'a, L>,
        channels: LinkChannels<'a>,
    ) -> Link<'a, L, G> {
        Link {
            alloc: context.alloc,
            committee: context.committee,
            node,
            nodes: context.nodes,
            rounds: context.rounds,
            store,
            channels,
            gate: context.gate,
            gather: None,
            made: 0,
            written: 0,
            certified: 0,
        }
    }

    /// Makes the block of each round, and handles the messages of other nodes. It returns when the node's store has all blocks of
    /// all nodes written and certified.
    pub(crate) fn run<R: Wait>(&mut self, rt: &R) -> Result<(), Stop> {
        let none = Vec::new(self.alloc);
        self.make(rt, none)?;
        for _ in 0..u64::MAX {
            if self.is_done() {
                return Ok(());
            }
            let text = self.channels.receive(rt)?;
            self.handle(rt, &text)?;
            self.make_next(rt)?;
        }
        Err(Stop::CutOff)
    }

    /// Whether the node's store has all blocks of all nodes written and certified.
    fn is_done(&self) -> bool {
        let all = u64::from(self.nodes) * u64::from(self.rounds);
        u64::from(self.written) >= all && u64::from(self.certified) >= all
    }

    /// Checks the message, and then writes its block, certifies its certificate or counts its vote. A bad message is dropped.
    fn handle<R: Wait>(&mut self, rt: &R, text: &[u8]) -> Result<(), Stop> {
        match check_message(self.alloc, self.committee, text)? {
            Checked::Block(block) => self.write(rt, &block),
            Checked::Cert(certificate) => self.certify(rt, &certificate),
            Checked::Vote(vote) => self.count_vote(rt, &vote),
            Checked::BadText(_) | Checked::BadBlock(_) | Checked::BadCert(_) => Ok(()),
        }
    }

    /// Makes the node's next block, if one is left and the node's store has all blocks of the preceding round written and certified.
    fn make_next<R: Wait>(&mut self, rt: &R) -> Result<(), Stop> {
        if self.made >= self.rounds {
            return Ok(());
        }
        let Some(round) = Round::new(u64::from(self.made)).and_then(Round::before) else {
            return Ok(());
        };
        match self.store.parents(rt, self.alloc, round, self.nodes)? {
            Some(parents) => self.make(rt, parents),
            None => Ok(()),
        }
    }

    /// Makes the node's block of the next round with these parents, sends it to all other nodes, and writes it.
    fn make<R: Wait>(&mut self, rt: &R, parents: Vec<Ref>) -> Result<(), Stop> {
        let text = own_message(self.alloc, &self.block(parents))?;
        self.made = self.made.saturating_add(1);
        match check_message(self.alloc, self.committee, &text)? {
            Checked::Block(block) => {
                self.gather = Some(self.gather_for(&block)?);
                self.send_to_others(rt, &text)?;
                self.write(rt, &block)
            }
            _ => Err(Stop::CutOff),
        }
    }

    /// The node's block of the next round with these parents.
    fn block(&self, parents: Vec<Ref>) -> Block {
        Block {
            author: self.node,
            round: Round::new(u64::from(self.made)).unwrap_or(Round::ZERO),
            parents: Sequence::new(parents),
            transactions: Transactions::new(self.alloc),
        }
    }

    /// A gatherer for the node's own block, without votes.
    fn gather_for(&self, block: &CheckedBlock<DemoScheme>) -> Result<Gather<DemoScheme>, Stop> {
        let round = block.block().get().round;
        match Gather::new(self.alloc, self.committee, block.digest(), round, self.node) {
            Ok(gather) => Ok(gather),
            Err(StartFault::NoMemory) => Err(Stop::NoMemory),
            Err(StartFault::Author) => Err(Stop::CutOff),
        }
    }

    /// Writes the block between two points of the gate, and sends the node's vote to its author if the store voted for it.
    fn write<R: Wait>(&mut self, rt: &R, checked: &CheckedBlock<DemoScheme>) -> Result<(), Stop> {
        let node = u32::from(self.node);
        let number = self.written.saturating_add(1);
        self.written = number;
        pass_start(self.gate, Point::WriteStart { node, number })?;
        let vote = self.store.write(rt, self.alloc, checked)?;
        self.gate.reach(Point::WriteDone { node, number });
        if !vote {
            return Ok(());
        }
        let block = checked.block().get();
        let text = vote_message(self.alloc, self.node, checked.digest(), block)?;
        self.channels.send(rt, block.author, text)
    }

    /// Counts a vote for the node's own block, and certifies the block when the votes reach the quorum. Any other vote is dropped.
    fn count_vote<R: Wait>(&mut self, rt: &R, vote: &Vote) -> Result<(), Stop> {
        let Some(gather) = &mut self.gather else {
            return Ok(());
        };
        match gather.add(vote) {
            Ok(Counted::Quorum) => {
                let certificate = finished(self.alloc, gather)?;
                self.gather = None;
                self.announce(rt, certificate)
            }
            Err(GatherFault::NoMemory) => Err(Stop::NoMemory),
            _ => Ok(()),
        }
    }

    /// Certifies the node's own block, tells the client, and sends the certificate to all other nodes.
    fn announce<R: Wait>(
        &mut self,
        rt: &R,
        certificate: CheckedCert<DemoScheme>,
    ) -> Result<(), Stop> {
        let digest = certificate.digest();
        let text = certificate.certificate().get().message(self.alloc)?;
        self.certify(rt, &certificate)?;
        self.channels.tell_client(rt, digest)?;
        self.send_to_others(rt, &text)
    }

    /// Hands the certificate to the store.
    fn certify<R: Wait>(
        &mut self,
        rt: &R,
        certificate: &CheckedCert<DemoScheme>,
    ) -> Result<(), Stop> {
        self.store.certify(rt, self.alloc, certificate)?;
        self.certified = self.certified.saturating_add(1);
        Ok(())
    }

    /// Sends the message to all other nodes.
    fn send_to_others<R: Wait>(&self, rt: &R, text: &[u8]) -> Result<(), Stop> {
        for node in 0..self.nodes {
            if node != self.node {
                self.channels.send(rt, node, text.to_vec(self.alloc)?)?;
            }
        }
        Ok(())
    }
}

/// The certificate of votes that reach the quorum.
fn finished(alloc: Global, gather: &Gather<DemoScheme>) -> Result<CheckedCert<DemoScheme>, Stop> {
    match gather.finish(alloc) {
        Ok(certificate) => Ok(certificate),
        Err(FinishFault::NoMemory) => Err(Stop::NoMemory),
        Err(FinishFault::FewVotes) => Err(Stop::CutOff),
    }
}

/// The encoded message of the node's block, signed by its author. A block of a load is always within the limits.
fn own_message(alloc: Global, block: &Block) -> Result<Vec<u8>, Stop> {
    if !block.fits() {
        return Err(Stop::CutOff);
    }
    let digest = block_digest(block);
    Ok(block_message(alloc, block.author, &digest, block)?)
}
