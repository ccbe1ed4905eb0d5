//! The client thread of a node. It opens a causal read of each of the node's own blocks, and walks it.
use crate::fault::Stop;
use crate::network::ClientChannel;
use crate::node::LoadContext;
use crate::store::ClientCalls;
use nw_digest::Digest;
use nw_intake::{Gate, Point, pass_start};
use nw_sig::DemoScheme;
use nw_store::{Home, Ticket};
use std::alloc::Global;
use std::sync::Wait;

/// A client: the calls that it may make, its channel, and its gate.
#[derive(Drop)]
pub(crate) struct Client<'a, L: Home, G: Gate> {
    alloc: Global,
    node: u32,
    rounds: u32,
    store: ClientCalls<'a, L>,
    channel: ClientChannel,
    gate: &'a G,
}

impl<'a, L: Home, G: Gate> Client<'a, L, G> {
    /// The client of the node.
    pub(crate) fn new<R>(
        context: &LoadContext<'a, R, G>,
        node: u16,
        store: ClientCalls<'a, L>,
        channel: ClientChannel,
    ) -> Client<'a, L, G> {
        Client {
            alloc: context.alloc,
            node: u32::from(node),
            rounds: context.rounds,
            store,
            channel,
            gate: context.gate,
        }
    }

    /// Reads the node's block of each round after it is certified. Returns the number of blocks in the last list.
    pub(crate) fn run<R: Wait>(&mut self, rt: &R) -> Result<usize, Stop> {
        let mut last = 0;
        for round in 0..self.rounds {
            let digest = self.channel.receive(rt)?;
            last = self.read(rt, round, digest)?;
        }
        Ok(last)
    }

    /// Opens a causal read of the round's block and walks it. Returns the number of blocks in the list.
    fn read<R: Wait>(&mut self, rt: &R, round: u32, digest: Digest) -> Result<usize, Stop> {
        let node = self.node;
        match self.store.open(rt, self.alloc, digest)? {
            Some(ticket) => {
                let listed = self.walk(round.saturating_add(1), &ticket);
                drop(ticket);
                listed
            }
            None => Err(Stop::Causal { node, round }),
        }
    }

    /// Walks the ticket between two points of the gate. It gets no `rt`, which every wait needs, so it takes no lock.
    fn walk(&self, number: u32, ticket: &Ticket<DemoScheme>) -> Result<usize, Stop> {
        let node = self.node;
        pass_start(self.gate, Point::WalkStart { node, number })?;
        let blocks = ticket.walk(self.alloc)?;
        self.gate.reach(Point::WalkDone { node, number });
        Ok(blocks.len())
    }
}
