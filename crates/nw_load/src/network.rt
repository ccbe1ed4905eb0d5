//! The channels between the threads of a load.
use crate::fault::Stop;
use crossbeam_channel::{Receiver, RecvError, SendError, Sender, unbounded};
use nw_digest::Digest;
use std::alloc::Global;
use std::sync::{RwLock, Wait};

/// The inbox of a node, from which its link receives encoded messages.
pub(crate) type Inbox = Receiver<Vec<u8>>;

/// All senders to the nodes' inboxes. After they are dropped, each inbox ends when the messages already sent have been received.
#[derive(Drop)]
pub(crate) struct Network {
    senders: RwLock<Option<Vec<Sender<Vec<u8>>>>>,
}

impl Network {
    /// A network of `nodes` nodes, and their inboxes.
    pub(crate) fn new(alloc: Global, nodes: u16) -> Result<(Network, Vec<Inbox>), Stop> {
        let mut senders = Vec::with_capacity(alloc, usize::from(nodes))?;
        let mut inboxes = Vec::with_capacity(alloc, usize::from(nodes))?;
        for _ in 0..nodes {
            let (sender, inbox) = unbounded(alloc)?;
            senders.push(sender)?;
            inboxes.push(inbox)?;
        }
        let network = Network {
            senders: RwLock::new(Some(senders)),
        };
        Ok((network, inboxes))
    }

    /// Sends the message to the node. If the node has ended, the message is dropped. `CutOff` if the network is closed.
    fn send<R: Wait>(&self, rt: &R, node: u16, text: Vec<u8>) -> Result<(), Stop> {
        let senders = self.senders.read(rt);
        let Some(senders) = &*senders else {
            return Err(Stop::CutOff);
        };
        match senders.get(usize::from(node)) {
            Some(sender) => end_if_out_of_memory(sender.send(rt, text)),
            None => Ok(()),
        }
    }

    /// Drops all senders, so that no thread waits forever for a message. It allocates nothing.
    pub(crate) fn close<R: Wait>(&self, rt: &R) {
        let senders = self.senders.write(rt).take();
        drop(senders);
    }
}

// An allocation failure ends the load. A message to a thread that has ended is dropped.
fn end_if_out_of_memory<T: Drop>(outcome: Result<(), SendError<T>>) -> Result<(), Stop> {
    match outcome {
        Err(SendError::OutOfMemory(_)) => Err(Stop::NoMemory),
        _ => Ok(()),
    }
}

/// The channels of a link: to all nodes, from its inbox, and to its client.
#[derive(Drop)]
pub(crate) struct LinkChannels<'a> {
    pub(crate) network: &'a Network,
    pub(crate) inbox: &'a Inbox,
    pub(crate) to_client: Sender<Digest>,
}

impl<'a> LinkChannels<'a> {
    /// Sends the message to the node, which may be the link's own. If the node has ended, the message is dropped.
    pub(crate) fn send<R: Wait>(&self, rt: &R, node: u16, text: Vec<u8>) -> Result<(), Stop> {
        self.network.send(rt, node, text)
    }

    /// Waits for the next message.
    pub(crate) fn receive<R: Wait>(&self, rt: &R) -> Result<Vec<u8>, Stop> {
        received(self.inbox.recv(rt))
    }

    /// Tells the client that the node's block of the next round, which has this digest, is certified.
    pub(crate) fn tell_client<R: Wait>(&self, rt: &R, digest: Digest) -> Result<(), Stop> {
        end_if_out_of_memory(self.to_client.send(rt, digest))
    }
}

/// The channel of a client: from its link.
#[derive(Drop)]
pub(crate) struct ClientChannel {
    pub(crate) from_link: Receiver<Digest>,
}

impl ClientChannel {
    /// Waits for the digest of the node's next certified block.
    pub(crate) fn receive<R: Wait>(&self, rt: &R) -> Result<Digest, Stop> {
        received(self.from_link.recv(rt))
    }
}

// A closed channel means that another thread ended early.
fn received<T: Drop>(outcome: Result<T, RecvError>) -> Result<T, Stop> {
    match outcome {
        Ok(it) => Ok(it),
        Err(_) => Err(Stop::CutOff),
    }
}
