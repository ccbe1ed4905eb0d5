//! The two threads of a node, each with a session of the node's store.
use crate::client::Client;
use crate::fault::Stop;
use crate::link::Link;
use crate::network::{ClientChannel, Inbox, LinkChannels};
use crate::node::LoadContext;
use crate::store::{ClientCalls, LinkCalls};
use crossbeam_channel::{Receiver, Sender};
use nw_digest::Digest;
use nw_intake::Gate;
use nw_sig::DemoScheme;
use nw_store::{Home, Session, Store};
use std::alloc::Global;
use std::sync::Wait;
use std::thread;
use std::thread::{JoinHandle, Scope, Threads};

/// The number of blocks in the last list, and both sessions.
pub(crate) type Finished<L> = (usize, Vec<Session<DemoScheme, L>>);

/// Runs the client in a new thread and the link in this one. `to_client` and `from_link` are the ends of the channel between them.
pub(crate) fn run_both<L: Home, R: Threads + Wait + Sync, G: Gate + Sync>(
    context: &LoadContext<'_, R, G>,
    node: u16,
    inbox: &Inbox,
    store: &Store<DemoScheme, L>,
    (first, second): (Session<DemoScheme, L>, Session<DemoScheme, L>),
    (to_client, from_link): (Sender<Digest>, Receiver<Digest>),
) -> Result<Finished<L>, Stop> {
    thread::scope(thread::scope_env(), context.rt, move |scope| {
        match start_client(scope, context, node, store, second, from_link) {
            Ok(started) => {
                let (first, linked) = run_link(context, node, store, first, inbox, to_client);
                let (second, walked) = started.join(context.rt);
                both_sessions(context.alloc, first, second, combined(linked, walked))
            }
            Err(stop) => {
                drop(first);
                Err(stop)
            }
        }
    })
}

/// Both sessions and the number of blocks in the last list, or why a thread ended early.
fn both_sessions<L: Home>(
    alloc: Global,
    first: Session<DemoScheme, L>,
    second: Session<DemoScheme, L>,
    last: Result<usize, Stop>,
) -> Result<Finished<L>, Stop> {
    match last {
        Ok(last) => Ok((last, vec![in alloc; first, second]?)),
        Err(stop) => {
            drop(first);
            drop(second);
            Err(stop)
        }
    }
}

/// The client's session, and the number of blocks in its last list.
type ClientOutcome<L> = (Session<DemoScheme, L>, Result<usize, Stop>);

/// Starts the client thread.
fn start_client<'s, 'e, L: Home, R: Threads + Wait + Sync, G: Gate + Sync>(
    scope: &Scope<'s, &'e ()>,
    context: &'e LoadContext<'e, R, G>,
    node: u16,
    store: &'e Store<DemoScheme, L>,
    session: Session<DemoScheme, L>,
    from_link: Receiver<Digest>,
) -> Result<JoinHandle<ClientOutcome<L>>, Stop> {
    match scope.spawn(move || run_client(context, node, store, session, from_link)) {
        Ok(started) => Ok(started),
        Err(_) => Err(Stop::Spawn),
    }
}

/// The result of the client if neither thread ended early, else the first reason in the order of `Stop`.
fn combined(linked: Result<(), Stop>, walked: Result<usize, Stop>) -> Result<usize, Stop> {
    match (linked, walked) {
        (Ok(()), walked) => walked,
        (Err(stop), Ok(_)) => Err(stop),
        (Err(one), Err(other)) => Err(one.min(other)),
    }
}

/// Runs the link and returns its session. If the link ends early, it closes the network, so that no thread waits forever.
fn run_link<L: Home, R: Wait, G: Gate>(
    context: &LoadContext<'_, R, G>,
    node: u16,
    store: &Store<DemoScheme, L>,
    mut session: Session<DemoScheme, L>,
    inbox: &Inbox,
    to_client: Sender<Digest>,
) -> (Session<DemoScheme, L>, Result<(), Stop>) {
    let linked = run_link_on(&*context, node, &*store, &mut session, &*inbox, to_client);
    if linked.is_err() {
        context.network.close(context.rt);
    }
    (session, linked)
}

/// Runs the link with the session.
fn run_link_on<'a, L: Home, R: Wait, G: Gate>(
    context: &'a LoadContext<'a, R, G>,
    node: u16,
    store: &'a Store<DemoScheme, L>,
    session: &'a mut Session<DemoScheme, L>,
    inbox: &'a Inbox,
    to_client: Sender<Digest>,
) -> Result<(), Stop> {
    let store = LinkCalls {
        node: u32::from(node),
        store,
        session,
    };
    let channels = LinkChannels {
        network: context.network,
        inbox,
        to_client,
    };
    let mut link = Link::new(context, node, store, channels);
    let linked = link.run(context.rt);
    drop(link);
    linked
}

/// Runs the client and returns its session. If the client ends early, it closes the network, so that its link ends too.
fn run_client<L: Home, R: Wait, G: Gate>(
    context: &LoadContext<'_, R, G>,
    node: u16,
    store: &Store<DemoScheme, L>,
    mut session: Session<DemoScheme, L>,
    from_link: Receiver<Digest>,
) -> ClientOutcome<L> {
    let walked = run_client_on(&*context, node, &*store, &mut session, from_link);
    if walked.is_err() {
        context.network.close(context.rt);
    }
    (session, walked)
}

/// Runs the client with the session.
fn run_client_on<'a, L: Home, R: Wait, G: Gate>(
    context: &'a LoadContext<'a, R, G>,
    node: u16,
    store: &'a Store<DemoScheme, L>,
    session: &'a mut Session<DemoScheme, L>,
    from_link: Receiver<Digest>,
) -> Result<usize, Stop> {
    let store = ClientCalls {
        node: u32::from(node),
        store,
        session,
    };
    let mut client = Client::new(context, node, store, ClientChannel { from_link });
    let walked = client.run(context.rt);
    drop(client);
    walked
}
