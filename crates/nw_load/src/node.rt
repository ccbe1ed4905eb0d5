//! A node of a load: its store, its two threads and its report.
ghost use Rattle.std.specs.Prelude.{◌≡◌};
ghost use Rattle.nw_history.specs.Story.{first_origin};
ghost use Rattle.nw_store.specs.Lock.{parts_of_a_ledger};

use crate::fault::Stop;
use crate::network::{Inbox, Network};
use crate::report::NodeReport;
use crate::threads::{Finished, run_both};
use crossbeam_channel::unbounded;
use nw_committee::Committee;
use nw_digest::Shared;
use nw_intake::Gate;
use nw_sig::DemoScheme;
use nw_store::{
    BookError, Home, Limits, MAX_BLOCKS, MAX_EVENTS, MAX_WINDOW, Opening, Session, Store, settle,
};
use std::alloc::Global;
use std::marker::Brand;
use std::sync::Wait;
use std::thread::Threads;

/// The limits of a node's store.
const LIMITS: Limits = Limits {
    blocks: MAX_BLOCKS,
    events: MAX_EVENTS,
    window: MAX_WINDOW,
    sessions: 2,
};

/// The values that all nodes of a load share.
#[derive(Drop)]
pub(crate) struct LoadContext<'a, R, G> {
    pub(crate) rt: &'a R,
    pub(crate) alloc: Global,
    pub(crate) committee: &'a Shared<Committee>,
    pub(crate) network: &'a Network,
    pub(crate) nodes: u16,
    pub(crate) rounds: u32,
    pub(crate) gate: &'a G,
}

/// Runs the node on a store of its own, and settles the store. This thread becomes the link; the client gets another.
/// If either ends early, it closes the network, so that no thread waits forever.
pub(crate) fn run_node<R: Threads + Wait + Sync, G: Gate + Sync>(
    context: &LoadContext<'_, R, G>,
    node: u16,
    inbox: Inbox,
) -> Result<NodeReport, Stop> {
    let outcome = open_store(context, node, &inbox);
    if outcome.is_err() {
        context.network.close(context.rt);
    }
    outcome
}

/// Runs the node on a new store, under a new brand.
fn open_store<R: Threads + Wait + Sync, G: Gate + Sync>(
    context: &LoadContext<'_, R, G>,
    node: u16,
    inbox: &Inbox,
) -> Result<NodeReport, Stop> {
    let opening = Opening::new(context.alloc)?;
    let committee = context.committee.try_clone()?;
    run_store::<Brand, R, G>(context, node, inbox, opening, committee, LIMITS)
}

/// Runs the node on the store that `L` names.
fn run_store<L: Home, R: Threads + Wait + Sync, G: Gate + Sync>(
    context: &LoadContext<'_, R, G>,
    node: u16,
    inbox: &Inbox,
    opening: Opening<DemoScheme>,
    committee: Shared<Committee>,
    limits: Limits,
) -> Result<NodeReport, Stop>
    requires log { opening.log ≡ L.log }
    requires ledger { (opening.ledger ≡ L.name) × (L.parts ≡ parts_of_a_ledger) }
    requires origin { first_origin committee limits ≡ L.origin }
{
    let store = new_store::<L>(context.alloc, opening, committee, limits)?;
    match run_threads(context, node, inbox, &store) {
        Ok((last, sessions)) => settle_node(node, store, sessions, last),
        Err(stop) => {
            drop(store);
            Err(stop)
        }
    }
}

/// A new store. The limits are within their ranges, so `BadLimits` never comes.
fn new_store<L: Home>(
    alloc: Global,
    opening: Opening<DemoScheme>,
    committee: Shared<Committee>,
    limits: Limits,
) -> Result<Store<DemoScheme, L>, Stop>
    requires log { opening.log ≡ L.log }
    requires ledger { (opening.ledger ≡ L.name) × (L.parts ≡ parts_of_a_ledger) }
    requires origin { first_origin committee limits ≡ L.origin }
{
    match Store::new(alloc, opening, committee, limits) {
        Ok(store) => Ok(store),
        Err(BookError::NoMemory) => Err(Stop::NoMemory),
        Err(BookError::BadLimits) => Err(Stop::CutOff),
    }
}

/// A new session of the store. The store allows two.
fn new_session<L: Home, R: Wait, G>(
    context: &LoadContext<'_, R, G>,
    node: u16,
    store: &Store<DemoScheme, L>,
) -> Result<Session<DemoScheme, L>, Stop> {
    match store.session(context.rt, context.alloc) {
        Ok(session) => Ok(session),
        Err(_too_many) => Err(Stop::Unsettled {
            node: u32::from(node),
        }),
    }
}

/// Runs the link and the client, each with a session of the store.
fn run_threads<L: Home, R: Threads + Wait + Sync, G: Gate + Sync>(
    context: &LoadContext<'_, R, G>,
    node: u16,
    inbox: &Inbox,
    store: &Store<DemoScheme, L>,
) -> Result<Finished<L>, Stop> {
    let (to_client, from_link) = unbounded(context.alloc)?;
    let first = new_session(context, node, store)?;
    match new_session(context, node, store) {
        Ok(second) => run_both(
            context,
            node,
            inbox,
            store,
            (first, second),
            (to_client, from_link),
        ),
        Err(stop) => {
            drop(first);
            Err(stop)
        }
    }
}

/// Settles the store with both sessions and returns the report.
fn settle_node<L: Home>(
    node: u16,
    store: Store<DemoScheme, L>,
    sessions: Vec<Session<DemoScheme, L>>,
    last: usize,
) -> Result<NodeReport, Stop> {
    match settle(store, sessions) {
        Ok(settled) => {
            let events = settled.history().len();
            drop(settled);
            Ok(NodeReport { events, last })
        }
        Err(refused) => {
            drop(refused);
            Err(Stop::Unsettled {
                node: u32::from(node),
            })
        }
    }
}
