//! Starting a load: a thread for each node of a committee.
ghost use Rattle.std.specs.Prelude.{◌↔◌, IsErrOf};
ghost use Rattle.nw_load.specs.Size.{IsNodeCount, IsRoundCount};
ghost use Rattle.nw_load.specs.declared.fault.LoadFault.TheVariants as LoadFault;

use crate::fault::{LoadFault, Stop};
use crate::network::{Inbox, Network};
use crate::node::{LoadContext, run_node};
use crate::report::NodeReport;
use crate::size::{is_node_count, is_round_count};
use nw_committee::Committee;
use nw_digest::Shared;
use nw_intake::Gate;
use nw_interpreter::committee;
use nw_script::CommitteeLine;
use std::alloc::Global;
use std::sync::Wait;
use std::thread;
use std::thread::{JoinHandle, Scope, Threads};

/// The thread of a node.
type NodeThread = JoinHandle<Result<NodeReport, Stop>>;

/// Runs a load of `nodes` nodes over `rounds` rounds, and returns the nodes' reports in order. Each node has a store and two threads.
///
/// If several faults apply, it returns the first in the order of `LoadFault`. `BadNodes` and `BadRounds` are tested before anything
/// is allocated. It waits for all threads that it started.
pub fn load<G: Gate + Sync, R: Threads + Wait + Sync>(
    rt: &R,
    alloc: Global,
    nodes: u32,
    rounds: u32,
    gate: &G,
) -> Result<Vec<NodeReport>, LoadFault>
    ensures bad_nodes { IsErrOf result LoadFault.BadNodes ↔ (IsNodeCount nodes → ⊥) }
    ensures bad_rounds { IsErrOf result LoadFault.BadRounds
        ↔ (IsNodeCount nodes × (IsRoundCount rounds → ⊥)) }
{
    if !is_node_count(nodes) {
        return Err(LoadFault::BadNodes);
    }
    if !is_round_count(rounds) {
        return Err(LoadFault::BadRounds);
    }
    match run_all(rt, alloc, nodes as u16, rounds, gate) {
        Ok(reports) => Ok(reports),
        Err(Stop::NoMemory) => Err(LoadFault::NoMemory),
        Err(Stop::GateShut) => Err(LoadFault::GateShut),
        Err(Stop::Causal { node, round }) => Err(LoadFault::Causal { node, round }),
        Err(Stop::Unsettled { node }) => Err(LoadFault::Unsettled { node }),
        Err(Stop::Spawn | Stop::CutOff) => Err(LoadFault::Spawn),
    }
}

/// Runs all nodes.
fn run_all<G: Gate + Sync, R: Threads + Wait + Sync>(
    rt: &R,
    alloc: Global,
    nodes: u16,
    rounds: u32,
    gate: &G,
) -> Result<Vec<NodeReport>, Stop> {
    let committee = committee_of(alloc, nodes)?;
    let (network, inboxes) = Network::new(alloc, nodes)?;
    let context = LoadContext {
        rt,
        alloc,
        committee: &committee,
        network: &network,
        nodes,
        rounds,
        gate,
    };
    run_nodes(&context, inboxes)
}

/// A committee of members with equal weight, one for each node.
fn committee_of(alloc: Global, nodes: u16) -> Result<Shared<Committee>, Stop> {
    let members = u32::from(nodes);
    let committee = committee(alloc, &CommitteeLine::Equal { members })?;
    Ok(Shared::new(alloc, committee)?)
}

/// Runs each node in a thread.
fn run_nodes<G: Gate + Sync, R: Threads + Wait + Sync>(
    context: &LoadContext<'_, R, G>,
    inboxes: Vec<Inbox>,
) -> Result<Vec<NodeReport>, Stop> {
    thread::scope(thread::scope_env(), context.rt, |scope| {
        match start_all(scope, context, inboxes) {
            Ok(handles) => join_all(context, handles),
            Err(stop) => {
                context.network.close(context.rt);
                Err(stop)
            }
        }
    })
}

/// Starts a thread for each node. If one does not start, it closes the network and starts no more.
fn start_all<'s, 'e, G: Gate + Sync, R: Threads + Wait + Sync>(
    scope: &Scope<'s, &'e ()>,
    context: &'e LoadContext<'e, R, G>,
    inboxes: Vec<Inbox>,
) -> Result<Vec<NodeThread>, Stop> {
    let mut handles = Vec::with_capacity(context.alloc, inboxes.len())?;
    for (node, inbox) in (0..context.nodes).zip(inboxes) {
        match scope.spawn(move || run_node(context, node, inbox)) {
            Ok(handle) => handles.push(handle)?,
            Err(_) => {
                context.network.close(context.rt);
                return Ok(handles);
            }
        }
    }
    Ok(handles)
}

/// Waits for the threads and returns the reports of all nodes. If a node has none, it returns the first reason in the order of `Stop`.
fn join_all<G: Gate, R: Threads>(
    context: &LoadContext<'_, R, G>,
    handles: Vec<NodeThread>,
) -> Result<Vec<NodeReport>, Stop> {
    let nodes = usize::from(context.nodes);
    let mut stop = if handles.len() < nodes {
        Stop::Spawn
    } else {
        Stop::CutOff
    };
    let mut reports = Vec::with_capacity(context.alloc, nodes)?;
    for handle in handles {
        match handle.join(context.rt) {
            Ok(report) => reports.push(report)?,
            Err(other) => stop = stop.min(other),
        }
    }
    if reports.len() < nodes {
        Err(stop)
    } else {
        Ok(reports)
    }
}
