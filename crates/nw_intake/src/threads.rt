//! Runs each worker in its own thread.
ghost use Rattle.std.specs.Prelude.{◌≡◌, ◌^◌, ◌<◌, ◌≤◌, length, map, Ok, IfOk, IfErr, vec_len};
ghost use Rattle.std.specs.List.{AllZip};
ghost use Rattle.nw_intake.specs.Answers.{AnswersText};
ghost use Rattle.nw_intake.specs.Faults.{IsWorkerCount};
ghost use Rattle.nw_intake.specs.Promised.{ArePromised};
ghost use Rattle.nw_intake.specs.Shares.{AreShareResults, IsIntakeFault, IsJointFault};

use crate::fault::ShareFault;
use crate::order::put_in_order;
use crate::promise::SharePromise;
use crate::share::{ShareResult, check_share};
use crate::{Gate, IntakeFault};
use nw_check::Checked;
use nw_committee::Committee;
use nw_digest::{NoMemory, Shared};
use nw_sig::Scheme;
use std::alloc::Global;
use std::collections::VecDeque;
use std::marker::PhantomData;
use std::sync::Wait;
use std::thread;
use std::thread::{PromisedHandle, Scope, Threads, join_promised};

/// The maximum number of workers.
const MAX_WORKERS: usize = 16;

/// Checks the texts in as many threads as there are workers. Returns one answer for each text, in order.
///
/// Thread i mod `workers` checks text i. Before the check it waits at `CheckStart(i)` until the gate lets it start, and after the
/// check it reports `CheckDone(i)`. All started threads have ended when `check_all` returns. It consumes the texts, even on error.
///
/// The error is the first of these that applies:
///
/// 1. `BadWorkers`: the number of workers is not between 1 and 16. Nothing was allocated, and no thread was started.
/// 2. `NoMemory`: an allocation failed.
/// 3. `Spawn`: a thread could not be started, for example because memory ran out.
/// 4. `GateShut`: the gate did not let a check start.
pub fn check_all<S: Scheme + Send, G: Gate + Sync, R: Threads + Wait + Sync>(
    rt: &R,
    alloc: Global,
    committee: &Shared<Committee>,
    texts: Vec<Vec<u8>>,
    workers: usize,
    gate: &G,
) -> Result<Vec<Checked<S>>, IntakeFault>
    requires { vec_len texts < 2 ^ 32 }
    ensures workers { IfOk result (λ _. IsWorkerCount workers) }
    ensures checked { IfOk result
        (λ answers. AllZip (AnswersText S.accepts committee.now) texts.items answers.items) }
    ensures fault { IfErr result (IsIntakeFault S S.accepts committee.now texts.items
        (G.says gate.now) workers) }
{
    if workers == 0 || workers > MAX_WORKERS {
        return Err(IntakeFault::BadWorkers);
    }
    let results = run_all(rt, alloc, committee, texts.as_slice(), workers, gate)?;
    let shares = joined(alloc, results, workers)?;
    Ok(put_in_order(alloc, shares, texts.len())?)
}

/// The results of the workers, in the order of their numbers. If a thread was not started, there are fewer results than workers.
fn run_all<S: Scheme + Send, G: Gate + Sync, R: Threads + Wait + Sync>(
    rt: &R,
    alloc: Global,
    committee: &Shared<Committee>,
    texts: &[Vec<u8>],
    workers: usize,
    gate: &G,
) -> Result<Vec<ShareResult<S>>, NoMemory>
    requires workers { 0 < workers }
    requires few { length texts.now < 2 ^ 32 }
    ensures { IfOk result (λ results.
        AreShareResults S.accepts committee.now texts.now (G.says gate.now) workers results.items) }
{
    thread::scope(
        thread::scope_env(),
        rt,
        |scope| -> Result<Vec<ShareResult<S>>, NoMemory>
            requires { (0 < workers) × (length texts.now < 2 ^ 32) }
            ensures { IfOk result (λ results. AreShareResults S.accepts committee.entry.now
                texts.entry.now (G.says gate.entry.now) workers results.items) }
        {
            let handles = start_all(alloc, scope, committee, texts, workers, gate)?;
            match join_promised(rt, handles) {
                Ok(results) => Ok(results),
                Err(_) => Err(NoMemory),
            }
        },
    )
}

/// Starts the workers in the order of their numbers, until one cannot be started. Returns the handles of the started workers.
fn start_all<'s, 'e, S: Scheme + Send + 'e, G: Gate + Sync>(
    alloc: Global,
    scope: &Scope<'s, &'e ()>,
    committee: &'e Shared<Committee>,
    texts: &'e [Vec<u8>],
    workers: usize,
    gate: &'e G,
) -> Result<Vec<PromisedHandle<ShareResult<S>, SharePromise<'e, S, G>>>, NoMemory>
    requires workers { 0 < workers }
    requires few { length texts.now < 2 ^ 32 }
    ensures few { IfOk result (λ handles. length handles.items ≤ workers) }
    ensures each { IfOk result
        (λ handles. ArePromised committee.now texts.now gate.now workers handles.items) }
{
    let mut handles = Vec::new(alloc);
    for worker in 0..workers {
        let promise = SharePromise {
            committee,
            texts,
            worker,
            workers,
            gate,
            scheme: PhantomData,
        };
        match scope.spawn_with(
            promise,
            move || check_share(alloc, committee, texts, worker, workers, gate),
        ) {
            Ok(handle) => handles.push(handle)?,
            Err(_) => return Ok(handles),
        }
    }
    Ok(handles)
}

/// The shares of all workers, or the first fault that applies.
fn joined<S: Scheme>(
    alloc: Global,
    results: Vec<ShareResult<S>>,
    workers: usize,
) -> Result<Vec<VecDeque<Checked<S>>>, IntakeFault>
    requires { length results.items ≤ workers }
    ensures shares { IfOk result (λ shares. (results.items ≡ map (λ share. Ok share) shares.items)
        × (length shares.items ≡ workers)) }
    ensures fault { IfErr result (IsJointFault workers results.items) }
{
    let started = results.len();
    let mut shares = Vec::new(alloc);
    let mut shut = false;
    for result in results {
        match result {
            Ok(share) => shares.push(share)?,
            Err(fault) => match fault {
                ShareFault::NoMemory => return Err(IntakeFault::NoMemory),
                ShareFault::GateShut => shut = true,
            },
        }
    }
    if started < workers {
        Err(IntakeFault::Spawn)
    } else if shut {
        Err(IntakeFault::GateShut)
    } else {
        Ok(shares)
    }
}
