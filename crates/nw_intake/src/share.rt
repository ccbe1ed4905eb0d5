//! The work of one worker, in any thread.
ghost use Rattle.std.specs.Prelude.{◌^◌, ◌<◌, length, IfOk, IfErr};
ghost use Rattle.nw_check.specs.Message.{IsChecked};
ghost use Rattle.nw_intake.specs.Faults.{IsCheckFault};
ghost use Rattle.nw_intake.specs.Shares.{IsShareResult};

use crate::fault::ShareFault;
use crate::{Gate, Point, pass_start};
use nw_check::{Checked, check_message};
use nw_committee::Committee;
use nw_digest::Shared;
use nw_sig::Scheme;
use std::alloc::Global;
use std::collections::VecDeque;

/// The result of a worker: its answers in order, or why it stopped.
pub(crate) type ShareResult<S> = Result<VecDeque<Checked<S>>, ShareFault>;

/// Checks the worker's share of the texts, in order: each text i with i mod `workers` = `worker`.
pub(crate) fn check_share<S: Scheme, G: Gate>(
    alloc: Global,
    committee: &Shared<Committee>,
    texts: &[Vec<u8>],
    worker: usize,
    workers: usize,
    gate: &G,
) -> ShareResult<S>
    requires workers { 0 < workers }
    requires few { length texts.now < 2 ^ 32 }
    ensures { IsShareResult S.accepts committee.now texts.now
        (G.says gate.now) worker workers result }
{
    let mut answers = VecDeque::new(alloc);
    for (place, text) in texts.iter().enumerate() {
        if place % workers == worker {
            answers.push_back(check_one(alloc, committee, text, place as u32, gate)?)?;
        }
    }
    Ok(answers)
}

/// Checks the text at this place, after the gate lets it start.
fn check_one<S: Scheme, G: Gate>(
    alloc: Global,
    committee: &Shared<Committee>,
    text: &[u8],
    place: u32,
    gate: &G,
) -> Result<Checked<S>, ShareFault>
    ensures checked { IfOk result (IsChecked S.accepts committee.now text.now) }
    ensures fault { IfErr result (IsCheckFault (G.says gate.now) place) }
{
    pass_start(gate, Point::CheckStart(place))?;
    let answer = check_message(alloc, committee, text);
    gate.reach(Point::CheckDone(place));
    Ok(answer?)
}
