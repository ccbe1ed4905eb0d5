//! Plays a script from standard input to standard output, or runs a load and prints its report.
//!
//! Without arguments it plays a script. With the arguments `load`, a number of nodes and a number of rounds, it runs a load. The exit
//! status is
//!
//! - 0 if the script was played to its end, or the load has a report;
//! - 1 if the script could not be read or was too long, output could not be written, or an allocation failed outside a load;
//! - 2 if a line of the script is bad, or the arguments are other words;
//! - 3 if the load failed, or the sessions of a store differ, which no script can cause.
#![tactic(auto)]

use nw_load::run;
use nw_play::{PlayFault, play};
use std::alloc::{AllocError, Global};
use std::env::{self, Args};
use std::io::ErrorKind;
use std::process::ExitCode;

// The exit status if the arguments are bad. They are tested before anything else is read or run.
const BAD_ARGUMENTS: u8 = 2;

fn main(rt: HostRuntime) -> ExitCode {
    let words = match env::args(&rt) {
        Ok(given) => without_program_name(rt.alloc(), given),
        Err(error) if error.kind() == ErrorKind::OutOfMemory => return ExitCode::FAILURE,
        Err(_) => return ExitCode::from(BAD_ARGUMENTS),
    };
    match words {
        Ok(words) if words.is_empty() => {
            ExitCode::from(status(play(&rt, rt.alloc(), rt.stdin(), rt.stdout())))
        }
        Ok(words) => ExitCode::from(run(&rt, rt.alloc(), &words, &mut rt.stdout())),
        Err(AllocError) => ExitCode::FAILURE,
    }
}

// The arguments after the first, which is the name of the program.
fn without_program_name(alloc: Global, given: Args<Global>) -> Result<Vec<String>, AllocError> {
    given.skip(1).collect(alloc)
}

// The exit status of a play.
fn status(outcome: Result<(), PlayFault>) -> u8 {
    match outcome {
        Ok(()) => 0,
        Err(PlayFault::Read | PlayFault::Write | PlayFault::TooLong | PlayFault::NoMemory) => 1,
        Err(PlayFault::BadLine { .. }) => 2,
        Err(PlayFault::Differs { .. }) => 3,
    }
}
