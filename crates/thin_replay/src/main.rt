//! Reads commands from standard input, one per line, and carries them out on a `ThinVec`. After
//! each command, prints the reply, and the length and the capacity of the list. `help` prints the
//! forms of the lines.
#![tactic(auto)]

use programs::replay::replay_error::ReplayError;
use programs::replay::{exit_code, replay};
use std::alloc::Global;
use std::io::{self, BufReader};
use std::process::ExitCode;

fn main(rt: HostRuntime) -> ExitCode {
    let answered = answer_input(&rt, rt.alloc());
    exit_code(&rt, answered)
}

fn answer_input(rt: &(impl Input + Print), alloc: Global) -> Result<(), ReplayError> {
    replay(alloc, BufReader::new(alloc, rt.reader())?, io::writer(rt))
}
