//! The program, as its `main` calls it: it makes the real parts, calls `serve`, says on standard error
//! what went wrong, and gives the number of the status. All that it promises is the contract of
//! `serve`, and the number and the text of each status. Nothing but the programs stands on it: one for
//! each status that a run can be brought to.
#![tactic(auto)]

use manu_edge::{MapKeeper, OpenGate, StandardInput, StandardOutput, SystemClock};
use manu_serve::{Ended, Status, serve};
use row_types::Text;
use std::env;
use std::io::ErrorKind;
use std::process::ExitCode;
use std::sync::Wait;
use std::thread::Threads;

/// The whole program, from the words of the command line to the number that it ends by. `rt` gives the
/// words, the streams, the clock and memory; callers run on `threads`, which `main` gives from the same
/// runtime.
pub fn run<T: Threads + Wait + Sync>(rt: &HostRuntime, threads: &T) -> ExitCode {
    let status = served(rt, threads);
    if let Some(text) = status.text() {
        // Standard error that can't be written leaves the status alone to tell.
        let _ = eprintln!(rt; "{text}");
    }
    ExitCode::from(status.number())
}

fn served<T: Threads + Wait + Sync>(rt: &HostRuntime, threads: &T) -> Status {
    let words = match read_arguments(rt) {
        Ok(words) => words,
        Err(status) => return status,
    };
    let alloc = rt.alloc();
    let keeper = MapKeeper::new(alloc, Vec::new(alloc));
    let mut input = StandardInput::new(rt.stdin());
    let mut output = StandardOutput::new(rt.stdout());
    let clock = SystemClock::new(rt);
    let Ended { status, keeper: _ } = serve(
        threads,
        alloc,
        &words,
        &mut input,
        &mut output,
        keeper,
        &clock,
        &OpenGate,
    );
    status
}

// The words behind the program's name. Words that are no UTF-8 are none of the forms.
fn read_arguments(rt: &HostRuntime) -> Result<Vec<Text>, Status> {
    let arguments = env::args(rt).map_err(|error| match error.kind() {
        ErrorKind::OutOfMemory => Status::Memory,
        _ => Status::Usage,
    })?;
    let mut words = Vec::new(rt.alloc());
    for argument in arguments.skip(1) {
        words.push(Text::of(argument)).map_err(|_| Status::Memory)?;
    }
    Ok(words)
}
