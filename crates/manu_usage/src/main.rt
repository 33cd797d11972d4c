//! The program on words that are no form of the command line: it reads and writes nothing, and ends
//! by 64.
#![tactic(auto)]

use manu_program::run;
use std::process::ExitCode;

fn main(rt: HostRuntime) -> ExitCode {
    run(&rt, &rt)
}
