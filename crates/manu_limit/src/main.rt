//! The program on an input of one line too many and without a meet: it writes the created line alone, and ends by 6.
#![tactic(auto)]

use manu_program::run;
use std::process::ExitCode;

fn main(rt: HostRuntime) -> ExitCode {
    run(&rt, &rt)
}
