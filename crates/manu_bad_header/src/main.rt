//! The program on an input whose line 1 is no `create` line: it writes nothing and ends by 2.
#![tactic(auto)]

use manu_program::run;
use std::process::ExitCode;

fn main(rt: HostRuntime) -> ExitCode {
    run(&rt, &rt)
}
