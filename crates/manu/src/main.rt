//! The program. Its stored run is the shortest session.
#![tactic(auto)]

use manu_program::run;
use std::process::ExitCode;

fn main(rt: HostRuntime) -> ExitCode {
    run(&rt, &rt)
}
