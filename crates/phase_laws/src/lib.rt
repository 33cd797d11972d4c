//! From phases of callers beside each other, each with a meet behind it, to what may be printed.
//!
//! The layer above keeps the record of what has run (`HasRun`), phase by phase, and relies on the law that
//! what it printed is legal: whole with its end, and stopped after each meet. Nothing here runs.
#![tactic(auto)]

mod examples;
mod laws;

pub use crate::examples::a_small_run;
pub use crate::laws::{a_phase_tells, runs_are_legal, runs_are_timely, runs_go_on};

#[cfg(test)]
mod tests;
