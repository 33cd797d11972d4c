//! What runs when callers act beside each other, and what brings all channels to rest.
//!
//! The layer above strings phases and meets together and relies on this: a phase is what the model of
//! phases asks, whatever order its callers act in; and a meet ticks each channel at one number, which
//! becomes the floor, and answers the counts of all channels together.
#![tactic(auto)]

mod callers;
mod jobs;
mod meets;
mod phases;
mod requests;
mod rounds;
mod works;

pub use crate::meets::meet;
pub use crate::phases::run_phase;
pub use crate::works::{Done, PhaseEnd, Roles, Stop, Work};
