//! Threads that tick the channels of a collection side by side, each with a seat of its own, and what
//! stands in the channels once all have ended. Callers on threads rely on its `proofs/Crossing`: shards
//! and seats go to other threads, and threads share shards and fronts.
#![tactic(auto)]

mod jobs;

pub use crate::jobs::{Job, run_all};

#[cfg(test)]
mod fronts;
#[cfg(test)]
mod meetings;
#[cfg(test)]
mod tests;
