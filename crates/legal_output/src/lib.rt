//! What a legal output is: for the bytes of an input, which lines may be printed.
//!
//! The definition speaks of the printed lines alone and names nothing of how they were made. The layer
//! above keeps an account of a run, phase by phase or line by line, and relies on the law that such a
//! run is legal.
#![tactic(auto)]

mod examples;
mod laws;

pub use crate::examples::clauses_are_needed;
pub use crate::laws::{less_known_suffices, members_suffice, phases_are_legal, runs_are_legal};
