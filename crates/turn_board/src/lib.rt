//! The smallest value that stands behind turns: a board of entries, each with the seat that wrote it and
//! the number that the seat drew.
//!
//! It shows how a caller of the turn table works, and tries the table on threads.
#![tactic(auto)]

mod boards;
mod jobs;

pub use crate::boards::{Board, Entry};
pub use crate::jobs::{Job, run_all, write};

#[cfg(test)]
mod tests;
