//! The lines of a phase: to which caller each belongs, and the text that answers them in their order.
//!
//! The layer above reads lines in one order and runs callers beside each other; it relies on this: each
//! caller is given exactly its own requests, in their order, and what is written answers line by line.
#![tactic(auto)]

mod lines;
mod places;
#[cfg(test)]
mod tests;
mod texts;

pub use crate::lines::{PhaseLines, Slot};
pub use crate::texts::append_lines;
