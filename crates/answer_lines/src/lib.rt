//! The answers of the database and the lines that show them.
//!
//! A line is compact JSON and a line feed; the layers above rely on each answer having exactly one
//! text, which the definition gives.
#![tactic(auto)]

mod answers;
mod lines;
mod reasons;
#[cfg(test)]
mod tests;
mod values;

pub use crate::answers::{Answer, MeetReply, Named, WriteReply, Wrote};
pub use crate::lines::line;
pub use crate::reasons::Reason;
