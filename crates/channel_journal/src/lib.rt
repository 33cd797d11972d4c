//! The journal of one channel as it is written: the notes, where each live key's row was put, and the
//! counters that every write needs.
//!
//! A [`Journal`] is its channel, its notes and its floor, and its state is sound at all times. The layer
//! above reserves room, appends notes without memory, and learns from each call what the note did to the
//! rows; what a search is shown it keeps itself, and brings it up to the journal when it is asked.
#![tactic(auto)]

mod chunks;
mod counters;
mod journal;
mod laws;
mod notes;
mod outcomes;

pub use crate::journal::Journal;
pub use crate::laws::layouts;
pub use crate::outcomes::{LookOutcome, PutOutcome, RemoveOutcome, SealOutcome};

#[cfg(test)]
mod tests;
