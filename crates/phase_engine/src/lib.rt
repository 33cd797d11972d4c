//! The engine that answers an input: what line 1 makes, the phases behind it, and the end.
//!
//! The reader below gives each line as it ends and writes what it is given; the layer above relies on
//! this: what is written is the beginning of a legal output, whatever order the callers of a phase
//! acted in.
#![tactic(auto)]

mod engine;
mod running;
mod serving;
mod texts;

pub use crate::serving::serve;

#[cfg(test)]
mod tests;
