//! The smallest engine behind the reader that answers phase by phase: it says each line again.
//!
//! Nothing of the product stands on it. It shows that an engine can keep what the reader asks, and its
//! tests show the reader at work.
#![tactic(auto)]

mod echoing;

pub use crate::echoing::Echo;

#[cfg(test)]
mod tests;
