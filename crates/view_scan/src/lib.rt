//! The search of a view: the nearest rows at a timestamp, and the row of a key.
//!
//! Whoever searches a channel relies on this: what is found in an exact view is the scan of the log of
//! the journal that was looked at, and of every journal that extends it; a row of a key is found
//! exactly where the key is live. Each row of the view takes at most one step.
#![tactic(auto)]

mod lookups;
mod searches;

pub use crate::lookups::find;
pub use crate::searches::{offer_all, run};

#[cfg(test)]
mod tests;
