//! The search of several views, one of each channel: the nearest of all rows that they show.
//!
//! Whoever searches a collection relies on this: what is found in the views of looks at all channels is
//! the scan of the whole of their logs, and of the logs of all journals that extend theirs. One list
//! gathers the rows of all views, and each row takes one step.
#![tactic(auto)]

mod searches;

pub use crate::searches::search;
