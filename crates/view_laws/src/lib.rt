//! From what a look shows to the hits of a search: what is found in an exact view is the scan of the
//! journal's log, and what is found in the views of all channels is the scan of the whole. The layers
//! above search parts, and take from here that their hits are those of the log.
#![tactic(auto)]

mod examples;
mod laws;

pub use crate::examples::{small_views, two_channels};
pub use crate::laws::{channels, keys, rows, views};
