//! The data and index node: it stores the objects of a part in a keeper.
//!
//! The layer above relies on this: where a flush is done the keeper has each object of the part as it
//! is spelled, and whatever the answer nothing else that is kept changes.
#![tactic(auto)]

mod flushing;
mod refusals;

pub use crate::flushing::flush;
pub use crate::refusals::FlushError;
