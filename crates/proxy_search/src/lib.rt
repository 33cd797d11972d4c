//! The reads of a caller over the channels of a collection: the nearest rows of a query, and the row of
//! a key, each in a snapshot that is as fresh as a level says.
//!
//! The layer above relies on this: a read takes its seat on by one number, drawn first, and by one look
//! at each channel that it needs, and its answer is the scan of what those looks found, or the row of
//! the key there. No turn is held while rows are scanned.
#![tactic(auto)]

mod gets;
mod rounds;
mod searches;

pub use crate::gets::get;
pub use crate::searches::search;
