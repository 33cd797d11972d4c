//! The query node: it fetches the objects of a part from a keeper and makes the part of them.
//!
//! The layer above relies on this: where a fetch is done, each object was got as it is spelled and
//! the part is the one that was asked for; else the answer names the first object that was not, and
//! why.
#![tactic(auto)]

mod comparing;
mod fetching;
mod making;
mod refusals;

pub use crate::fetching::fetch;
pub use crate::refusals::FetchError;
