//! Reading the lines of the input: the header that makes a collection, and the requests.
//!
//! What a line means is a definition over the JSON value of its bytes; the layers above rely on each
//! line being read as that definition says, or refused for the first reason that holds of it.
#![tactic(auto)]

mod fields;
mod filters;
mod headers;
mod lines;
mod members;
mod operations;
mod refusals;
mod requests;
#[cfg(test)]
mod tests;
mod values;

pub use crate::headers::read_header;
pub use crate::lines::read_line;
pub use crate::refusals::{HeaderError, LineError};
pub use crate::requests::{Ask, Request};
pub use coarse_lists::{Collection, Index};
