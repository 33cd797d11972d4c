//! The channels of a collection between phases, when no thread is at work.
//!
//! The layer above reads lines and keeps the account of what was printed; it relies on this: a phase of
//! lines is run as the model of phases asks, with the text that answers them, and a meet brings all
//! channels to rest.
#![tactic(auto)]

mod channels;
#[cfg(test)]
mod tests;

pub use crate::channels::Channels;
