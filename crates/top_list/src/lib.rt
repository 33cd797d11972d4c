//! The k least of the hits that a search offers, in order, each once.
//!
//! A [`TopList`] is in order at all times; a [`Gather`] is the same list while it is filled, and
//! takes many offers fast. Whoever scans in parts relies on one law: the k least of what a list
//! holds and of what is offered later are the k least of all that was offered.
#![tactic(auto)]

mod filling;
mod tops;
mod windows;

pub use crate::filling::Gather;
pub use crate::tops::TopList;

#[cfg(test)]
mod tests;
