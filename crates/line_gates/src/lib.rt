//! Gates at which one line of an input waits for another, for the tests of what runs on threads.
//!
//! The tests rely on a hold letting both lines pass in the end, whatever they do; nothing else is said of it.
#![tactic(auto)]

mod holds;

pub use crate::holds::Hold;
