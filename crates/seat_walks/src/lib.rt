//! What a seat does at a table of turns, as a list of steps, and what follows from it: the seat's own
//! notes, what it had seen, and the numbers that it drew.
//!
//! The layer above says of each of its calls by which steps it took the seat on, and of many seats that
//! they were split off and joined. It relies on the laws: when the table has ended, all that was done is
//! told from the seats alone. Nothing here runs.
#![tactic(auto)]

mod laws;

pub use crate::laws::{
    a_table_tells_all, calls_are_steps, seats_are_joined, seats_are_split_off, seats_come_back,
    steps_add_up, steps_go_on,
};

#[cfg(test)]
mod tests;
