//! The scan of rows that stand together, of a part or of a tail: each row that is visible at a
//! timestamp and passes the query's filter is offered to a list that is being filled.
//!
//! The search of a view fills one list over its tail and all its parts and settles it once. It relies
//! on this: exactly the hits of the visible rows that pass were offered, each row took one step, and
//! no memory was taken.
#![tactic(auto)]

mod bars;
mod columns;
mod distances;
mod finds;
mod parts;
mod pieces;
mod rows;
mod scans;
mod tails;

pub use crate::finds::{find, find_in_tail};
pub use crate::parts::scan;
pub use crate::tails::scan_tail;

#[cfg(test)]
mod tests;
