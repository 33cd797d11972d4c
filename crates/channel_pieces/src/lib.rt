//! The tail and the sealed segments of a channel, with the marks of their dead rows and their homes.
//!
//! [`Pieces`] is seen as plain data: the tail's rows and each segment's number, homes and rows, every
//! row with its mark. The layer above brings it up to the channel's journal, note by note or in one
//! go, and relies on this: a call does exactly what its definition says of that data, or wants memory
//! and leaves it as it was; parts and tails that were given to a reader never change.
#![tactic(auto)]

mod counting;
mod finds;
mod keeping;
mod marking;
mod pieces;
mod sealed_pieces;
mod tails;

pub use crate::counting::PieceCounts;
pub use crate::keeping::KeptRows;
pub use crate::pieces::Pieces;
