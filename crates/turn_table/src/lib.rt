//! Values behind turns that threads take: each turn is one seat's alone, and what a seat knows of the
//! values' journals stays true while other threads go on.
//!
//! The layer above relies on this: a turn extends a value's journal by notes of its own seat alone and
//! changes no base; a drawn number is above all that the seat has seen or drawn, and no number is drawn
//! twice; closing gives the values back with the journals that the last seat has seen, in which no note
//! is of anyone else.
#![tactic(auto)]

mod ends;
mod journalled;
mod knows;
mod numbers;
mod plays;
mod seats;
mod tables;
mod turns;

pub use crate::journalled::Journalled;
pub use crate::knows::{Know, Part};
pub use crate::seats::Seat;
pub use crate::tables::{Knowing, Opening, Turns};
pub use crate::turns::Turn;
