//! Handoffs: the segments of a channel that wait at the leader are stored in the vault and loaded on a
//! node, each step under a turn of the channel or of the vault, while callers go on.
//!
//! The layer above relies on this: a handoff takes two seats on by turns alone, which draw nothing; what
//! was done for each segment stands in them in order, so that what is loaded was stored before; and a
//! segment is left exactly where a note of the vault is a failure, a loss or a damage.
#![tactic(auto)]

mod handoffs;
mod laws;
mod seats;
mod turns;

pub use crate::handoffs::{Left, handoff};
pub use crate::laws::handoffs_tell;
pub use crate::seats::Seats;
