//! What a channel's journal means: the notes of its calls in order, the rows and the segments that
//! they leave, which notes the rules allow, and what a view of it shows. The layers above promise
//! their calls in these words; this crate proves the laws that every list of steps keeps.
#![tactic(auto)]

mod examples;
mod laws;
mod notes;
mod refusals;

pub use crate::examples::{worked_batches, worked_groups, worked_journals};
pub use crate::laws::{calls, counting, every_run, merges, order, parts, rows, segments};
pub use crate::notes::{Home, Kind, Note, PutKind};
pub use crate::refusals::MoveError;
