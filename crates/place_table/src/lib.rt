//! Which segments stand where: at their channel's leader, or on nodes.
//!
//! The table is seen as a finite map from segments to their rows and homes. The layer above relies on
//! this: a load takes the leader's place away, a segment never loses its last place, each refusal
//! comes exactly on the homes that it names, and the node that is chosen is the one with the fewest
//! rows.
#![tactic(auto)]

mod placements;
mod places;
mod refusals;
mod segments;
#[cfg(test)]
mod tests;

pub use crate::places::Places;
pub use crate::refusals::PlaceError;
