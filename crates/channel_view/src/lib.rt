//! What a look gives of a channel: all that a search needs, owned, and changed by nobody.
//!
//! The search of a view relies on this: its rows are those of the tail and of one part for each place
//! of a segment, all of the collection, and its floor is not above its tick.
#![tactic(auto)]

mod views;

pub use crate::views::View;

#[cfg(test)]
mod tests;
