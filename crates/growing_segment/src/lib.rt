//! The rows of a channel that no segment has yet, and where each live key's row was put.
//!
//! A [`Growing`] is its list of rows, and [`Growing::share`] gives a reader that list as it stands,
//! with most rows' words packed for a scan. A [`KeyIndex`] is a finite map from keys to positions.
//! Whoever has reserved room puts rows and sets keys without memory.
#![tactic(auto)]

mod blocks;
mod buckets;
mod chunks;
mod growing;
mod key_index;
mod shared_tail;
mod trees;

pub use crate::chunks::Chunk;
pub use crate::growing::Growing;
pub use crate::key_index::KeyIndex;
pub use crate::shared_tail::SharedTail;

#[cfg(test)]
mod tests;
