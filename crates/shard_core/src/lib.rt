//! The shard of a channel: its journal, and the pieces that a look shows.
//!
//! A write touches the journal alone; what it changes of rows and boundaries is pending, and the rows
//! that it ends are open deaths, until a look brings the pieces up. The layer above relies on this:
//! each call is one step of the core, and each view that a look gives is exact.
#![tactic(auto)]

mod counting;
mod grouping;
mod groups;
mod keys;
mod kinds;
mod lagging;
mod laws;
mod merge_calls;
mod merging;
mod move_calls;
mod moving;
mod pending;
mod refusals;
mod replies;
mod shard;
mod turns;

pub use crate::counting::Counts;
pub use crate::keys::channel_of;
pub use crate::laws::{catching_up, looks, moves, notes};
pub use crate::merge_calls::{begun_merges, merged_parts};
pub use crate::merging::Merging;
pub use crate::move_calls::begun_moves;
pub use crate::moving::{Back, Moving};
pub use crate::pending::Pending;
pub use crate::replies::{Looked, PutReply, SealReply};
pub use crate::shard::Shard;
pub use crate::turns::{ShardBase, turn_notes};
