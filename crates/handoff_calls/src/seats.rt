//! The two seats of who moves segments.

use shard_core::Shard;
use turn_table::{Journalled, Seat};

/// A seat of the channels, and one of the vault. It is generic in what stands behind the second, and not
/// in its keeper, so that it may go to another thread.
#[derive(Drop)]
pub struct Seats<V: Journalled> {
    pub front: Seat<Shard>,
    pub vault: Seat<V>,
}
