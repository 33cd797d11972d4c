//! What the calls of a shard answer.

use channel_view::View;
use hybrid_time::Timestamp;

/// What a put did.
#[derive(Debug, Clone, Copy, PartialEq, Eq)]
pub enum PutReply {
    /// The row was added; `was` tells whether it took the place of one.
    Wrote { was: bool },
    /// The put is an insert of a live key, and did nothing.
    Exists,
}

/// What a seal did.
#[derive(Debug, Clone, Copy, PartialEq, Eq)]
pub enum SealReply {
    /// The rows of the tail became this segment.
    Sealed { segment: u64, rows: u32 },
    /// The tail had no rows.
    Empty,
}

/// What a look gives.
#[derive(Drop)]
pub enum Looked {
    Served(View),
    /// The tick is below the guarantee.
    Pending { tick: Timestamp },
}
