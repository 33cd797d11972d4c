//! What the calls of a journal tell.

use hybrid_time::Timestamp;

/// What a put did.
#[derive(Debug, Clone, Copy, PartialEq, Eq)]
pub enum PutOutcome {
    /// The put is an insert of a live key: no row was added, and none ended.
    Exists,
    /// The row was added. Where its key was live, the row at the position `ended` ended. Where the tail
    /// was full with the new row, it became the segment of the number `sealed`.
    Added {
        ended: Option<u64>,
        sealed: Option<u64>,
    },
}

/// What a remove did: where its key was live, the row at the position `ended` ended.
#[derive(Debug, Clone, Copy, PartialEq, Eq)]
pub struct RemoveOutcome {
    pub ended: Option<u64>,
}

/// What a seal did.
#[derive(Debug, Clone, Copy, PartialEq, Eq)]
pub enum SealOutcome {
    /// The tail had no rows, and no number was taken.
    Empty,
    /// The rows of the tail became the segment of this number.
    Segment { number: u64, rows: u32 },
}

/// Whether a look is served.
#[derive(Debug, Clone, Copy, PartialEq, Eq)]
pub enum LookOutcome {
    Served,
    /// The tick is below the guarantee.
    Pending { tick: Timestamp },
}
