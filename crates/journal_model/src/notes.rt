//! Notes of a channel's journal.

use hybrid_time::Timestamp;
use log_model::SharedRow;
use row_types::{Key, List};

/// Whether a put leaves a live row of its key as it is.
#[derive(Debug, Clone, Copy, PartialEq, Eq)]
pub enum PutKind {
    Insert,
    Upsert,
}

/// Where a segment stands: at the channel's leader, or on a node.
#[derive(Debug, Clone, Copy, PartialEq, Eq)]
pub enum Home {
    Leader,
    Node(u32),
}

/// What a note says.
#[derive(Debug, Drop)]
pub enum Kind {
    /// A row is put.
    Put {
        ts: Timestamp,
        how: PutKind,
        row: SharedRow,
    },
    /// The row of a key is taken away.
    Remove {
        ts: Timestamp,
        key: Key,
    },
    /// All that is written up to the timestamp stands in the journal.
    Tick {
        ts: Timestamp,
    },
    /// The tail becomes a waiting segment, if it has rows.
    Seal {
        ts: Timestamp,
    },
    /// A search looks at the channel.
    Look {
        guarantee: Timestamp,
    },
    /// A merge begins: a segment number is taken, and the floor is the shard's.
    Number {
        segment: u64,
        floor: Timestamp,
    },
    /// A place is added; the leader's goes.
    Load {
        segment: u64,
        node: u32,
    },
    /// A place goes.
    Release {
        segment: u64,
        node: u32,
    },
    /// The lists of a segment are there at its home.
    Lists {
        segment: u64,
    },
    /// The sources and all their places go; what they keep, if any row, is the segment on the node.
    Merge {
        sources: List<u64>,
        segment: Option<u64>,
        node: u32,
    },
}

/// A note, with the number of the seat that wrote it and the input line.
#[derive(Debug, Drop)]
pub struct Note {
    pub by: u64,
    pub line: u32,
    pub kind: Kind,
}
