//! Answers.

use crate::reasons::Reason;
use hybrid_time::Timestamp;
use row_types::{Hit, List, Row, Text};

/// What a write met.
#[derive(Debug, Clone, Copy, PartialEq, Eq)]
pub enum Wrote {
    /// An insert of a key that was not live.
    Inserted,
    /// An insert of a key that was live, which changed nothing.
    Exists,
    /// An upsert or a delete, and whether the key was live.
    Was(bool),
}

/// The answer to a write.
#[derive(Debug, Clone, Copy, PartialEq, Eq)]
pub struct WriteReply {
    pub ts: Timestamp,
    pub what: Wrote,
}

/// A row as it is shown, with the names of its columns.
#[derive(Debug, Drop)]
pub struct Named {
    pub row: Row,
    /// The names of the row's fields, in the order of the schema's columns.
    pub names: List<Text>,
}

/// What is counted when all work has come to rest, at a meet and at the end.
#[derive(Debug, Clone, Copy, PartialEq, Eq)]
pub struct MeetReply {
    pub ts: Timestamp,
    /// The keys that are live at `ts`.
    pub live: u64,
    /// The rows in the tails of all channels.
    pub tail: u64,
    /// The sealed segments that no node holds.
    pub waiting: u64,
    /// The rows of the segments on nodes, each segment once.
    pub node_rows: u64,
    /// Those of these rows that are live at `ts`.
    pub node_live: u64,
    /// The failures since the last meet.
    pub failed: u64,
}

/// The answer to a line.
#[derive(Debug, Drop)]
pub enum Answer {
    /// The header was read.
    Created,
    Wrote(WriteReply),
    /// The hits of a search that began at `now`, in a snapshot at `ts`, which is not below the
    /// guarantee of the search's level.
    Hits {
        now: Timestamp,
        guarantee: Timestamp,
        ts: Timestamp,
        hits: List<Hit>,
    },
    /// The row of a key, where it is live, in a snapshot at `ts`.
    Found {
        now: Timestamp,
        guarantee: Timestamp,
        ts: Timestamp,
        row: Option<Named>,
    },
    /// A read that does not wait: the channel's tick is below the guarantee.
    Pending {
        now: Timestamp,
        guarantee: Timestamp,
        channel: u32,
        tick: Timestamp,
    },
    /// One tick a channel, in the order of channels.
    Ticked(List<Timestamp>),
    /// For each channel, in their order, its timestamp and the rows that were sealed.
    Sealed(List<(Timestamp, u32)>),
    /// All work has come to rest.
    Met(MeetReply),
    /// The input has ended.
    End(MeetReply),
    /// The line is no request.
    Refused(Reason),
}
