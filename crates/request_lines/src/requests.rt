//! Requests.

use hybrid_time::Level;
use log_model::{Query, Write};
use row_types::Key;

/// What a caller asks.
#[derive(Debug, Drop)]
pub struct Request {
    /// The number of the caller, at most 15; a meet is no caller's, and 0 stands there.
    pub caller: u32,
    pub what: Ask,
}

/// What is asked.
#[derive(Debug, Drop)]
pub enum Ask {
    Write(Write),
    /// The hits of a query in a snapshot that is as fresh as the level says.
    Search {
        query: Query,
        level: Level,
        /// Whether the search may wait until a snapshot is fresh enough.
        wait: bool,
    },
    /// The row of a key in a snapshot that is as fresh as the level says.
    Get {
        key: Key,
        level: Level,
        /// Whether the read may wait until a snapshot is fresh enough.
        wait: bool,
    },
    /// A tick in each channel.
    Tick,
    /// The end of each channel's tail, which becomes a segment.
    Seal,
    /// That all work comes to rest; no caller asks it.
    Meet,
}
