//! The objects.

use hybrid_time::Timestamp;
use row_types::{BitVector, Key, List, Text};

/// The rows of a segment that died, each with the timestamp of its death, up to a position of the
/// journal.
#[derive(Debug, Drop)]
pub struct DeleteLog {
    /// The number of the segment, below 2^60.
    pub segment: u64,
    /// The position up to which deletes were applied.
    pub applied: u64,
    /// Row numbers, strictly rising and below 65,536, and when each row died.
    pub marks: List<(u32, Timestamp)>,
}

/// The values of one column, in the order of the rows.
#[derive(Debug, Drop)]
pub enum Column {
    Ints(List<i64>),
    Bools(List<bool>),
    Texts(List<Text>),
}

/// The rows of a segment: 1 to 65,536 rows, of which each has a position, a timestamp, a key, a
/// vector and a value in each of at most 16 columns, all in the same order.
#[derive(Debug, Drop)]
pub struct InsertLog {
    /// The number of the segment, below 2^60.
    pub segment: u64,
    /// The dimension of the vectors: a multiple of 8, 8 to 4,096.
    pub dim: u32,
    /// Positions in the journal, strictly rising.
    pub positions: List<u64>,
    /// Timestamps, which do not fall.
    pub stamps: List<Timestamp>,
    pub keys: List<Key>,
    pub vectors: List<BitVector>,
    /// Columns; a text has at most 1,024 bytes.
    pub columns: List<Column>,
}

/// The rows of a segment in lists, of which each row stands in exactly one: 1 to 1,024 lists of 1 to
/// 65,536 rows together.
#[derive(Debug, Drop)]
pub struct ListFile {
    /// The number of the segment, below 2^60.
    pub segment: u64,
    /// The version of the centroids by which the rows were sorted into lists.
    pub version: u32,
    /// Row numbers, strictly rising in each list.
    pub lists: List<List<u32>>,
}
