//! A row that a merge keeps.

use hybrid_time::Timestamp;

/// A row of one of several parts: its position in the journal, the place of its part among them, its
/// number in that part, and its death, if it is marked.
#[derive(Debug, Clone, Copy)]
pub(crate) struct Kept {
    pub(crate) position: u64,
    pub(crate) part: usize,
    pub(crate) row: u32,
    pub(crate) death: Option<Timestamp>,
}
