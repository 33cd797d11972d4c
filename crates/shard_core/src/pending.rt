//! What pieces still lack of their journal.

/// A row or a boundary that the journal has and the pieces do not have yet.
#[derive(Debug, Clone, Copy, PartialEq, Eq)]
pub enum Pending {
    /// The row that was put at the position joins the tail.
    Row { position: u64 },
    /// The tail becomes the segment of this number.
    Closed { number: u64 },
}
