//! Rows at their places in a journal, and lists of them.

ghost use Rattle.std.specs.Prelude.{◌≡◌, ◌<◌, List, length, Some, slice_get};
ghost use Rattle.log_model.specs.Places.{Placed};

use crate::shared_rows::SharedRow;
use hybrid_time::Timestamp;
use std::marker::Model;

/// A row that was put, with the position of its note in the journal and its timestamp. Contracts see
/// it as the placed row.
#[derive(Debug, Drop)]
pub struct TailRow {
    pub position: u64,
    pub ts: Timestamp,
    pub row: SharedRow,
}

impl Model for TailRow {
    ghost use Rattle.log_model.specs.Places.{Placed, placed};

    ghost Value = { Placed };

    ghost view = { λ r. placed r.position r.ts.0 r.row };
}

/// A list of placed rows that is read row by row, as a tail that is to be sealed.
pub trait TailRows {
    /// The rows in order.
    ghost rows: { Self → List Placed };

    /// How many rows there are.
    fn len(&self) -> u32
        ensures { result ≡ length (rows self.now) };

    /// The row at a place; takes no memory.
    fn row(&self, i: u32) -> &TailRow
        requires { i < length (rows self.now) }
        ensures { slice_get (rows self.now) i ≡ Some result.now };
}
