//! A row with several owners, which contracts see as the row.

ghost use Rattle.std.specs.Prelude.{◌≡◌, IfOk};
ghost use Rattle.std.specs.Arc.{arc_value};

use row_types::{Memory, Row};
use std::alloc::Global;
use std::marker::Model;
use std::sync::Arc;

/// A row with several owners, which contracts see as the row.
#[derive(Debug, Drop)]
pub struct SharedRow {
    row: Arc<Row, Global>,
}

impl Model for SharedRow {
    ghost use Rattle.std.specs.Arc.{arc_value};
    ghost use Rattle.row_types.specs.declared.rows.Row.{Row};

    ghost Value = { Row };

    ghost view = { λ r. arc_value r.row };
}

impl SharedRow {
    /// The row of this owner; takes no memory.
    pub fn of(row: Arc<Row, Global>) -> SharedRow
        ensures { result ≡ arc_value row }
    {
        SharedRow { row }
    }

    /// One more owner of the row. Want of memory, or of room for one more owner, leaves the owners as
    /// they were.
    pub fn share(&self) -> Result<SharedRow, Memory>
        ensures { IfOk result (λ r. r ≡ self.now) }
    {
        let row = Arc::try_clone(&self.row)?;
        Ok(SharedRow { row })
    }

    /// The row.
    pub fn get(&self) -> &Row
        ensures { result.now ≡ self.now }
    {
        &self.row
    }
}
