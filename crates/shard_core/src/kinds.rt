//! The kinds of a collection's columns.

ghost use Rattle.std.specs.Prelude.{◌≡◌, IfOk};
ghost use Rattle.shard_core.specs.Kept.{kinds_in};

use row_types::{Kind, Memory, Text};
use std::alloc::Global;

/// The kind of each column.
pub(crate) fn column_kinds(alloc: Global, columns: &[(Text, Kind)]) -> Result<Vec<Kind>, Memory>
    ensures { IfOk result (λ kinds. kinds.items ≡ kinds_in columns.now) }
{
    let mut kinds = Vec::with_capacity(alloc, columns.len())?;
    'columns: for column in columns {
        kinds.push(column.1)?;
    }
    Ok(kinds)
}
