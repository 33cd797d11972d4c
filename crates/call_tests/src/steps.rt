//! What a caller may ask, over rows of 8 bits without fields.

ghost use Rattle.std.specs.Prelude.{◌≡◌, ◌≤◌, true, IfOk, IfSome};
ghost use Rattle.coarse_lists.specs.Collections.{IsRowOf};
ghost use Rattle.request_lines.specs.Requests.{FitsQuery};

use coarse_lists::Collection;
use hybrid_time::Level;
use log_model::Query;
use row_types::{BitVector, Key, List, Memory, Row};
use std::alloc::Global;

/// A request.
#[derive(Debug, Clone, Copy)]
pub(crate) enum Step {
    Insert(i64, u8),
    Upsert(i64, u8),
    Delete(i64),
    Tick,
    Seal,
    /// The two rows that are nearest to `00`.
    Search { level: Level, wait: bool },
    Get { key: i64, level: Level, wait: bool },
}

/// The row of a key. A collection that does not take it answers as where memory is wanting.
pub(crate) fn row(alloc: Global, collection: &Collection, key: i64, byte: u8) -> Result<Row, Memory>
    ensures { IfOk result (IsRowOf collection.now) }
{
    let row = Row {
        key: Key(key),
        vector: BitVector::from_bytes(alloc, &[byte])?,
        fields: List::empty(alloc),
    };
    if is_row_of(collection, &row) {
        Ok(row)
    } else {
        Err(Memory)
    }
}

fn is_row_of(collection: &Collection, row: &Row) -> bool
    ensures { result ≡ true → IsRowOf collection.now row.now }
{
    let columns = collection.schema.columns.as_slice();
    let fields = row.fields.as_slice();
    if !columns.is_empty() || !fields.is_empty() {
        return false;
    }
    row.vector.dim() == collection.dim
}

/// The query for the two rows that are nearest to `00`. A collection whose vectors have another dimension
/// answers as where memory is wanting.
pub(crate) fn two_nearest(alloc: Global, collection: &Collection) -> Result<Query, Memory>
    ensures { IfOk result (FitsQuery collection.now) }
{
    let vector = BitVector::from_bytes(alloc, &[0])?;
    if vector.dim() != collection.dim {
        return Err(Memory);
    }
    Ok(Query {
        vector,
        k: 2,
        filter: None,
    })
}
