//! Rows of 8 bits without fields.

use row_types::{BitVector, Key, List, Memory, Row};
use std::alloc::Global;

/// The row of a key.
pub(crate) fn row(alloc: Global, key: i64, byte: u8) -> Result<Row, Memory> {
    Ok(Row {
        key: Key(key),
        vector: BitVector::from_bytes(alloc, &[byte])?,
        fields: List::empty(alloc),
    })
}
