//! The part of the worked examples, and the bytes of its objects.

use binlog_format::{FormatError, ListFile, read_insert};
use hybrid_time::Timestamp;
use row_types::List;
use seg_sealed::{Marks, Part, Sealed};
use std::alloc::Global;
use std::process::Abort;
use std::sync::Arc;
use std::test::Fail;

/// Segment 0 of dimension 8, one row at position 0 with timestamp 1, key 1 and vector 0f.
pub(crate) const INSERTS: [u8; 53] = [
    0x4d, 0x41, 0x4e, 0x55, 0x49, 0x4e, 0x53, 0x31, // the name
    0, 0, 0, 0, 0, 0, 0, 0, // the segment
    8, 0, 0, 0, // the dimension
    1, 0, 0, 0, // the number of rows
    0, 0, 0, 0, // the number of columns
    0, 0, 0, 0, 0, 0, 0, 0, // the position
    1, 0, 0, 0, 0, 0, 0, 0, // the timestamp
    1, 0, 0, 0, 0, 0, 0, 0, // the key
    0x0f, // the vector
];

/// Segment 0, deaths marked up to position 5: row 0 died at 3.
pub(crate) const DELETES: [u8; 40] = [
    0x4d, 0x41, 0x4e, 0x55, 0x44, 0x45, 0x4c, 0x31, // the name
    0, 0, 0, 0, 0, 0, 0, 0, // the segment
    5, 0, 0, 0, 0, 0, 0, 0, // the position
    1, 0, 0, 0, // the number of marks
    0, 0, 0, 0, // the row
    3, 0, 0, 0, 0, 0, 0, 0, // the timestamp
];

/// Segment 0, version 0, one list of row 0.
pub(crate) const LISTS: [u8; 36] = [
    0x4d, 0x41, 0x4e, 0x55, 0x4c, 0x53, 0x54, 0x31, // the name
    0, 0, 0, 0, 0, 0, 0, 0, // the segment
    0, 0, 0, 0, // the version
    1, 0, 0, 0, // the number of lists
    1, 0, 0, 0, // the number of rows
    1, 0, 0, 0, // the length of the list
    0, 0, 0, 0, // the row
];

/// The part of these bytes but for its lists.
pub(crate) fn unlisted(rt: &impl Abort, alloc: Global) -> Result<Part, Fail> {
    Ok(with_marks(rt, alloc, sealed(alloc)?)?)
}

/// The part of these bytes.
pub(crate) fn listed(rt: &impl Abort, alloc: Global) -> Result<Part, Fail> {
    let sealed = sealed(alloc)?;
    assert_eq!(rt; sealed.number(), 0);
    assert_eq!(rt; sealed.len(), 1);
    let file = ListFile {
        segment: 0,
        version: 0,
        lists: List::of(vec![in alloc; List::of(vec![in alloc; 0]?)]?),
    };
    Ok(with_marks(rt, alloc, sealed.with_lists(alloc, file)?)?)
}

fn sealed(alloc: Global) -> Result<Sealed, FormatError> {
    match read_insert(alloc, &INSERTS) {
        Ok(log) => Ok(Sealed::of_log(alloc, log)?),
        Err(error) => Err(error),
    }
}

fn with_marks(rt: &impl Abort, alloc: Global, sealed: Sealed) -> Result<Part, Fail> {
    assert_eq!(rt; sealed.len(), 1);
    let mut marks = Marks::new(alloc, 5)?;
    marks.reserve(alloc, 1)?;
    marks.mark(0, Timestamp(3));
    Ok(Part::new(Arc::new(alloc, sealed)?, Arc::new(alloc, marks)?))
}
