//! The row of a key in a view.

ghost use Rattle.std.specs.Prelude.{◌≡◌, ◌≤◌, ◌<◌, ◌++◌, List, length, map, slice_get, Some, IfOk};
ghost use Rattle.std.specs.Option.{option_map};
ghost use Rattle.std.specs.FinMap as fin;
ghost use Rattle.log_model.specs.Logs.{live};
ghost use Rattle.journal_model.specs.declared.notes.Note.{Note};
ghost use Rattle.journal_model.specs.Notes.{log_of};
ghost use Rattle.journal_model.specs.Journals.{IsJournal};
ghost use Rattle.journal_model.specs.Views.{IsExact};
ghost use Rattle.seg_sealed.specs.Parts.{shown_from, shown_rows};
ghost use Rattle.channel_view.specs.Views.{view_in};
ghost use Rattle.journal_model.specs.Lists.{joined};
ghost use Rattle.view_scan.specs.Lookups.{IsRowSeen};

use channel_view::View;
use growing_segment::SharedTail;
use hybrid_time::Timestamp;
use log_model::TailRows;
use row_types::{Key, Memory, Row};
use seg_sealed::{Marks, Part};
use std::alloc::Global;

/// The row of a key that a view shows at a timestamp, copied; `None` exactly where it shows none. The
/// timestamp is from the view's floor to its tick. A walk along all keys.
pub fn find(alloc: Global, view: &View, ts: Timestamp, key: Key) -> Result<Option<Row>, Memory>
    requires from_floor { view.now.floor ≤ ts.0 }
    requires to_tick { ts.0 ≤ view.now.tick }
    ensures seen { IfOk result (λ found. IsRowSeen ts.0 key.0 (joined (view_in view.now).parts) found) }
    ensures live { IfOk result (λ found. (notes more : List Note) → IsExact notes (view_in view.now) → IsJournal (notes ++ more)
        → fin.get (live (log_of (notes ++ more)) ts.0) key.0 ≡ found) }
{
    let found = find_shown(alloc, view, ts, key)?;
    Ok(found)
}

// The row of a key in the tail or in a part.
fn find_shown(alloc: Global, view: &View, ts: Timestamp, key: Key) -> Result<Option<Row>, Memory>
    ensures { IfOk result (λ found. IsRowSeen ts.0 key.0 (joined (view_in view.now).parts) found) }
{
    if let Some(row) = find_growing(alloc, view, ts, key)? {
        return Ok(Some(row));
    }
    let found = find_sealed(alloc, view, ts, key)?;
    Ok(found)
}

// The row of a key in the tail of a view.
fn find_growing(alloc: Global, view: &View, ts: Timestamp, key: Key) -> Result<Option<Row>, Memory>
    ensures { IfOk result (λ found. IsRowSeen ts.0 key.0 (shown_from view.now.deaths 0 view.now.tail.rows) found) }
{
    find_in_tail(alloc, view.tail(), view.tail_marks(), ts, key)
}

// The row of a key in the parts of a view.
fn find_sealed(alloc: Global, view: &View, ts: Timestamp, key: Key) -> Result<Option<Row>, Memory>
    ensures { IfOk result (λ found. IsRowSeen ts.0 key.0 (joined (map shown_rows view.now.parts)) found) }
{
    find_in_parts(alloc, view.parts(), ts, key)
}

// The row of a key in a tail.
fn find_in_tail(
    alloc: Global,
    tail: &SharedTail,
    marks: &Marks,
    ts: Timestamp,
    key: Key,
) -> Result<Option<Row>, Memory>
    ensures { IfOk result (λ found. IsRowSeen ts.0 key.0 (shown_from marks.now.deaths 0 tail.now.rows) found) }
{
    match flat_scan::find_in_tail(tail, marks, ts, key) {
        Some(i) => Ok(Some(row_in(tail, i).copy(alloc)?)),
        None => Ok(None),
    }
}

fn row_in(tail: &SharedTail, i: u32) -> &Row
    requires { i < length tail.now.rows }
    ensures { option_map (λ x. x.row) (slice_get tail.now.rows i) ≡ Some result.now }
{
    let here = tail.row(i);
    here.row.get()
}

// The row of a key in some parts.
fn find_in_parts(
    alloc: Global,
    parts: &[Part],
    ts: Timestamp,
    key: Key,
) -> Result<Option<Row>, Memory>
    ensures { IfOk result (λ found. IsRowSeen ts.0 key.0 (joined (map shown_rows parts.now)) found) }
{
    'parts: for part in parts {
        if let Some(row) = find_in_part(alloc, part, ts, key)? {
            return Ok(Some(row));
        }
    }
    Ok(None)
}

// The row of a key in a part.
fn find_in_part(alloc: Global, part: &Part, ts: Timestamp, key: Key) -> Result<Option<Row>, Memory>
    ensures { IfOk result (λ found. IsRowSeen ts.0 key.0 (shown_rows part.now) found) }
{
    match flat_scan::find(part, ts, key) {
        Some(i) => Ok(Some(row_of(alloc, part, i)?)),
        None => Ok(None),
    }
}

// The row of a number of a part, copied.
fn row_of(alloc: Global, part: &Part, i: u32) -> Result<Row, Memory>
    requires { i < length part.now.sealed.rows }
    ensures { IfOk result (λ row. option_map (λ x. x.row) (slice_get part.now.sealed.rows i) ≡ Some row) }
{
    part.sealed().row(alloc, i)
}
