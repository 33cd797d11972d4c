//! The row of a key among rows that stand together.

ghost use Rattle.std.specs.Prelude.{◌≡◌, ◌<◌, length, slice_get};
ghost use Rattle.std.specs.Option.{IfSome};
ghost use Rattle.seg_sealed.specs.Parts.{shown_from, shown_rows};
ghost use Rattle.flat_scan.specs.KeyPlaces.{IsPlaceOf, shows_key};

use crate::pieces::WholeTail;
use crate::rows::Rows;
use growing_segment::SharedTail;
use hybrid_time::Timestamp;
use row_types::Key;
use seg_sealed::{Marks, Part};

/// The number of a row of a part that is visible at a timestamp and has a key; `None` exactly where no
/// row is such.
pub fn find(part: &Part, ts: Timestamp, key: Key) -> Option<u32>
    ensures { IsPlaceOf ts.0 key.0 (shown_rows part.now) result }
{
    place_in(part, ts, key)
}

/// The number of a row of a tail that is visible at a timestamp and has a key; `None` exactly where no
/// row is such. The marks are those of the tail's rows by their numbers.
pub fn find_in_tail(tail: &SharedTail, marks: &Marks, ts: Timestamp, key: Key) -> Option<u32>
    ensures { IsPlaceOf ts.0 key.0 (shown_from marks.now.deaths 0 tail.now.rows) result }
{
    place_in(&WholeTail { tail, marks }, ts, key)
}

fn place_in<R: Rows>(rows: &R, ts: Timestamp, key: Key) -> Option<u32>
    ensures { IsPlaceOf ts.0 key.0 (R.shown rows.now) result }
{
    'rows: for i in 0..rows.len() {
        if has_key(rows, i, ts, key) {
            return Some(i);
        }
    }
    None
}

fn has_key<R: Rows>(rows: &R, i: u32, ts: Timestamp, key: Key) -> bool
    requires { i < length (R.shown rows.now) }
    ensures { IfSome (slice_get (R.shown rows.now) i) (λ s. result ≡ shows_key ts.0 key.0 s) }
{
    rows.key(i).0 == key.0 && rows.is_visible(i, ts)
}
