//! Rows that a scan goes over.

ghost use Rattle.std.specs.Prelude.{◌≡◌, ◌<◌, List, length, slice_get};
ghost use Rattle.std.specs.Option.{IfSome, option_map};
ghost use Rattle.log_model.specs.Scans.{passes_filter};
ghost use Rattle.journal_model.specs.Puts.{is_dead_by};
ghost use Rattle.journal_model.specs.Views as view;
ghost use Rattle.journal_model.specs.Views.{Shown};
ghost use Rattle.flat_scan.specs.Rows.{row_at};

use hybrid_time::Timestamp;
use log_model::{Query, TailRow};
use row_types::{Key, Row};

/// Rows with their marks, by their numbers. No call takes memory.
pub(crate) trait Rows {
    /// The rows in order.
    ghost shown: { Self → List Shown };

    /// How many rows there are.
    fn len(&self) -> u32
        ensures { result ≡ length (shown self.now) };

    /// Whether a row is visible at a timestamp.
    fn is_visible(&self, i: u32, ts: Timestamp) -> bool
        requires { i < length (shown self.now) }
        ensures { IfSome (slice_get (shown self.now) i) (λ s. result ≡ view.is_visible ts.0 s) };

    /// Whether a row passes the query's filter.
    fn passes(&self, i: u32, query: &Query) -> bool
        requires { i < length (shown self.now) }
        ensures { IfSome (slice_get (shown self.now) i) (λ s. result ≡ passes_filter query.now.filter s.row) };

    /// The key of a row.
    fn key(&self, i: u32) -> Key
        requires { i < length (shown self.now) }
        ensures { IfSome (slice_get (shown self.now) i) (λ s. result ≡ s.row.key) };
}

// Whether a row with this mark is dead at a timestamp.
pub(crate) fn is_dead(mark: Option<Timestamp>, ts: Timestamp) -> bool
    ensures { result ≡ is_dead_by ts.0 (option_map (λ end. end.0) mark) }
{
    match mark {
        Some(end) => end.0 <= ts.0,
        None => false,
    }
}

// The row of a number.
pub(crate) fn row_of(rows: &[TailRow], i: u32) -> &Row
    requires { i < length rows.now }
    ensures { result.now ≡ (row_at rows.now i).row }
{
    let here = &rows[i as usize];
    here.row.get()
}
