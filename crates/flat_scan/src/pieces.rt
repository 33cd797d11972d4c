//! A piece of a tail: some of its rows, one behind the other, with the marks of the whole tail.

ghost use Rattle.std.specs.Prelude.{◌≡◌, ◌+◌, ◌<◌, ◌^◌, length, slice_get};
ghost use Rattle.std.specs.Option.{IfSome};
ghost use Rattle.journal_model.specs.Views as view;
ghost use Rattle.seg_sealed.specs.Marks.{death_at};
ghost use Rattle.seg_sealed.specs.Parts.{shown_as, shown_from};

use crate::rows::{Rows, is_dead, row_of};
use growing_segment::SharedTail;
use hybrid_time::Timestamp;
use log_model::{Query, TailRow, TailRows};
use row_types::{Key, Row};
use seg_sealed::Marks;

/// Rows of a tail from a number on.
#[derive(Drop)]
pub(crate) struct Piece<'a> {
    pub(crate) rows: &'a [TailRow],
    pub(crate) from: u32,
    pub(crate) marks: &'a Marks,
    ghost few: { from + length rows.now < 2 ^ 32 },
}

impl Rows for Piece<'_> {
    ghost shown = { λ p. shown_from p.marks.now.deaths p.from p.rows.now };

    fn len(&self) -> u32 {
        self.rows.len() as u32
    }

    fn is_visible(&self, i: u32, ts: Timestamp) -> bool {
        is_visible(self.rows, self.marks, self.from, i, ts)
    }

    fn passes(&self, i: u32, query: &Query) -> bool {
        query.passes(row_of(self.rows, i))
    }

    fn key(&self, i: u32) -> Key {
        row_of(self.rows, i).key
    }
}

fn is_visible(rows: &[TailRow], marks: &Marks, from: u32, i: u32, ts: Timestamp) -> bool
    requires few { from + length rows.now < 2 ^ 32 }
    requires below { i < length rows.now }
    ensures { IfSome (slice_get rows.now i) (λ x. result ≡ view.is_visible ts.0 (shown_as x (death_at (from + i) marks.now.deaths))) }
{
    let here = &rows[i as usize];
    here.ts.0 <= ts.0 && !is_dead(marks.dead_at(from + i), ts)
}

/// The rows of a tail.
#[derive(Drop)]
pub(crate) struct WholeTail<'a> {
    pub(crate) tail: &'a SharedTail,
    pub(crate) marks: &'a Marks,
}

impl Rows for WholeTail<'_> {
    ghost shown = { λ t. shown_from t.marks.now.deaths 0 t.tail.now.rows };

    fn len(&self) -> u32 {
        self.tail.len()
    }

    fn is_visible(&self, i: u32, ts: Timestamp) -> bool {
        is_shown(self.tail, self.marks, i, ts)
    }

    fn passes(&self, i: u32, query: &Query) -> bool {
        query.passes(row_in(self.tail, i))
    }

    fn key(&self, i: u32) -> Key {
        row_in(self.tail, i).key
    }
}

fn is_shown(tail: &SharedTail, marks: &Marks, i: u32, ts: Timestamp) -> bool
    requires { i < length tail.now.rows }
    ensures { IfSome (slice_get tail.now.rows i) (λ x. result ≡ view.is_visible ts.0 (shown_as x (death_at i marks.now.deaths))) }
{
    let here = tail.row(i);
    here.ts.0 <= ts.0 && !is_dead(marks.dead_at(i), ts)
}

fn row_in(tail: &SharedTail, i: u32) -> &Row
    requires { i < length tail.now.rows }
    ensures { IfSome (slice_get tail.now.rows i) (λ x. result.now ≡ x.row) }
{
    let here = tail.row(i);
    here.row.get()
}
