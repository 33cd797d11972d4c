//! The marks of kept rows.

ghost use Rattle.std.specs.Prelude.{◌≡◌, ◌<◌, ◌≤◌, ◌^◌, ◌++◌, length, map, IfOk, OnOk};
ghost use Rattle.seg_sealed.specs.Marks.{death_of};
ghost use Rattle.seg_merge.specs.KeptRows.{mark_at, marks_of_kept};

use crate::kept::Kept;
use binlog_format::DeleteLog;
use hybrid_time::Timestamp;
use row_types::{List, Memory};
use seg_sealed::Marks;
use std::alloc::Global;

/// The marks of kept rows, which are numbered in their order, up to a position.
pub(crate) fn marks_in(
    alloc: Global,
    number: u64,
    applied: u64,
    kept: &[Kept],
) -> Result<Marks, Memory>
    requires number { number < 2 ^ 60 }
    requires few { length kept.now ≤ 65536 }
    ensures deaths { IfOk result (λ marks. marks.deaths ≡ map death_of (marks_of_kept 0 kept.now)) }
    ensures applied { IfOk result (λ marks. marks.applied ≡ applied) }
{
    let marks = marks_of(alloc, kept)?;
    let log = DeleteLog {
        segment: number,
        applied,
        marks: List::of(marks),
    };
    Marks::of_log(alloc, log)
}

fn marks_of(alloc: Global, kept: &[Kept]) -> Result<Vec<(u32, Timestamp)>, Memory>
    requires { length kept.now ≤ 65536 }
    ensures { IfOk result (λ marks. marks.items ≡ marks_of_kept 0 kept.now) }
{
    let mut marks = Vec::new(alloc);
    'rows: for i in 0..kept.len() {
        add_mark(&mut marks, i as u32, kept[i].death)?;
    }
    Ok(marks)
}

/// Adds the mark of a row, if it died.
fn add_mark(
    marks: &mut Vec<(u32, Timestamp)>,
    row: u32,
    death: Option<Timestamp>,
) -> Result<(), Memory>
    ensures { OnOk result (marks.new.items ≡ marks.old.items ++ mark_at row death) }
{
    if let Some(ts) = death {
        marks.push((row, ts))?;
    }
    Ok(())
}
