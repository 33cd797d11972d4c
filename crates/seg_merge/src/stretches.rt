//! The runs that kept rows make.

ghost use Rattle.std.specs.Prelude.{◌≡◌, ◌↔◌, ◌+◌, ◌<◌, ◌≤◌, length, map, take, drop, slice_get, Some, IsTrue, IfOk};
ghost use Rattle.std.specs.List.{AllByRecursion};
ghost use Rattle.journal_model.specs.Lists.{IsIn};
ghost use Rattle.seg_sealed.specs.Segments.{IsSealed};
ghost use Rattle.seg_sealed.specs.Parts.{SegmentPart};
ghost use Rattle.seg_sealed.specs.Runs.{RowRun, rows_of_runs};
ghost use Rattle.seg_merge.specs.Merges.{segment_of};
ghost use Rattle.seg_merge.specs.KeptRows.{placed_in, IsKept, IsStretch};

use crate::kept::Kept;
use row_types::Memory;
use seg_sealed::{Part, Run};
use std::alloc::Global;

/// The runs of kept rows in their order: rows that follow one another in one part are one run.
pub(crate) fn runs_of<'a>(
    alloc: Global,
    parts: &'a [Part],
    kept: &[Kept],
) -> Result<Vec<Run<'a>>, Memory>
    requires few { length kept.now ≤ 65536 }
    requires sealed { AllByRecursion (λ (part : SegmentPart). IsSealed part.sealed) parts.now }
    requires valid { AllByRecursion (IsKept parts.now) kept.now }
    ensures rows { IfOk result (λ runs. rows_of_runs runs.items ≡ map (placed_in parts.now) kept.now) }
    ensures segments { IfOk result (λ runs. AllByRecursion (λ (run : RowRun). IsIn run.segment (map segment_of parts.now)) runs.items) }
{
    let mut runs = Vec::new(alloc);
    let mut rest = kept;
    'runs: while let Some(first) = rest.first() {
        let first = *first;
        let count = stretch_len(first, rest);
        let sealed = parts[first.part].sealed();
        let _number = sealed.number();
        runs.push(Run::new(sealed, first.row, first.row + count as u32))?;
        rest = behind(rest, count);
    }
    Ok(runs)
}

/// How many of some kept rows follow one another in one part, from the first on.
fn stretch_len(first: Kept, kept: &[Kept]) -> usize
    requires first { slice_get kept.now 0 ≡ Some first }
    requires few { length kept.now ≤ 65536 }
    ensures some { 0 < result }
    ensures within { result ≤ length kept.now }
    ensures stretch { IsStretch first.part first.row (take result kept.now) }
{
    'rows: for i in 1..kept.len() {
        if !follows(first, i, kept[i]) {
            return i;
        }
    }
    kept.len()
}

/// Whether a row stands a number of rows behind another in the same part.
fn follows(first: Kept, count: usize, next: Kept) -> bool
    requires { count ≤ 65536 }
    ensures { IsTrue result ↔ ((next.part ≡ first.part) × (next.row ≡ first.row + count)) }
{
    next.part == first.part && next.row as usize == first.row as usize + count
}

/// The rows behind the first ones.
fn behind(kept: &[Kept], count: usize) -> &[Kept]
    requires { count ≤ length kept.now }
    ensures { result.now ≡ drop count kept.now }
{
    let (_first, after) = kept.split_at(count);
    after
}
