//! One part of several.

ghost use Rattle.std.specs.Prelude.{◌≡◌, ◌↔◌, ◌<◌, ◌≤◌, ◌^◌, [], length, map, None, IfOk};
ghost use Rattle.std.specs.Option.{IfSome};
ghost use Rattle.std.specs.List.{AllByRecursion};
ghost use Rattle.seg_sealed.specs.Segments.{IsSealed};
ghost use Rattle.seg_sealed.specs.Parts.{SegmentPart, kept_rows, shown_rows, IsMerged};
ghost use Rattle.seg_sealed.specs.Runs.{with_rows};
ghost use Rattle.seg_merge.specs.Merges.{IsLike, AreAlike, AreInOrder, all_rows, applied_in};
ghost use Rattle.seg_merge.specs.KeptRows.{placed_in, shown_in, IsKept};

use crate::kept::Kept;
use crate::leaving::kept_in;
use crate::marking::marks_in;
use crate::stretches::runs_of;
use hybrid_time::Timestamp;
use row_types::Memory;
use seg_sealed::{Part, Sealed};
use std::alloc::Global;
use std::sync::Arc;

/// The part of this number with the rows of some parts that are not dead at or before the floor, by
/// position and with their marks; `None` exactly where there are none. It has no lists. Each kept
/// vector is copied once.
pub fn merge(
    alloc: Global,
    number: u64,
    parts: &[Part],
    floor: Timestamp,
) -> Result<Option<Part>, Memory>
    requires number { number < 2 ^ 60 }
    requires few { length (kept_rows floor.0 parts.now) ≤ 65536 }
    requires alike { AreAlike parts.now }
    requires order { AreInOrder (all_rows parts.now) }
    ensures merged { IfOk result (λ merged. IsMerged number (applied_in parts.now) floor.0 parts.now merged) }
    ensures none { IfOk result (λ merged. (merged ≡ None) ↔ (kept_rows floor.0 parts.now ≡ [])) }
    ensures lists { IfOk result (λ merged. IfSome merged (λ part. part.sealed.lists ≡ None)) }
{
    let Some(first) = parts.first() else {
        return Ok(None);
    };
    let kept = kept_in(alloc, parts, floor)?;
    if kept.is_empty() {
        return Ok(None);
    }
    let part = part_of(alloc, number, first, parts, kept.as_slice())?;
    Ok(Some(part))
}

/// The part of this number of some kept rows of parts that are like another part.
fn part_of(
    alloc: Global,
    number: u64,
    like: &Part,
    parts: &[Part],
    kept: &[Kept],
) -> Result<Part, Memory>
    requires rows { IsSealed (with_rows number like.now.sealed (map (placed_in parts.now) kept.now)) }
    requires sealed { AllByRecursion (λ (part : SegmentPart). IsSealed part.sealed) parts.now }
    requires alike { AllByRecursion (IsLike like.now) parts.now }
    requires valid { AllByRecursion (IsKept parts.now) kept.now }
    ensures sealed { IfOk result (λ part. part.sealed ≡ with_rows number like.now.sealed (map (placed_in parts.now) kept.now)) }
    ensures applied { IfOk result (λ part. part.applied ≡ like.now.applied) }
    ensures rows { IfOk result (λ part. shown_rows part ≡ map (shown_in parts.now) kept.now) }
{
    let runs = runs_of(alloc, parts, kept)?;
    let sealed = Sealed::of_runs(alloc, number, like.sealed(), runs.as_slice())?;
    let marks = marks_in(alloc, number, like.marks().applied(), kept)?;
    let shared_marks = Arc::new(alloc, marks)?;
    let shared_sealed = Arc::new(alloc, sealed)?;
    Ok(Part::new(shared_sealed, shared_marks))
}
