//! The rows that a floor leaves of parts.

ghost use Rattle.std.specs.Prelude.{◌≡◌, ◌++◌, ◌≤◌, length, map, IfOk, OnOk};
ghost use Rattle.std.specs.Option.{option_map};
ghost use Rattle.std.specs.List.{AllByRecursion};
ghost use Rattle.journal_model.specs.Puts.{is_dead_by};
ghost use Rattle.seg_sealed.specs.Segments.{IsSealed, position_of};
ghost use Rattle.seg_sealed.specs.Marks.{RowsRise, death_of};
ghost use Rattle.seg_sealed.specs.Parts.{SegmentPart, kept_rows};
ghost use Rattle.seg_merge.specs.Merges.{AreInOrder, all_rows};
ghost use Rattle.seg_merge.specs.KeptRows.{shown_in, IsKept, time_of, kept_from, kept_of_parts, first_mark, behind_mark, unless_dead};

use crate::kept::Kept;
use hybrid_time::Timestamp;
use row_types::Memory;
use seg_sealed::Part;
use std::alloc::Global;

/// The rows of parts that are not dead at or before the floor, by position.
pub(crate) fn kept_in(alloc: Global, parts: &[Part], floor: Timestamp) -> Result<Vec<Kept>, Memory>
    requires { AreInOrder (all_rows parts.now) }
    ensures rows { IfOk result (λ kept. map (shown_in parts.now) kept.items ≡ kept_rows floor.0 parts.now) }
    ensures valid { IfOk result (λ kept. AllByRecursion (IsKept parts.now) kept.items) }
    ensures sealed { IfOk result (λ kept. AllByRecursion (λ (part : SegmentPart). IsSealed part.sealed) parts.now) }
{
    let mut kept = left_in(alloc, parts, floor)?;
    // Each part's rows rise already: the stable sort merges those runs, and where the parts follow one
    // another it only looks at them once.
    kept.sort_by_key(|row| row.position)?;
    Ok(kept)
}

/// The rows of parts that are not dead at or before the floor, one part after another.
fn left_in(alloc: Global, parts: &[Part], floor: Timestamp) -> Result<Vec<Kept>, Memory>
    ensures rows { IfOk result (λ kept. kept.items ≡ kept_of_parts floor.0 0 parts.now) }
    ensures sealed { IfOk result (λ kept. AllByRecursion (λ (part : SegmentPart). IsSealed part.sealed) parts.now) }
{
    let mut kept = Vec::new(alloc);
    'parts: for i in 0..parts.len() {
        add_part(alloc, &mut kept, i, &parts[i], floor)?;
    }
    Ok(kept)
}

/// Adds the rows of the part at a place that are not dead at or before the floor.
fn add_part(
    alloc: Global,
    kept: &mut Vec<Kept>,
    place: usize,
    part: &Part,
    floor: Timestamp,
) -> Result<(), Memory>
    ensures rows { OnOk result (kept.new.items ≡ kept.old.items ++ kept_from place floor.0 part.now.deaths 0 (map position_of part.now.sealed.rows)) }
    ensures sealed { IsSealed part.now.sealed }
{
    let sealed = part.sealed();
    let number = sealed.number();
    let log = part.marks().to_log(alloc, number)?;
    add_rows(kept, place, sealed.positions(), log.marks.as_slice(), floor)
}

/// Adds the rows at some positions that are not dead at or before the floor; the marks rise by row, so
/// that one walk along the positions meets each.
fn add_rows(
    kept: &mut Vec<Kept>,
    place: usize,
    positions: &[u64],
    marks: &[(u32, Timestamp)],
    floor: Timestamp,
) -> Result<(), Memory>
    requires few { length positions.now ≤ 65536 }
    requires rise { RowsRise marks.now }
    ensures { OnOk result (kept.new.items ≡ kept.old.items ++ kept_from place floor.0 (map death_of marks.now) 0 positions.now) }
{
    let mut rest = marks;
    'rows: for i in 0..positions.len() {
        let row = i as u32;
        let death = first_death(rest, row);
        rest = behind(rest, row);
        let position = positions[i];
        let part = place;
        add_row(
            kept,
            Kept {
                position,
                part,
                row,
                death,
            },
            floor,
        )?;
    }
    Ok(())
}

/// The death of the first mark, if it is of this row.
fn first_death(marks: &[(u32, Timestamp)], row: u32) -> Option<Timestamp>
    ensures { result ≡ first_mark row marks.now }
{
    match marks.first() {
        Some(mark) => { if mark.0 == row { Some(mark.1) } else { None } }
        None => None,
    }
}

/// The marks without the first, if it is of this row.
fn behind(marks: &[(u32, Timestamp)], row: u32) -> &[(u32, Timestamp)]
    ensures { result.now ≡ behind_mark row marks.now }
{
    match marks.split_first() {
        Some((mark, after)) => { if mark.0 == row { after } else { marks } }
        None => marks,
    }
}

/// Adds a row that is not dead at or before the floor.
fn add_row(kept: &mut Vec<Kept>, row: Kept, floor: Timestamp) -> Result<(), Memory>
    ensures { OnOk result (kept.new.items ≡ kept.old.items ++ unless_dead floor.0 row) }
{
    if !is_dead(row.death, floor) {
        kept.push(row)?;
    }
    Ok(())
}

/// Whether a row with this death is dead at or before the floor.
fn is_dead(death: Option<Timestamp>, floor: Timestamp) -> bool
    ensures { result ≡ is_dead_by floor.0 (option_map time_of death) }
{
    match death {
        Some(ts) => ts.0 <= floor.0,
        None => false,
    }
}
