//! A small segment, its log and its marks, read back.

ghost use Rattle.std.specs.Prelude.{◌≡◌, ◌≤◌, [], ◌∷◌, length, map, IfOk};
ghost use Rattle.std.specs.List.{AllByRecursion};
ghost use Rattle.log_model.specs.Places.{placed};
ghost use Rattle.seg_sealed.specs.Segments.{IsSealed, IsShortField, kind_of, sealed_rows};

use crate::{Marks, Part, Run, Sealed};
use binlog_format::{read_insert, write_insert};
use hybrid_time::Timestamp;
use log_model::{SharedRow, TailRow, TailRows};
use row_types::{BitVector, CompareOp, Field, Filter, Key, Kind, List, Memory, Operand, Row, Text};
use std::alloc::Global;
use std::process::Abort;
use std::sync::Arc;
use std::test::Fail;

/// A row of eight bits and of fields of all three kinds.
fn row(rt: &impl Abort, alloc: Global, key: i64, byte: u8, text: &str) -> Result<Row, Memory>
    requires { length text.now ≤ 1024 }
    ensures vector { IfOk result (λ r. length r.vector ≡ 8) }
    ensures kinds { IfOk result (λ r. map kind_of r.fields ≡ Kind.Int ∷ Kind.Bool ∷ Kind.Text ∷ []) }
    ensures short { IfOk result (λ r. AllByRecursion IsShortField r.fields) }
{
    let vector = BitVector::from_bytes(alloc, &[byte])?;
    assert!(rt; vector.dim() == 8);
    let text = Text::copied(alloc, text)?;
    let fields = vec![in alloc; Field::Int(key), Field::Bool(key > 0), Field::Text(text)]?;
    Ok(Row {
        key: Key(key),
        vector,
        fields: List::of(fields),
    })
}

fn at(alloc: Global, position: u64, ts: u64, row: Row) -> Result<TailRow, Memory>
    ensures { IfOk result (λ x. x ≡ placed position ts row) }
{
    let row = SharedRow::of(Arc::new(alloc, row)?);
    Ok(TailRow {
        position,
        ts: Timestamp(ts),
        row,
    })
}

/// Two rows that were put.
#[derive(Drop)]
struct Pair {
    first: TailRow,
    second: TailRow,
}

impl TailRows for Pair {
    ghost rows = { λ p. p.first ∷ p.second ∷ [] };

    fn len(&self) -> u32 {
        2
    }

    fn row(&self, i: u32) -> &TailRow {
        if i == 0 { &self.first } else { &self.second }
    }
}

fn two_rows(rt: &impl Abort, alloc: Global) -> Result<Pair, Memory>
    ensures { IfOk result (λ p. IsSealed (sealed_rows 3 (p.first ∷ p.second ∷ []))) }
{
    let first = row(rt, alloc, -7, 0x0f, "north")?;
    let second = row(rt, alloc, 5, 0xf1, "south")?;
    Ok(Pair {
        first: at(alloc, 2, 10, first)?,
        second: at(alloc, 9, 10, second)?,
    })
}

fn sealed(rt: &impl Abort, alloc: Global) -> Result<Sealed, Memory> {
    let rows = two_rows(rt, alloc)?;
    Sealed::build(alloc, 3, &rows)
}

/// The columns are those of the two rows.
fn check_columns(rt: &impl Abort, sealed: &Sealed) {
    assert_eq!(rt; sealed.number(), 3);
    assert_eq!(rt; sealed.len(), 2);
    assert_eq!(rt; sealed.dim(), 8);
    assert_eq!(rt; sealed.positions(), [2, 9].as_slice());
    assert_eq!(rt; sealed.stamps(), [Timestamp(10), Timestamp(10)].as_slice());
    assert_eq!(rt; sealed.keys(), [Key(-7), Key(5)].as_slice());
    assert_eq!(rt; sealed.words(), [0x0f, 0xf1].as_slice());
    assert_eq!(rt; sealed.width(), 1);
    assert_eq!(rt; sealed.columns().len(), 3);
    assert!(rt; sealed.lists().is_none());
}

/// Row 1 is the second row.
fn check_row(rt: &impl Abort, alloc: Global, sealed: &Sealed) -> Result<(), Memory> {
    if sealed.len() != 2 {
        return Ok(());
    }
    assert_eq!(rt; sealed.position(1), 9);
    assert_eq!(rt; sealed.ts(1), Timestamp(10));
    assert_eq!(rt; sealed.key(1), Key(5));
    assert_eq!(rt; sealed.words_at(1), [0xf1].as_slice());
    let vector = sealed.vector(alloc, 1)?;
    assert_eq!(rt; vector.words(), [0xf1].as_slice());
    let row = sealed.row(alloc, 1)?;
    assert_eq!(rt; row.key, Key(5));
    assert_eq!(rt; row.vector.words(), [0xf1].as_slice());
    let fields = row.fields.as_slice();
    assert_eq!(rt; fields.len(), 3);
    assert!(rt; matches!(&fields[0], Field::Int(5)));
    assert!(rt; matches!(&fields[1], Field::Bool(true)));
    assert!(rt; matches!(&fields[2], Field::Text(text) if text.is("south")));
    Ok(())
}

#[test]
fn rows_are_read_back(rt: HostRuntime) -> Result<(), Memory> {
    let alloc = rt.alloc();
    let sealed = sealed(&rt, alloc)?;
    check_columns(&rt, &sealed);
    check_row(&rt, alloc, &sealed)
}

/// The rows of a segment of two rows, lent as two runs.
fn in_runs(alloc: Global, sealed: &Sealed) -> Result<Sealed, Memory>
    requires { length sealed.now.rows ≡ 2 }
{
    let number = sealed.number();
    let runs = vec![in alloc; Run::new(sealed, 0, 1), Run::new(sealed, 1, 2)]?;
    Sealed::of_runs(alloc, number, sealed, runs.as_slice())
}

#[test]
fn runs_of_rows_make_a_segment(rt: HostRuntime) -> Result<(), Memory> {
    let alloc = rt.alloc();
    let sealed = sealed(&rt, alloc)?;
    if sealed.len() == 2 {
        let again = in_runs(alloc, &sealed)?;
        check_columns(&rt, &again);
        check_row(&rt, alloc, &again)?;
    }
    Ok(())
}

fn compares(left: Operand, op: CompareOp, right: Field) -> Filter {
    Filter::Compare { left, op, right }
}

#[test]
fn filters_are_told_from_the_columns(rt: HostRuntime) -> Result<(), Memory> {
    let alloc = rt.alloc();
    let sealed = sealed(&rt, alloc)?;
    let filters = vec![in alloc;
        compares(Operand::Key, CompareOp::Greater, Field::Int(0)),
        compares(Operand::Column(0), CompareOp::Equal, Field::Int(5)),
        Filter::Truth(Operand::Column(1)),
        compares(
            Operand::Column(2),
            CompareOp::Greater,
            Field::Text(Text::copied(alloc, "north")?)
        ),
    ]?;
    if sealed.len() == 2 {
        for filter in &filters {
            assert!(&rt; !sealed.holds(filter, 0));
            assert!(&rt; sealed.holds(filter, 1));
        }
    }
    Ok(())
}

#[test]
fn a_segment_is_read_back_from_its_log(rt: HostRuntime) -> Result<(), Fail> {
    let alloc = rt.alloc();
    let sealed = sealed(&rt, alloc)?;
    let log = sealed.to_log(alloc)?;
    let bytes = write_insert(alloc, &log)?;
    let read = read_insert(alloc, bytes.as_slice())?;
    let again = Sealed::of_log(alloc, read)?;
    check_columns(&rt, &again);
    check_row(&rt, alloc, &again)?;
    Ok(())
}

/// Marks every third row below 300 with its number as the timestamp, the greatest first, in room that
/// was made at once.
fn marked(alloc: Global) -> Result<Marks, Memory> {
    let mut marks = Marks::new(alloc, 5)?;
    marks.reserve(alloc, 100)?;
    for i in 0..100 {
        let row = 297 - 3 * i;
        if marks.dead_at(row).is_none() {
            marks.mark(row, Timestamp(u64::from(row)));
        }
    }
    Ok(marks)
}

fn check_marks(rt: &impl Abort, marks: &Marks) {
    assert_eq!(rt; marks.applied(), 5);
    for row in 0..301 {
        let want = if row % 3 == 0 && row < 300 {
            Some(Timestamp(u64::from(row)))
        } else {
            None
        };
        assert_eq!(rt; marks.dead_at(row), want);
    }
    assert_eq!(rt; marks.len(), 100);
    let deaths = marks.deaths();
    let count = deaths.sorted.len().checked_add(deaths.latest.len());
    assert_eq!(rt; count, Some(100));
    assert!(rt; deaths.sorted.iter().is_sorted());
}

#[test]
fn marks_are_what_was_marked(rt: HostRuntime) -> Result<(), Memory> {
    let alloc = rt.alloc();
    let mut marks = marked(alloc)?;
    check_marks(&rt, &marks);
    let shared = marks.share(alloc)?;
    marks.reserve(alloc, 1)?;
    if marks.dead_at(1).is_none() {
        marks.mark(1, Timestamp(400));
    }
    marks.advance(6);
    assert_eq!(&rt; marks.dead_at(1), Some(Timestamp(400)));
    assert_eq!(&rt; marks.applied(), 6);
    check_marks(&rt, &shared);
    assert!(&rt; shared.deaths().latest.len() <= 64);
    Ok(())
}

#[test]
fn a_part_shares_its_segment_and_its_marks(rt: HostRuntime) -> Result<(), Memory> {
    let alloc = rt.alloc();
    let sealed = Arc::new(alloc, sealed(&rt, alloc)?)?;
    let marks = Arc::new(alloc, Marks::new(alloc, 9)?)?;
    let part = Part::new(sealed, marks);
    let other = part.share()?;
    let later = other.with_marks(Arc::new(alloc, Marks::new(alloc, 12)?)?)?;
    check_columns(&rt, later.sealed());
    assert_eq!(&rt; part.marks().applied(), 9);
    assert_eq!(&rt; later.marks().applied(), 12);
    Ok(())
}
