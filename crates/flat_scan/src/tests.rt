//! A small part, scanned at several timestamps.

ghost use Rattle.std.specs.Prelude.{◌≡◌, ◌<◌, ◌≤◌, ◌∷◌, [], length, map, IfOk};
ghost use Rattle.std.specs.List.{AllByRecursion};
ghost use Rattle.log_model.specs.Places.{placed};
ghost use Rattle.seg_sealed.specs.Segments.{IsSealed, IsShortField, kind_of, sealed_rows};

use crate::{find, find_in_tail, scan, scan_tail};
use bit_distance::Steps;
use growing_segment::{Growing, SharedTail};
use hybrid_time::Timestamp;
use log_model::{Plan, Query, SharedRow, TailRow, TailRows};
use row_types::{
    BitVector, CompareOp, Distance, Field, Filter, Hit, Key, Kind, List, Memory, Metric, Operand,
    Row,
};
use seg_sealed::{Marks, Part, Sealed};
use std::alloc::Global;
use std::marker::Brand;
use std::process::Abort;
use std::sync::Arc;
use std::sync::ledger::{Blank, Ledger};
use top_list::TopList;

fn vector(rt: &impl Abort, alloc: Global, byte: u8) -> Result<BitVector, Memory>
    ensures { IfOk result (λ vector. length vector ≡ 8) }
{
    let vector = BitVector::from_bytes(alloc, &[byte])?;
    assert!(rt; vector.dim() == 8);
    Ok(vector)
}

/// A row of eight bits and a year.
fn row(rt: &impl Abort, alloc: Global, key: i64, byte: u8, year: i64) -> Result<Row, Memory>
    ensures vector { IfOk result (λ r. length r.vector ≡ 8) }
    ensures kinds { IfOk result (λ r. map kind_of r.fields ≡ Kind.Int ∷ []) }
    ensures short { IfOk result (λ r. AllByRecursion IsShortField r.fields) }
{
    let fields = vec![in alloc; Field::Int(year)]?;
    Ok(Row {
        key: Key(key),
        vector: vector(rt, alloc, byte)?,
        fields: List::of(fields),
    })
}

fn at(alloc: Global, position: u64, ts: u64, row: Row) -> Result<TailRow, Memory>
    ensures { IfOk result (λ x. x ≡ placed position ts row) }
{
    let row = SharedRow::of(Arc::new(alloc, row)?);
    Ok(TailRow {
        position,
        ts: Timestamp(ts),
        row,
    })
}

/// Two rows that were put.
#[derive(Drop)]
struct Pair {
    first: TailRow,
    second: TailRow,
}

impl TailRows for Pair {
    ghost rows = { λ p. p.first ∷ p.second ∷ [] };

    fn len(&self) -> u32 {
        2
    }

    fn row(&self, i: u32) -> &TailRow {
        if i == 0 { &self.first } else { &self.second }
    }
}

fn two_rows(rt: &impl Abort, alloc: Global) -> Result<Pair, Memory>
    ensures { IfOk result (λ p. IsSealed (sealed_rows 3 (p.first ∷ p.second ∷ []))) }
{
    let first = row(rt, alloc, 7, 0x01, 2020)?;
    let second = row(rt, alloc, 5, 0x03, 2022)?;
    Ok(Pair {
        first: at(alloc, 2, 10, first)?,
        second: at(alloc, 9, 20, second)?,
    })
}

/// Key 7 is put at 10, in 2020, and key 5 at 20, in 2022. Key 7 dies at 30.
fn part(rt: &impl Abort, alloc: Global) -> Result<Part, Memory>
    ensures { IfOk result (λ p. p.sealed.dim ≡ 8) }
{
    let rows = two_rows(rt, alloc)?;
    let sealed = Sealed::build(alloc, 3, &rows)?;
    let mut marks = Marks::new(alloc, 12)?;
    marks.reserve(alloc, 1)?;
    marks.mark(0, Timestamp(30));
    let part = Part::new(Arc::new(alloc, sealed)?, Arc::new(alloc, marks)?);
    assert!(rt; part.sealed().dim() == 8);
    Ok(part)
}

/// The same rows as a tail.
fn tail(rt: &impl Abort, alloc: Global) -> Result<SharedTail, Memory>
    ensures { IfOk result (λ t. t.dim ≡ 8) }
{
    let first = row(rt, alloc, 7, 0x01, 2020)?;
    let second = row(rt, alloc, 5, 0x03, 2022)?;
    let mut tail = Growing::new(alloc, 8);
    tail.reserve(alloc, 2)?;
    tail.push(2, Timestamp(10), SharedRow::of(Arc::new(alloc, first)?));
    tail.push(9, Timestamp(20), SharedRow::of(Arc::new(alloc, second)?));
    tail.share(alloc)
}

fn tail_marks(alloc: Global) -> Result<Marks, Memory> {
    let mut marks = Marks::new(alloc, 12)?;
    marks.reserve(alloc, 1)?;
    marks.mark(0, Timestamp(30));
    Ok(marks)
}

/// The `k` nearest to `00` of the part at a timestamp, which are those of the tail too.
fn nearest<L: Ledger>(
    rt: &impl Abort,
    alloc: Global,
    ts: u64,
    metric: Metric,
    filter: Option<Filter>,
    k: u32,
    blank: Blank,
) -> Result<TopList, Memory>
    requires some { 1 ≤ k }
    requires bound { k ≤ 16384 }
    requires name { blank.name ≡ L.name }
    requires parts { blank.parts ≡ L.parts }
    requires open { 0 < L.parts }
{
    let part = part(rt, alloc)?;
    let tail = tail(rt, alloc)?;
    let marks = tail_marks(alloc)?;
    let query = Query {
        vector: vector(rt, alloc, 0x00)?,
        k,
        filter,
    };
    let mut steps: Steps<L> = Steps::none(blank);
    let plan = Plan { metric };
    let ts = Timestamp(ts);
    let mut gather = TopList::new(alloc, k)?.gather();
    scan(&part, ts, &plan, &query, &mut gather, &mut steps);
    let found = gather.settle();
    let mut gather = TopList::new(alloc, k)?.gather();
    scan_tail(&tail, &marks, ts, &plan, &query, &mut gather, &mut steps);
    assert_eq!(rt; gather.settle().hits(), found.hits());
    Ok(found)
}

fn hamming(bits: u32, key: i64) -> Hit {
    Hit {
        distance: Distance::Hamming(bits),
        key: Key(key),
    }
}

#[test]
fn rows_are_found_from_their_put_to_their_death(rt: HostRuntime) -> Result<(), Memory> {
    let alloc = rt.alloc();
    for (ts, k, want) in [
        (9, 2, [].as_slice()),
        (10, 2, [hamming(1, 7)].as_slice()),
        (19, 2, [hamming(1, 7)].as_slice()),
        (20, 2, [hamming(1, 7), hamming(2, 5)].as_slice()),
        (29, 1, [hamming(1, 7)].as_slice()),
        (30, 1, [hamming(2, 5)].as_slice()),
    ] {
        let found = nearest::<Brand>(&rt, alloc, ts, Metric::Hamming, None, k, Blank::new(1))?;
        assert_eq!(&rt; found.hits(), want);
    }
    Ok(())
}

#[test]
fn only_rows_that_pass_are_found(rt: HostRuntime) -> Result<(), Memory> {
    let alloc = rt.alloc();
    let late = Filter::Compare {
        left: Operand::Column(0),
        op: CompareOp::GreaterEqual,
        right: Field::Int(2021),
    };
    let found = nearest::<Brand>(
        &rt,
        alloc,
        20,
        Metric::Jaccard,
        Some(late),
        2,
        Blank::new(1),
    )?;
    let want = Hit {
        distance: Distance::Jaccard { num: 2, den: 2 },
        key: Key(5),
    };
    assert_eq!(&rt; found.hits(), [want].as_slice());
    Ok(())
}

#[test]
fn keys_are_found_from_their_put_to_their_death(rt: HostRuntime) -> Result<(), Memory> {
    let alloc = rt.alloc();
    let part = part(&rt, alloc)?;
    let tail = tail(&rt, alloc)?;
    let marks = tail_marks(alloc)?;
    for (ts, key, want) in [
        (9, 7, None),
        (10, 7, Some(0)),
        (29, 7, Some(0)),
        (30, 7, None),
        (19, 5, None),
        (30, 5, Some(1)),
        (30, 6, None),
    ] {
        let (ts, key) = (Timestamp(ts), Key(key));
        assert_eq!(&rt; find(&part, ts, key), want);
        assert_eq!(&rt; find_in_tail(&tail, &marks, ts, key), want);
    }
    Ok(())
}
