//! A view with a segment at two places, searched at several timestamps.

ghost use Rattle.std.specs.Prelude.{◌≡◌, ◌<◌, ◌≤◌, ◌∷◌, [], length, IfOk};
ghost use Rattle.std.specs.Arc.{arc_value};
ghost use Rattle.std.specs.List.{AllByRecursion};
ghost use Rattle.log_model.specs.Places.{placed};

use crate::{find, run};
use bit_distance::Steps;
use channel_view::View;
use coarse_lists::{Collection, Index};
use growing_segment::{Growing, SharedTail};
use hybrid_time::Timestamp;
use log_model::{Query, SharedRow, TailRow, TailRows};
use row_types::{BitVector, Distance, Field, Hit, Key, List, Memory, Metric, Row, Schema};
use seg_sealed::{Marks, Part, Sealed};
use std::alloc::Global;
use std::marker::Brand;
use std::process::Abort;
use std::sync::Arc;
use std::sync::ledger::{Blank, Ledger};
use top_list::TopList;

fn collection(alloc: Global) -> Result<Arc<Collection, Global>, Memory>
    ensures dim { IfOk result (λ c. (arc_value c).dim ≡ 8) }
    ensures columns { IfOk result (λ c. (arc_value c).schema.columns ≡ []) }
{
    let schema = Schema {
        columns: List::of(Vec::new(alloc)),
    };
    let collection = Collection {
        dim: 8,
        metric: Metric::Hamming,
        channels: 1,
        nodes: 2,
        seal_rows: 2,
        index: Index::Flat,
        schema,
    };
    Ok(Arc::new(alloc, collection)?)
}

fn vector(rt: &impl Abort, alloc: Global, byte: u8) -> Result<BitVector, Memory>
    ensures { IfOk result (λ vector. length vector ≡ 8) }
{
    let vector = BitVector::from_bytes(alloc, &[byte])?;
    assert!(rt; vector.dim() == 8);
    Ok(vector)
}

fn row(rt: &impl Abort, alloc: Global, key: i64, byte: u8) -> Result<Row, Memory>
    ensures vector { IfOk result (λ r. length r.vector ≡ 8) }
    ensures fields { IfOk result (λ r. r.fields ≡ []) }
{
    let fields: Vec<Field> = Vec::new(alloc);
    Ok(Row {
        key: Key(key),
        vector: vector(rt, alloc, byte)?,
        fields: List::of(fields),
    })
}

fn at(alloc: Global, position: u64, ts: u64, row: Row) -> Result<TailRow, Memory>
    ensures { IfOk result (λ x. x ≡ placed position ts row) }
{
    let row = SharedRow::of(Arc::new(alloc, row)?);
    Ok(TailRow {
        position,
        ts: Timestamp(ts),
        row,
    })
}

/// Two rows that were put.
#[derive(Drop)]
struct Pair {
    first: TailRow,
    second: TailRow,
}

impl TailRows for Pair {
    ghost rows = { λ p. p.first ∷ p.second ∷ [] };

    fn len(&self) -> u32 {
        2
    }

    fn row(&self, i: u32) -> &TailRow {
        if i == 0 { &self.first } else { &self.second }
    }
}

/// Keys 1 and 2 are put at 1 and 2, and sealed. One of them dies.
fn part(rt: &impl Abort, alloc: Global, dead: u32, death: Timestamp) -> Result<Part, Memory>
    requires { dead < 2 }
    ensures { IfOk result (λ p. AllByRecursion (λ x. (length x.row.vector ≡ 8) × (x.row.fields ≡ [])) p.sealed.rows) }
{
    let first = row(rt, alloc, 1, 0x00)?;
    let second = row(rt, alloc, 2, 0xff)?;
    let rows = Pair {
        first: at(alloc, 0, 1, first)?,
        second: at(alloc, 1, 2, second)?,
    };
    let sealed = Sealed::build(alloc, 0, &rows)?;
    let mut marks = Marks::new(alloc, 4)?;
    marks.reserve(alloc, 1)?;
    marks.mark(dead, death);
    Ok(Part::new(Arc::new(alloc, sealed)?, Arc::new(alloc, marks)?))
}

/// Key 2 is put again at 5.
fn tail(rt: &impl Abort, alloc: Global) -> Result<SharedTail, Memory>
    ensures dim { IfOk result (λ t. t.dim ≡ 8) }
    ensures rows { IfOk result (λ t. AllByRecursion (λ x. (length x.row.vector ≡ 8) × (x.row.fields ≡ [])) t.rows) }
{
    let again = row(rt, alloc, 2, 0x01)?;
    let mut tail = Growing::new(alloc, 8);
    tail.reserve(alloc, 1)?;
    tail.push(3, Timestamp(5), SharedRow::of(Arc::new(alloc, again)?));
    tail.share(alloc)
}

/// The segment stands at two places.
fn view(rt: &impl Abort, alloc: Global, dead: u32, death: Timestamp) -> Result<View, Memory>
    requires { dead < 2 }
    ensures floor { IfOk result (λ v. v.floor ≡ 0) }
    ensures tick { IfOk result (λ v. v.tick ≡ 6) }
    ensures dim { IfOk result (λ v. v.collection.dim ≡ 8) }
{
    let here = part(rt, alloc, dead, death)?;
    let there = here.share()?;
    let parts = Arc::new(alloc, vec![in alloc; here, there]?)?;
    Ok(View::new(
        collection(alloc)?,
        0,
        Timestamp(0),
        Timestamp(6),
        tail(rt, alloc)?,
        Marks::new(alloc, 4)?,
        parts,
    ))
}

/// The two nearest to `00` at a timestamp, where a row of the segment is dead from another on.
fn nearest<L: Ledger>(
    rt: &impl Abort,
    alloc: Global,
    ts: u64,
    dead: u32,
    death: u64,
    blank: Blank,
) -> Result<TopList, Memory>
    requires ts { ts ≤ 6 }
    requires dead { dead < 2 }
    requires name { blank.name ≡ L.name }
    requires parts { blank.parts ≡ L.parts }
    requires open { 0 < L.parts }
{
    let view = view(rt, alloc, dead, Timestamp(death))?;
    let query = Query {
        vector: vector(rt, alloc, 0x00)?,
        k: 2,
        filter: None,
    };
    let mut steps: Steps<L> = Steps::none(blank);
    run(alloc, &view, Timestamp(ts), &query, &mut steps)
}

fn hit(bits: u32, key: i64) -> Hit {
    Hit {
        distance: Distance::Hamming(bits),
        key: Key(key),
    }
}

#[test]
fn each_key_is_found_once_though_its_segment_stands_twice(rt: HostRuntime) -> Result<(), Memory> {
    let alloc = rt.alloc();
    for (ts, want) in [
        (0, [].as_slice()),
        (1, [hit(0, 1)].as_slice()),
        (3, [hit(0, 1), hit(8, 2)].as_slice()),
        (4, [hit(0, 1), hit(8, 2)].as_slice()),
        (5, [hit(0, 1), hit(1, 2)].as_slice()),
    ] {
        let found = nearest::<Brand>(&rt, alloc, ts, 1, 5, Blank::new(1))?;
        assert_eq!(&rt; found.hits(), want);
    }
    Ok(())
}

#[test]
fn a_marked_row_is_found_before_its_death_alone(rt: HostRuntime) -> Result<(), Memory> {
    let alloc = rt.alloc();
    for (ts, want) in [
        (2, [hit(0, 1), hit(8, 2)].as_slice()),
        (3, [hit(8, 2)].as_slice()),
        (4, [hit(8, 2)].as_slice()),
    ] {
        let found = nearest::<Brand>(&rt, alloc, ts, 0, 3, Blank::new(1))?;
        assert_eq!(&rt; found.hits(), want);
    }
    Ok(())
}

#[test]
fn lists_of_two_searches_merge_to_each_key_once(rt: HostRuntime) -> Result<(), Memory> {
    let alloc = rt.alloc();
    let one = nearest::<Brand>(&rt, alloc, 3, 1, 5, Blank::new(1))?;
    let other = nearest::<Brand>(&rt, alloc, 3, 1, 5, Blank::new(1))?;
    let merged = TopList::merge(alloc, &[one, other], 2)?;
    assert_eq!(&rt; merged.hits(), [hit(0, 1), hit(8, 2)].as_slice());
    Ok(())
}

// The first word of the row's vector.
fn word(found: &Option<Row>) -> Option<u64> {
    match found {
        Some(row) => row.vector.words().first().copied(),
        None => None,
    }
}

#[test]
fn the_row_of_a_key_is_the_one_that_is_live(rt: HostRuntime) -> Result<(), Memory> {
    let alloc = rt.alloc();
    let view = view(&rt, alloc, 1, Timestamp(5))?;
    for (ts, key, want) in [
        (1, 2, None),
        (4, 2, Some(0xff)),
        (5, 2, Some(0x01)),
        (6, 1, Some(0x00)),
        (6, 3, None),
    ] {
        let found = find(alloc, &view, Timestamp(ts), Key(key))?;
        assert_eq!(&rt; word(&found), want);
    }
    Ok(())
}
