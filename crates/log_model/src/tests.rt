//! The live rows and the hits of a small log, written out.

ghost use Rattle.std.specs.Prelude.{◌≡◌, ◌<◌, ◌^◌, length, vec_len, IfOk};
ghost use Rattle.log_model.specs.Scans.{FitsDimension, HasDimension};

use crate::{Entry, Plan, Query, SharedRow, TailRow, TailRows, Write, live_at, scan_at};
use hybrid_time::Timestamp;
use row_types::{
    BitVector, CompareOp, Distance, Field, Filter, Hit, Key, List, Memory, Metric, Operand, Row,
    Text,
};
use std::alloc::Global;
use std::process::Abort;
use std::sync::Arc;

fn vector(rt: &impl Abort, alloc: Global, byte: u8) -> Result<BitVector, Memory>
    ensures { IfOk result (λ vector. length vector ≡ 8) }
{
    let vector = BitVector::from_bytes(alloc, &[byte])?;
    assert!(rt; vector.dim() == 8);
    Ok(vector)
}

fn row(rt: &impl Abort, alloc: Global, key: i64, byte: u8) -> Result<Row, Memory>
    ensures { IfOk result (λ row. length row.vector ≡ 8) }
{
    Ok(Row {
        key: Key(key),
        vector: vector(rt, alloc, byte)?,
        fields: List::empty(alloc),
    })
}

/// Key 5 comes at 1, key 3 at 2. The insert at 4 finds its key live, key 3 is deleted at 6, and key 5
/// is set anew at 8.
fn log(rt: &impl Abort, alloc: Global) -> Result<Vec<Entry>, Memory>
    ensures { IfOk result (λ log. HasDimension 8 log.items) }
{
    let first = Write::Insert(row(rt, alloc, 5, 0x0f)?);
    let second = Write::Insert(row(rt, alloc, 3, 0xf0)?);
    let again = Write::Insert(row(rt, alloc, 5, 0xff)?);
    let anew = Write::Upsert(row(rt, alloc, 5, 0xff)?);
    let entries = vec![in alloc;
        Entry {
            ts: Timestamp(1),
            write: first
        },
        Entry {
            ts: Timestamp(2),
            write: second
        },
        Entry {
            ts: Timestamp(4),
            write: again
        },
        Entry {
            ts: Timestamp(6),
            write: Write::Delete(Key(3))
        },
        Entry {
            ts: Timestamp(8),
            write: anew
        },
    ]?;
    Ok(entries)
}

fn hamming(bits: u32, key: i64) -> Hit {
    Hit {
        distance: Distance::Hamming(bits),
        key: Key(key),
    }
}

fn jaccard(num: u32, den: u32, key: i64) -> Hit {
    Hit {
        distance: Distance::Jaccard { num, den },
        key: Key(key),
    }
}

#[test]
fn rows_are_live_from_their_write_to_their_end(rt: HostRuntime) -> Result<(), Memory> {
    let alloc = rt.alloc();
    let log = log(&rt, alloc)?;
    for (ts, want) in [
        (0, [].as_slice()),
        (1, [(5, 0x0f)].as_slice()),
        (2, [(3, 0xf0), (5, 0x0f)].as_slice()),
        (5, [(3, 0xf0), (5, 0x0f)].as_slice()),
        (6, [(5, 0x0f)].as_slice()),
        (7, [(5, 0x0f)].as_slice()),
        (8, [(5, 0xff)].as_slice()),
    ] {
        let rows = live_at(alloc, log.as_slice(), Timestamp(ts))?;
        assert_eq!(&rt; rows.len(), want.len());
        for (row, (key, word)) in rows.iter().zip(want) {
            assert_eq!(&rt; row.key, Key(*key));
            assert_eq!(&rt; row.vector.words(), [*word].as_slice());
        }
    }
    Ok(())
}

/// The hits of the `k` nearest to a vector of one byte.
fn hits(
    rt: &impl Abort,
    alloc: Global,
    ts: u64,
    metric: Metric,
    byte: u8,
    k: u32,
) -> Result<Vec<Hit>, Memory> {
    let log = log(rt, alloc)?;
    let query = Query {
        vector: vector(rt, alloc, byte)?,
        k,
        filter: None,
    };
    scan_at(
        alloc,
        log.as_slice(),
        Timestamp(ts),
        &Plan { metric },
        &query,
    )
}

#[test]
fn a_scan_finds_the_nearest_that_are_live_at_its_timestamp(rt: HostRuntime) -> Result<(), Memory> {
    let alloc = rt.alloc();
    for (ts, want) in [
        (0, [].as_slice()),
        (1, [hamming(0, 5)].as_slice()),
        (2, [hamming(0, 5), hamming(8, 3)].as_slice()),
        (5, [hamming(0, 5), hamming(8, 3)].as_slice()),
        (6, [hamming(0, 5)].as_slice()),
        (8, [hamming(4, 5)].as_slice()),
    ] {
        let found = hits(&rt, alloc, ts, Metric::Hamming, 0x0f, 2)?;
        assert_eq!(&rt; found.as_slice(), want);
    }
    Ok(())
}

#[test]
fn equal_distances_stand_by_their_keys_and_the_first_are_kept(
    rt: HostRuntime,
) -> Result<(), Memory> {
    let alloc = rt.alloc();
    let both = hits(&rt, alloc, 2, Metric::Hamming, 0x00, 2)?;
    assert_eq!(&rt; both.as_slice(), [hamming(4, 3), hamming(4, 5)].as_slice());
    let one = hits(&rt, alloc, 2, Metric::Hamming, 0x00, 1)?;
    assert_eq!(&rt; one.as_slice(), [hamming(4, 3)].as_slice());
    Ok(())
}

#[test]
fn jaccard_distances_are_not_reduced(rt: HostRuntime) -> Result<(), Memory> {
    let alloc = rt.alloc();
    let found = hits(&rt, alloc, 2, Metric::Jaccard, 0x0f, 2)?;
    assert_eq!(&rt;
        found.as_slice(),
        [jaccard(0, 4, 5), jaccard(8, 8, 3)].as_slice()
    );
    Ok(())
}

fn put(rt: &impl Abort, alloc: Global, ts: u64, key: i64, byte: u8) -> Result<Entry, Memory>
    ensures { IfOk result (λ entry. FitsDimension 8 entry.write) }
{
    Ok(Entry {
        ts: Timestamp(ts),
        write: Write::Upsert(row(rt, alloc, key, byte)?),
    })
}

/// Keys 1 and 2 come at 1. At 2 key 1 is inserted again, key 2 is deleted, and key 3 comes.
fn two_batches(rt: &impl Abort, alloc: Global) -> Result<Vec<Entry>, Memory>
    ensures { IfOk result (λ log. HasDimension 8 log.items) }
{
    let again = Entry {
        ts: Timestamp(2),
        write: Write::Insert(row(rt, alloc, 1, 0xff)?),
    };
    let gone = Entry {
        ts: Timestamp(2),
        write: Write::Delete(Key(2)),
    };
    let first = put(rt, alloc, 1, 1, 0x01)?;
    let second = put(rt, alloc, 1, 2, 0x00)?;
    let third = put(rt, alloc, 2, 3, 0x03)?;
    let entries = vec![in alloc; first, second, again, gone, third]?;
    Ok(entries)
}

#[test]
fn changes_of_one_timestamp_are_seen_together(rt: HostRuntime) -> Result<(), Memory> {
    let alloc = rt.alloc();
    let log = two_batches(&rt, alloc)?;
    let query = Query {
        vector: vector(&rt, alloc, 0x00)?,
        k: 3,
        filter: None,
    };
    let plan = Plan {
        metric: Metric::Hamming,
    };
    for (ts, want) in [
        (0, [].as_slice()),
        (1, [hamming(0, 2), hamming(1, 1)].as_slice()),
        (2, [hamming(1, 1), hamming(2, 3)].as_slice()),
    ] {
        let found = scan_at(alloc, log.as_slice(), Timestamp(ts), &plan, &query)?;
        assert_eq!(&rt; found.as_slice(), want);
    }
    Ok(())
}

/// A document with its language and year.
fn document(
    rt: &impl Abort,
    alloc: Global,
    key: i64,
    byte: u8,
    lang: &str,
    year: i64,
) -> Result<Entry, Memory>
    ensures { IfOk result (λ entry. FitsDimension 8 entry.write) }
{
    let lang = Field::Text(Text::copied(alloc, lang)?);
    let fields = vec![in alloc; lang, Field::Int(year)]?;
    let row = Row {
        key: Key(key),
        vector: vector(rt, alloc, byte)?,
        fields: List::of(fields),
    };
    Ok(Entry {
        ts: Timestamp(1),
        write: Write::Insert(row),
    })
}

fn documents(rt: &impl Abort, alloc: Global) -> Result<Vec<Entry>, Memory>
    ensures { IfOk result (λ log. HasDimension 8 log.items) }
{
    let first = document(rt, alloc, 101, 0xf0, "en", 2021)?;
    let second = document(rt, alloc, 102, 0xf1, "de", 2022)?;
    let third = document(rt, alloc, 103, 0xf3, "en", 2019)?;
    let fourth = document(rt, alloc, 104, 0xff, "en", 2023)?;
    let entries = vec![in alloc; first, second, third, fourth]?;
    Ok(entries)
}

fn since(year: i64) -> Filter {
    Filter::Compare {
        left: Operand::Column(1),
        op: CompareOp::GreaterEqual,
        right: Field::Int(year),
    }
}

fn in_languages(alloc: Global, langs: &[&str]) -> Result<Filter, Memory> {
    let mut choices = Vec::new(alloc);
    for lang in langs {
        choices.push(Field::Text(Text::copied(alloc, lang)?))?;
    }
    Ok(Filter::OneOf {
        left: Operand::Column(0),
        choices: List::of(choices),
    })
}

/// The documents nearest to `f0` that pass a filter.
fn nearest(
    rt: &impl Abort,
    alloc: Global,
    filter: Option<Filter>,
    k: u32,
) -> Result<Vec<Hit>, Memory> {
    let log = documents(rt, alloc)?;
    let query = Query {
        vector: vector(rt, alloc, 0xf0)?,
        k,
        filter,
    };
    let plan = Plan {
        metric: Metric::Hamming,
    };
    scan_at(alloc, log.as_slice(), Timestamp(1), &plan, &query)
}

#[test]
fn the_nearest_are_those_of_the_rows_that_pass(rt: HostRuntime) -> Result<(), Memory> {
    let alloc = rt.alloc();
    let all = nearest(&rt, alloc, None, 2)?;
    assert_eq!(&rt;
        all.as_slice(),
        [hamming(0, 101), hamming(1, 102)].as_slice()
    );
    let late = nearest(&rt, alloc, Some(since(2022)), 1)?;
    assert_eq!(&rt; late.as_slice(), [hamming(1, 102)].as_slice());
    let english = nearest(&rt, alloc, Some(in_languages(alloc, &["en"])?), 2)?;
    assert_eq!(&rt;
        english.as_slice(),
        [hamming(0, 101), hamming(2, 103)].as_slice()
    );
    let none = nearest(&rt, alloc, Some(since(2024)), 4)?;
    assert_eq!(&rt; none.as_slice(), [].as_slice());
    Ok(())
}

/// Placed rows in a `Vec`.
#[derive(Drop)]
struct Held {
    rows: Vec<TailRow>,
    ghost few: { vec_len rows < 2 ^ 32 },
}

impl TailRows for Held {
    ghost rows = { λ held. held.rows.items };

    fn len(&self) -> u32 {
        self.rows.len() as u32
    }

    fn row(&self, i: u32) -> &TailRow {
        &self.rows[i as usize]
    }
}

/// The position of the last row, where there is a row.
fn last_position<T: TailRows>(rows: &T) -> Option<u64> {
    let len = rows.len();
    if len == 0 {
        return None;
    }
    Some(rows.row(len - 1).position)
}

#[test]
fn owners_and_places_show_one_row(rt: HostRuntime) -> Result<(), Memory> {
    let alloc = rt.alloc();
    let first = SharedRow::of(Arc::new(alloc, row(&rt, alloc, 7, 0x0f)?)?);
    let other = first.share()?;
    assert_eq!(&rt; other.get().key, Key(7));
    assert_eq!(&rt; other.get().vector.words(), [0x0f].as_slice());
    let placed = TailRow {
        position: 4,
        ts: Timestamp(9),
        row: other,
    };
    let rows = vec![in alloc; placed]?;
    let held = Held { rows };
    assert_eq!(&rt; last_position(&held), Some(4));
    assert_eq!(&rt; held.row(0).row.get().key, first.get().key);
    Ok(())
}
