//! Tails and key indexes at work.

ghost use Rattle.std.specs.Prelude.{◌≡◌, ◌≤◌, length, IfOk};

use crate::{Growing, KeyIndex, SharedTail};
use hybrid_time::Timestamp;
use log_model::{SharedRow, TailRows};
use row_types::{BitVector, Field, Key, List, Memory, Row, VectorError};
use std::alloc::{AllocError, AllocFailed, Global};
use std::collections::BTreeMap;
use std::sync::Arc;
use std::test::Fail;

// Which digits the vector of the i-th row has; those of neighbours differ.
fn digits(i: u32) -> &'static str {
    match i % 4 {
        0 => "0100000000000000",
        1 => "ff00000000000080",
        2 => "0123456789abcdef",
        _ => "0000000000000000",
    }
}

// The row of key i.
fn row_of(alloc: Global, i: u32) -> Result<SharedRow, VectorError>
    ensures { IfOk result (λ row. length row.vector ≡ 64) }
{
    let vector = BitVector::from_digits(alloc, digits(i), 64)?;
    let row = Row {
        key: Key(i64::from(i)),
        vector,
        fields: List::empty(alloc),
    };
    match Arc::new(alloc, row) {
        Ok(row) => Ok(SharedRow::of(row)),
        Err(_) => Err(VectorError::Memory),
    }
}

// A tail whose i-th row has the position 2 * i and the timestamp i / 3.
fn grown(alloc: Global, count: u32) -> Result<Growing, VectorError>
    requires { count ≤ 1000 }
    ensures rows { IfOk result (λ tail. length tail.rows ≡ count) }
    ensures dim { IfOk result (λ tail. tail.dim ≡ 64) }
{
    let mut tail = Growing::new(alloc, 64);
    'rows: for i in 0..count {
        if tail.reserve(alloc, 1).is_err() {
            return Err(VectorError::Memory);
        }
        let row = row_of(alloc, i)?;
        tail.push(2 * u64::from(i), Timestamp(u64::from(i / 3)), row);
    }
    Ok(tail)
}

// Whether each row stands at its place.
fn is_whole<T: TailRows>(tail: &T) -> bool {
    for i in 0..tail.len() {
        let row = tail.row(i);
        let key = row.row.get().key.0;
        if row.position != 2 * u64::from(i) || row.ts.0 != u64::from(i / 3) || key != i64::from(i) {
            return false;
        }
    }
    true
}

#[test]
fn six_hundred_rows_stand_in_two_chunks_and_behind_them(rt: HostRuntime) -> Result<(), Fail> {
    let alloc = rt.alloc();
    let mut tail = grown(alloc, 600)?;
    assert_eq!(rt; tail.len(), 600);
    assert!(rt; is_whole(&tail));
    let shared = tail.share(alloc)?;
    assert!(rt; is_whole(&shared));
    let (chunks, latest) = shared.parts();
    assert_eq!(rt; chunks.len(), 2);
    assert_eq!(rt; latest.len(), 88);
    let Some(second) = chunks.get(1) else {
        return Err(Fail::from("a chunk"));
    };
    assert_eq!(rt; second.words().get(1).copied(), Some(0x8000_0000_0000_00ff));
    assert_eq!(rt; second.words().get(2).copied(), Some(0xefcd_ab89_6745_2301));
    Ok(())
}

#[test]
fn a_shared_tail_stays_while_the_tail_goes_on(rt: HostRuntime) -> Result<(), Fail> {
    let alloc = rt.alloc();
    let mut tail = grown(alloc, 300)?;
    let shared = tail.share(alloc)?;
    let handed = tail.take(alloc);
    assert_eq!(rt; tail.len(), 0);
    assert_eq!(rt; handed.len(), 300);
    assert_eq!(rt; shared.len(), 300);
    tail.reserve(alloc, 1)?;
    tail.push(7, Timestamp(1), row_of(alloc, 9)?);
    assert_eq!(rt; tail.len(), 1);
    tail.clear();
    assert_eq!(rt; tail.len(), 0);
    assert!(rt; is_whole(&shared));
    Ok(())
}

#[test]
fn a_key_index_is_the_map_that_its_calls_make(rt: HostRuntime) -> Result<(), Fail> {
    let alloc = rt.alloc();
    let mut index = KeyIndex::new(alloc)?;
    let mut map = BTreeMap::new(alloc);
    let mut state = 7u64;
    for step in 0..4_000u64 {
        state = state
            .wrapping_mul(6_364_136_223_846_793_005)
            .wrapping_add(1_442_695_040_888_963_407);
        let key = (state >> 33) as i64 % 300 - 150;
        if state >> 62 == 0 {
            index.clear(Key(key));
            map.remove(&key);
        } else {
            index.reserve(alloc, 1)?;
            index.set(Key(key), step);
            map.insert(key, step)?;
        }
        assert_eq!(rt; index.find(Key(key)), map.get(&key).copied());
    }
    for key in -151..151i64 {
        assert_eq!(rt; index.find(Key(key)), map.get(&key).copied());
    }
    Ok(())
}
