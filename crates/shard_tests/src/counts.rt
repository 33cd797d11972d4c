//! What a shard counts, and where its segments stand.

use crate::bench::Bench;
use crate::moves::two_rows;
use journal_model::{Home, PutKind};
use row_types::Key;
use shard_core::{Counts, channel_of};
use std::alloc::Global;
use std::process::Abort;
use std::test::Fail;

fn waits_at_the_leader(rt: &impl Abort, alloc: Global, bench: &mut Bench) -> Result<(), Fail> {
    assert_eq!(rt; bench.waiting(alloc)?.as_slice(), [0].as_slice());
    bench.begin(alloc, 0, Home::Leader)?;
    assert!(rt; bench.loads(alloc, 0)?);
    assert!(rt; bench.waiting(alloc)?.is_empty());
    Ok(())
}

fn stands_on_one_node(rt: &impl Abort, alloc: Global, bench: &mut Bench) -> Result<(), Fail> {
    assert_eq!(rt; bench.on_node(alloc, 0)?.as_slice(), [0].as_slice());
    assert!(rt; bench.on_node(alloc, 1)?.is_empty());
    assert_eq!(rt; bench.choose_node(), 1);
    Ok(())
}

// The row that is put ends one of the segment.
fn counts_the_dead_row(rt: &impl Abort, alloc: Global, bench: &mut Bench) -> Result<(), Fail> {
    bench.put(alloc, PutKind::Upsert, 1, 0x0f)?;
    let counts = Counts {
        live: 2,
        tail: 1,
        waiting: 0,
        node_rows: 2,
        node_live: 1,
    };
    assert_eq!(rt; bench.counts(alloc)?, counts);
    Ok(())
}

fn counts_and_places(rt: &impl Abort, alloc: Global, bench: &mut Bench) -> Result<(), Fail> {
    waits_at_the_leader(rt, alloc, bench)?;
    stands_on_one_node(rt, alloc, bench)?;
    counts_the_dead_row(rt, alloc, bench)
}

#[test]
fn a_shard_counts_its_rows_and_places(rt: HostRuntime) -> Result<(), Fail> {
    let mut bench = two_rows(rt.alloc())?;
    counts_and_places(&rt, rt.alloc(), &mut bench)
}

#[test]
fn the_channel_of_a_key_is_the_remainder_that_is_not_negative(rt: HostRuntime) {
    assert_eq!(rt; (channel_of(4, Key(7)), channel_of(4, Key(-1))), (3, 3));
}
