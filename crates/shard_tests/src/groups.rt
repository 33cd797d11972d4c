//! Which segments are merged together.

use crate::bench::{Bench, Sizes};
use hybrid_time::Timestamp;
use journal_model::{Home, PutKind};
use row_types::{Key, Memory};
use std::alloc::Global;
use std::process::Abort;
use std::test::Fail;

/// A shard that seals four rows, with the key 1 in the segment 0, the key 2 in the segment 1, and the keys
/// 3 to 6 in the segment 2; the first two are on nodes, and the last waits.
fn three_segments(alloc: Global) -> Result<Bench, Memory> {
    let sizes = Sizes {
        channels: 1,
        nodes: 2,
        seal_rows: 4,
    };
    let mut bench = Bench::new(alloc, sizes, 0)?;
    put_and_load(alloc, &mut bench)?;
    Ok(bench)
}

fn put_and_load(alloc: Global, bench: &mut Bench) -> Result<(), Memory> {
    for (key, segment) in [(1, 0), (2, 16)] {
        bench.put(alloc, PutKind::Insert, key, 0x00)?;
        bench.seal(alloc)?;
        let _ = bench.begin(alloc, segment, Home::Leader);
        bench.loads(alloc, 0)?;
    }
    for key in 3..7 {
        bench.put(alloc, PutKind::Insert, key, 0xff)?;
    }
    Ok(())
}

/// Whether these are one group with these members.
fn are(groups: &[Vec<u64>], members: &[u64]) -> bool {
    groups.len() == 1 && groups.iter().all(|group| group.as_slice() == members)
}

fn load_the_third(alloc: Global, bench: &mut Bench) -> Result<(), Memory> {
    let _ = bench.begin(alloc, 32, Home::Leader);
    bench.loads(alloc, 1)?;
    Ok(())
}

/// Removes the keys 1, 3 and 4, and raises the floor to the tick behind that.
fn remove_three(alloc: Global, bench: &mut Bench) -> Result<(), Memory> {
    for key in [1, 3, 4] {
        bench.remove(alloc, Key(key))?;
    }
    bench.tick(alloc)?;
    let tick = bench.last_tick();
    bench.raise_floor(Timestamp(tick));
    Ok(())
}

fn small_groups(rt: &impl Abort, alloc: Global, bench: &mut Bench) -> Result<(), Fail> {
    assert!(rt; are(bench.small_groups(alloc)?.as_slice(), [0, 16].as_slice()));
    load_the_third(alloc, bench)?;
    assert!(rt; are(bench.small_groups(alloc)?.as_slice(), [0, 16].as_slice()));
    remove_three(alloc, bench)?;
    assert!(rt;
        are(
            bench.small_groups(alloc)?.as_slice(),
            [0, 16, 32].as_slice()
        )
    );
    Ok(())
}

#[test]
fn small_segments_on_nodes_are_merged_together(rt: HostRuntime) -> Result<(), Fail> {
    let mut bench = three_segments(rt.alloc())?;
    small_groups(&rt, rt.alloc(), &mut bench)
}

fn meet_groups(rt: &impl Abort, alloc: Global, bench: &mut Bench) -> Result<(), Fail> {
    load_the_third(alloc, bench)?;
    remove_three(alloc, bench)?;
    // Three of six rows are left.
    assert!(rt; bench.meet_groups(alloc)?.is_empty());
    bench.remove(alloc, Key(5))?;
    // The death is above the floor.
    assert!(rt; bench.meet_groups(alloc)?.is_empty());
    remove_three(alloc, bench)?;
    assert!(rt; are(bench.meet_groups(alloc)?.as_slice(), [0, 16, 32].as_slice()));
    Ok(())
}

#[test]
fn a_meet_merges_where_most_rows_are_dead_at_the_floor(rt: HostRuntime) -> Result<(), Fail> {
    let mut bench = three_segments(rt.alloc())?;
    meet_groups(&rt, rt.alloc(), &mut bench)
}
