//! What moves leave, and what refuses them.

use crate::bench::{Bench, Sizes};
use crate::searches::nearest;
use channel_view::View;
use journal_model::{Home, MoveError, PutKind};
use row_types::{Distance, Hit, Key, Memory};
use seg_sealed::Part;
use shard_core::{Back, Moving};
use std::alloc::Global;
use std::process::Abort;
use std::test::Fail;
use top_list::TopList;

fn hit(bits: u32, key: i64) -> Hit {
    Hit {
        distance: Distance::Hamming(bits),
        key: Key(key),
    }
}

/// A shard whose keys 1 and 2 were put at 1 and 2, and are the segment 0.
pub(crate) fn two_rows(alloc: Global) -> Result<Bench, Memory> {
    let sizes = Sizes {
        channels: 1,
        nodes: 2,
        seal_rows: 2,
    };
    let mut bench = Bench::new(alloc, sizes, 0)?;
    put_two(alloc, &mut bench)?;
    Ok(bench)
}

fn put_two(alloc: Global, bench: &mut Bench) -> Result<(), Memory> {
    bench.put(alloc, PutKind::Insert, 1, 0x00)?;
    bench.put(alloc, PutKind::Insert, 2, 0xff)?;
    Ok(())
}

/// Moves the segment 0 from a home to a node, at once; whether the node has it then.
fn move_to(alloc: Global, bench: &mut Bench, from: Home, node: u32) -> Result<bool, MoveError> {
    bench.begin(alloc, 0, from)?;
    Ok(bench.loads(alloc, node)?)
}

fn row_is_dead_from_three(rt: &impl Abort, alloc: Global, view: &View) -> Result<(), Fail> {
    assert_eq!(rt; view.parts().len(), 1);
    let before = nearest(alloc, view, 2, 2)?;
    assert_eq!(rt; before.hits(), [hit(0, 1), hit(8, 2)].as_slice());
    let after = nearest(alloc, view, 4, 2)?;
    assert_eq!(rt; after.hits(), [hit(8, 2)].as_slice());
    Ok(())
}

fn row_dies_during_a_load(rt: &impl Abort, alloc: Global, bench: &mut Bench) -> Result<(), Fail> {
    bench.begin(alloc, 0, Home::Leader)?;
    bench.remove(alloc, Key(1))?;
    assert!(rt; bench.loads(alloc, 1)?);
    bench.tick(alloc)?;
    let view = bench.look(alloc)?;
    row_is_dead_from_three(rt, alloc, &view)
}

#[test]
fn a_row_that_dies_during_a_load_is_dead_on_the_node(rt: HostRuntime) -> Result<(), Fail> {
    let mut bench = two_rows(rt.alloc())?;
    row_dies_during_a_load(&rt, rt.alloc(), &mut bench)
}

fn is_what_was_lent(rt: &impl Abort, back: &Back<(Moving, Part)>) {
    let (moving, part) = &back.value;
    let already = MoveError::Already {
        segment: 0,
        node: 1,
    };
    assert_eq!(rt; back.why, already);
    assert_eq!(rt; (moving.home(), moving.begun()), (Home::Leader, 2));
    assert_eq!(rt; (part.sealed().number(), part.sealed().len()), (0, 2));
}

fn second_load(rt: &impl Abort, alloc: Global, bench: &mut Bench) -> Result<(), Fail> {
    bench.begin(alloc, 0, Home::Leader)?;
    bench.begin(alloc, 0, Home::Leader)?;
    assert!(rt; bench.loads(alloc, 1)?);
    match bench.load(alloc, 0)? {
        Some(back) => is_what_was_lent(rt, &back),
        None => return Err(Fail::from("loaded twice")),
    }
    assert_eq!(rt; bench.len(), 3);
    Ok(())
}

#[test]
fn a_second_load_from_the_leader_is_handed_back(rt: HostRuntime) -> Result<(), Fail> {
    let mut bench = two_rows(rt.alloc())?;
    second_load(&rt, rt.alloc(), &mut bench)
}

fn each_key_once(rt: &impl Abort, alloc: Global, view: &View) -> Result<(), Fail> {
    assert_eq!(rt; view.parts().len(), 2);
    let one = nearest(alloc, view, 3, 2)?;
    assert_eq!(rt; one.hits(), [hit(0, 1), hit(8, 2)].as_slice());
    let other = nearest(alloc, view, 3, 2)?;
    let merged = TopList::merge(alloc, &[one, other], 2)?;
    assert_eq!(rt; merged.hits(), [hit(0, 1), hit(8, 2)].as_slice());
    Ok(())
}

fn two_places(rt: &impl Abort, alloc: Global, bench: &mut Bench) -> Result<(), Fail> {
    assert!(rt; move_to(alloc, bench, Home::Leader, 0)?);
    assert!(rt; move_to(alloc, bench, Home::Node(0), 1)?);
    bench.tick(alloc)?;
    let view = bench.look(alloc)?;
    each_key_once(rt, alloc, &view)
}

#[test]
fn a_segment_at_two_places_gives_each_key_once(rt: HostRuntime) -> Result<(), Fail> {
    let mut bench = two_rows(rt.alloc())?;
    two_places(&rt, rt.alloc(), &mut bench)
}

fn refusals(rt: &impl Abort, alloc: Global, bench: &mut Bench) -> Result<(), Fail> {
    assert!(rt; move_to(alloc, bench, Home::Leader, 0)?);
    let last = MoveError::LastPlace { segment: 0 };
    assert_eq!(rt; bench.release(alloc, 0, 0), Err(last));
    let not_there = MoveError::NotThere {
        segment: 0,
        node: 1,
    };
    assert_eq!(rt; bench.release(alloc, 0, 1), Err(not_there));
    let gone = MoveError::Gone { segment: 16 };
    assert_eq!(rt; bench.release(alloc, 16, 0), Err(gone));
    assert_eq!(rt; bench.len(), 3);
    Ok(())
}

fn release_of_one_of_two(rt: &impl Abort, alloc: Global, bench: &mut Bench) -> Result<(), Fail> {
    assert!(rt; move_to(alloc, bench, Home::Node(0), 1)?);
    assert_eq!(rt; bench.release(alloc, 0, 0), Ok(()));
    assert_eq!(rt; bench.len(), 5);
    Ok(())
}

fn refusals_and_a_release(rt: &impl Abort, alloc: Global, bench: &mut Bench) -> Result<(), Fail> {
    refusals(rt, alloc, bench)?;
    release_of_one_of_two(rt, alloc, bench)
}

#[test]
fn a_release_is_refused_by_the_homes(rt: HostRuntime) -> Result<(), Fail> {
    let mut bench = two_rows(rt.alloc())?;
    refusals_and_a_release(&rt, rt.alloc(), &mut bench)
}
