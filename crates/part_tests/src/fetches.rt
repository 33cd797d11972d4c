//! What fetching answers where a keeper has a part, where objects of it were damaged or removed, and
//! where the keeper fails.

use crate::parts::{DELETES, INSERTS, LISTS, listed, unlisted};
use data_index_node::flush;
use manu_edge::MapKeeper;
use query_node::{FetchError, fetch};
use std::alloc::Global;
use std::process::Abort;
use std::test::Fail;

const OBJECTS: [(u64, &[u8]); 3] = [(0, &INSERTS), (1, &DELETES), (2, &LISTS)];

/// A keeper that has the three objects, and whose calls of these numbers fail.
fn flushed(rt: &impl Abort, alloc: Global, failing: Vec<u32>) -> Result<MapKeeper, Fail> {
    let mut keeper = MapKeeper::new(alloc, failing);
    let part = listed(rt, alloc)?;
    flush(alloc, &part, &mut keeper)?;
    Ok(keeper)
}

/// What fetching the part answers, but for the part.
fn refusal(
    rt: &impl Abort,
    alloc: Global,
    keeper: &mut MapKeeper,
) -> Result<Option<FetchError>, Fail> {
    let part = listed(rt, alloc)?;
    Ok(fetch(alloc, &part, keeper).err())
}

/// Bytes with another one at a place.
fn with_byte(alloc: Global, bytes: &[u8], at: usize, byte: u8) -> Result<Vec<u8>, Fail> {
    let mut damaged = Vec::from_slice(alloc, bytes)?;
    if let Some(slot) = damaged.get_mut(at) {
        *slot = byte;
    }
    Ok(damaged)
}

#[test]
fn a_flushed_part_is_fetched(rt: HostRuntime) -> Result<(), Fail> {
    let alloc = rt.alloc();
    let mut keeper = flushed(&rt, alloc, Vec::new(alloc))?;
    let part = listed(&rt, alloc)?;
    let fetched = fetch(alloc, &part, &mut keeper)?;
    assert_eq!(rt; fetched.sealed().number(), 0);
    assert_eq!(rt; fetched.sealed().words(), [0x0f].as_slice());
    assert!(rt; fetched.sealed().lists().is_some());
    assert_eq!(rt; fetched.marks().applied(), 5);
    assert_eq!(rt; fetched.marks().dead_at(0).map(|ts| ts.0), Some(3));
    keeper.spoil(2, None)?;
    let part = unlisted(&rt, alloc)?;
    let fetched = fetch(alloc, &part, &mut keeper)?;
    assert!(rt; fetched.sealed().lists().is_none());
    Ok(())
}

#[test]
fn a_damaged_object_and_a_lost_one_are_named(rt: HostRuntime) -> Result<(), Fail> {
    let alloc = rt.alloc();
    let mut keeper = flushed(&rt, alloc, Vec::new(alloc))?;
    keeper.spoil(0, Some(with_byte(alloc, &INSERTS, 52, 0x0e)?))?;
    let damaged = FetchError::Damaged {
        object: 0,
        at: 52,
        want: Some(15),
        got: Some(14),
    };
    assert_eq!(rt; refusal(&rt, alloc, &mut keeper)?, Some(damaged));
    let mut keeper = flushed(&rt, alloc, Vec::new(alloc))?;
    keeper.spoil(1, None)?;
    let lost = FetchError::Lost { object: 1 };
    assert_eq!(rt; refusal(&rt, alloc, &mut keeper)?, Some(lost));
    Ok(())
}

#[test]
fn each_damaged_byte_and_each_removed_object_is_named(rt: HostRuntime) -> Result<(), Fail> {
    let alloc = rt.alloc();
    for (object, bytes) in OBJECTS {
        let mut keeper = flushed(&rt, alloc, Vec::new(alloc))?;
        for (at, byte) in bytes.iter().enumerate() {
            let other = *byte ^ 1;
            keeper.spoil(object, Some(with_byte(alloc, bytes, at, other)?))?;
            let damaged = FetchError::Damaged {
                object,
                at: at as u64,
                want: Some(*byte),
                got: Some(other),
            };
            assert_eq!(rt;
                refusal(&rt, alloc, &mut keeper)?,
                Some(damaged),
                "byte {at}"
            );
        }
        keeper.spoil(object, None)?;
        let lost = FetchError::Lost { object };
        assert_eq!(rt; refusal(&rt, alloc, &mut keeper)?, Some(lost));
    }
    Ok(())
}

#[test]
fn bytes_that_end_too_soon_or_go_on_are_damage(rt: HostRuntime) -> Result<(), Fail> {
    let alloc = rt.alloc();
    for (object, bytes) in OBJECTS {
        let mut keeper = flushed(&rt, alloc, Vec::new(alloc))?;
        let mut longer = Vec::from_slice(alloc, bytes)?;
        longer.push(7)?;
        keeper.spoil(object, Some(longer))?;
        let goes_on = FetchError::Damaged {
            object,
            at: bytes.len() as u64,
            want: None,
            got: Some(7),
        };
        assert_eq!(rt; refusal(&rt, alloc, &mut keeper)?, Some(goes_on));
        keeper.spoil(object, Some(Vec::new(alloc)))?;
        let ends = FetchError::Damaged {
            object,
            at: 0,
            want: Some(b'M'),
            got: None,
        };
        assert_eq!(rt; refusal(&rt, alloc, &mut keeper)?, Some(ends));
    }
    Ok(())
}

#[test]
fn fetching_ends_at_the_first_trouble(rt: HostRuntime) -> Result<(), Fail> {
    let alloc = rt.alloc();
    for (call, object) in [(4, 0), (5, 1), (6, 2)] {
        let mut keeper = flushed(&rt, alloc, vec![in alloc; call]?)?;
        let failed = FetchError::KeepFault { object };
        assert_eq!(rt; refusal(&rt, alloc, &mut keeper)?, Some(failed));
    }
    let mut keeper = flushed(&rt, alloc, Vec::new(alloc))?;
    keeper.spoil(2, None)?;
    keeper.spoil(1, None)?;
    let lost = FetchError::Lost { object: 1 };
    assert_eq!(rt; refusal(&rt, alloc, &mut keeper)?, Some(lost));
    Ok(())
}
