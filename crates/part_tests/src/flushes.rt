//! What a keeper has behind a flush.

use crate::parts::{DELETES, INSERTS, LISTS, listed, unlisted};
use data_index_node::{FlushError, flush};
use manu_edge::{KeepError, Keeper, MapKeeper};
use std::process::Abort;
use std::test::Fail;

/// The keeper has these objects under the names 0, 1, 2.
fn has(
    rt: &impl Abort,
    keeper: &mut MapKeeper,
    objects: [Option<&[u8]>; 3],
) -> Result<(), KeepError> {
    for (name, bytes) in [(0, objects[0]), (1, objects[1]), (2, objects[2])] {
        let kept = keeper.get(name)?;
        assert_eq!(rt; kept.as_deref(), bytes, "object {name}");
    }
    Ok(())
}

#[test]
fn a_part_is_kept_as_its_objects(rt: HostRuntime) -> Result<(), Fail> {
    let alloc = rt.alloc();
    let mut keeper = MapKeeper::new(alloc, Vec::new(alloc));
    let part = unlisted(&rt, alloc)?;
    assert_eq!(rt; flush(alloc, &part, &mut keeper), Ok(()));
    has(&rt, &mut keeper, [Some(&INSERTS), Some(&DELETES), None])?;
    let part = listed(&rt, alloc)?;
    assert_eq!(rt; flush(alloc, &part, &mut keeper), Ok(()));
    has(
        &rt,
        &mut keeper,
        [Some(&INSERTS), Some(&DELETES), Some(&LISTS)],
    )?;
    Ok(())
}

#[test]
fn storing_ends_at_the_put_that_fails(rt: HostRuntime) -> Result<(), Fail> {
    let alloc = rt.alloc();
    for (call, object) in [(1, 0), (2, 1), (3, 2)] {
        let mut keeper = MapKeeper::new(alloc, vec![in alloc; call]?);
        let part = listed(&rt, alloc)?;
        let failed = Err(FlushError::KeepFault { object });
        assert_eq!(rt; flush(alloc, &part, &mut keeper), failed);
        for name in 0..3 {
            assert_eq!(rt; keeper.get(name)?.is_some(), name < object, "object {name}");
        }
        assert_eq!(rt; flush(alloc, &part, &mut keeper), Ok(()));
    }
    Ok(())
}
