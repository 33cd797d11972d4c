//! Parts that are stored over a keeper in memory, whose calls fail at chosen places, and over one that
//! gives back something else than was put.

ghost use Rattle.std.specs.declared.option.Option.TheVariants.{None};

use crate::notes::{KeeperCall, Outcome, VaultNote};
use crate::storing::Stored;
use crate::vaults::Vault;
use binlog_format::{FormatError, read_insert};
use manu_edge::{KeepError, Keeper, MapKeeper};
use seg_sealed::{Marks, Part, Sealed};
use std::alloc::Global;
use std::sync::Arc;
use std::test::Fail;

/// Segment 0 of dimension 8, one row at position 0 with timestamp 1, key 1 and vector 0f.
const INSERTS: [u8; 53] = [
    0x4d, 0x41, 0x4e, 0x55, 0x49, 0x4e, 0x53, 0x31, // the name
    0, 0, 0, 0, 0, 0, 0, 0, // the segment
    8, 0, 0, 0, // the dimension
    1, 0, 0, 0, // the number of rows
    0, 0, 0, 0, // the number of columns
    0, 0, 0, 0, 0, 0, 0, 0, // the position
    1, 0, 0, 0, 0, 0, 0, 0, // the timestamp
    1, 0, 0, 0, 0, 0, 0, 0, // the key
    0x0f, // the vector
];

fn sealed(alloc: Global) -> Result<Sealed, FormatError> {
    match read_insert(alloc, &INSERTS) {
        Ok(log) => Ok(Sealed::of_log(alloc, log)?),
        Err(error) => Err(error),
    }
}

/// The part of that segment, no row of which died.
fn part(alloc: Global) -> Result<Part, Fail> {
    let sealed = Arc::new(alloc, sealed(alloc)?)?;
    let marks = Arc::new(alloc, Marks::new(alloc, 0)?)?;
    Ok(Part::new(sealed, marks))
}

/// A note of seat 3 for line 7.
fn note(call: KeeperCall, object: u64, outcome: Outcome) -> VaultNote {
    VaultNote {
        by: 3,
        line: 7,
        call,
        object,
        outcome,
    }
}

fn is_kept(stored: &Stored) -> bool {
    match stored {
        Stored::Kept(_) => true,
        Stored::Failed => false,
    }
}

#[test]
fn each_call_is_noted(rt: HostRuntime) -> Result<(), Fail> {
    let alloc = rt.alloc();
    let mut vault = Vault::new(alloc, MapKeeper::new(alloc, Vec::new(alloc)));
    let part = part(alloc)?;
    let stored = vault.store(alloc, 3, 7, &part)?;
    assert!(rt; is_kept(&stored));
    let notes = [
        note(KeeperCall::Put, 0, Outcome::Done),
        note(KeeperCall::Put, 1, Outcome::Done),
        note(KeeperCall::Get, 0, Outcome::Done),
        note(KeeperCall::Get, 1, Outcome::Done),
    ];
    assert_eq!(rt; vault.journal(), notes.as_slice());
    assert_eq!(rt; vault.failed(), 0);
    let mut keeper = vault.into_keeper();
    assert_eq!(rt; keeper.get(0)?.as_deref(), Some(INSERTS.as_slice()));
    Ok(())
}

#[test]
fn a_call_that_fails_is_the_last_and_counts_until_a_meet(rt: HostRuntime) -> Result<(), Fail> {
    let alloc = rt.alloc();
    let part = part(alloc)?;
    let calls = [
        (1, KeeperCall::Put, 0),
        (2, KeeperCall::Put, 1),
        (3, KeeperCall::Get, 0),
        (4, KeeperCall::Get, 1),
    ];
    for (failing, call, object) in calls {
        let mut vault = Vault::new(alloc, MapKeeper::new(alloc, vec![in alloc; failing]?));
        let stored = vault.store(alloc, 3, 7, &part)?;
        assert!(rt; !is_kept(&stored));
        assert_eq!(rt; vault.journal().len(), failing as usize);
        let last = note(call, object, Outcome::Failed);
        assert_eq!(rt; vault.journal().last().copied(), Some(last));
        assert_eq!(rt; vault.failed(), 1);
        vault.met();
        assert_eq!(rt; vault.failed(), 0);
        let stored = vault.store(alloc, 3, 8, &part)?;
        assert!(rt; is_kept(&stored));
        assert_eq!(rt; vault.failed(), 0);
    }
    Ok(())
}

/// A keeper that keeps nothing, and gives back nothing or one byte. It tells no map.
#[derive(Drop)]
struct Careless {
    alloc: Global,
    gives: Option<u8>,
}

impl Keeper for Careless {
    ghost kept = { λ _. None };

    ghost faults = { λ _. 0 };

    fn put(&mut self, _name: u64, _bytes: &[u8]) -> Result<(), KeepError> {
        Ok(())
    }

    fn get(&mut self, _name: u64) -> Result<Option<Vec<u8>>, KeepError> {
        let Some(byte) = self.gives else {
            return Ok(None);
        };
        match Vec::from_slice(self.alloc, &[byte]) {
            Ok(bytes) => Ok(Some(bytes)),
            Err(_) => Err(KeepError::Memory),
        }
    }

    fn remove(&mut self, _name: u64) -> Result<(), KeepError> {
        Ok(())
    }
}

#[test]
fn what_does_not_come_back_is_lost_or_damaged(rt: HostRuntime) -> Result<(), Fail> {
    let alloc = rt.alloc();
    let part = part(alloc)?;
    let damaged = Outcome::Damaged {
        at: 0,
        want: Some(b'M'),
        got: Some(7),
    };
    for (gives, outcome) in [(None, Outcome::Lost), (Some(7), damaged)] {
        let mut vault = Vault::new(alloc, Careless { alloc, gives });
        let stored = vault.store(alloc, 3, 7, &part)?;
        assert!(rt; !is_kept(&stored));
        let notes = [
            note(KeeperCall::Put, 0, Outcome::Done),
            note(KeeperCall::Put, 1, Outcome::Done),
            note(KeeperCall::Get, 0, outcome),
        ];
        assert_eq!(rt; vault.journal(), notes.as_slice());
        assert_eq!(rt; vault.failed(), 1);
    }
    Ok(())
}
