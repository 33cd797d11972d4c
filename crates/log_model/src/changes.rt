//! Changes of the live rows.

ghost use Rattle.std.specs.Prelude.{◌≡◌, OnOk, OnErr};
ghost use Rattle.std.specs.Ordering.{int_cmp};
ghost use Rattle.std.specs.BTreeMap.{insert_entry};
ghost use Rattle.std.specs.FinMap as fin;
ghost use Rattle.log_model.specs.Logs.{Rows, applied};

use crate::logs::Write;
use row_types::{Memory, Row};
use std::alloc::Global;
use std::collections::BTreeMap;

/// Sets the row of its key.
fn set(alloc: Global, rows: &mut BTreeMap<i64, Row>, row: &Row) -> Result<(), Memory>
    ensures ok { OnOk result (rows.new.entries ≡ insert_entry int_cmp rows.old.entries row.now.key.0 row.now) }
    ensures err { OnErr result (rows.new.entries ≡ rows.old.entries) }
{
    let copy = row.copy(alloc)?;
    rows.insert(row.key.0, copy)?;
    Ok(())
}

/// Applies a write to live rows, which stand by their keys; a row that it brings is copied. An `Err`
/// leaves the rows as they were.
pub fn apply(alloc: Global, rows: &mut BTreeMap<i64, Row>, write: &Write) -> Result<(), Memory>
    ensures ok { OnOk result ((m : Rows) → fin.entries m ≡ rows.old.entries → fin.entries (applied m write.now) ≡ rows.new.entries) }
    ensures err { OnErr result (rows.new.entries ≡ rows.old.entries) }
{
    match write {
        Write::Insert(row) => {
            if !rows.contains_key(&row.key.0) {
                set(alloc, rows, row)?;
            }
        }
        Write::Upsert(row) => {
            set(alloc, rows, row)?;
        }
        Write::Delete(key) => {
            rows.remove(&key.0);
        }
    }
    Ok(())
}
