//! Writing an insert log.

ghost use Rattle.std.specs.Prelude.{◌≡◌, ◌<◌, ◌^◌, ◌++◌, IfOk, OnOk, FitsSigned, slice_index, ℕ};
ghost use Rattle.std.specs.Int.{w64, to_le_bytes};
ghost use Rattle.std.specs.List.{AllByRecursion, flat_map};
ghost use Rattle.row_types.specs.Bits.{bytes_of};
ghost use Rattle.binlog_format.specs.Inserts.{SpellsInserts, IsInsertLog, stamp_bytes, int_bytes, key_bytes, bool_bytes, text_bytes, column_bytes, IsShort, HasShortTexts, IsText, ColumnFits};

use crate::inserts::reading::NAME;
use crate::objects::{Column, InsertLog};
use crate::puts::{put_i64, put_u32, put_u64};
use hybrid_time::Timestamp;
use row_types::{BitVector, Key, Memory, Text};
use std::alloc::Global;

/// Writes an insert log that keeps the rules of the format.
pub fn write_insert(alloc: Global, log: &InsertLog) -> Result<Vec<u8>, Memory>
    requires { IsInsertLog log.now }
    ensures { IfOk result (λ bytes. SpellsInserts bytes.items log.now) }
{
    let positions = log.positions.as_slice();
    let columns = log.columns.as_slice();
    let row = 24 + (log.dim / 8) as usize;
    let mut out = Vec::with_capacity(alloc, 28 + row * positions.len())?;
    out.extend_from_slice(&NAME)?;
    put_u64(&mut out, log.segment)?;
    put_u32(&mut out, log.dim)?;
    put_u32(&mut out, positions.len() as u32)?;
    put_u32(&mut out, columns.len() as u32)?;
    put_positions(&mut out, positions)?;
    put_stamps(&mut out, log.stamps.as_slice())?;
    put_keys(&mut out, log.keys.as_slice())?;
    put_vectors(&mut out, log.vectors.as_slice())?;
    put_columns(&mut out, columns)?;
    Ok(out)
}

fn put_positions(out: &mut Vec<u8>, positions: &[u64]) -> Result<(), Memory>
    ensures bytes { OnOk result (out.new.items ≡ out.old.items ++ flat_map (to_le_bytes w64) positions.now) }
    ensures fit { OnOk result (AllByRecursion (λ position. position < 2 ^ 64) positions.now) }
{
    for item in positions {
        put_u64(out, *item)?;
    }
    Ok(())
}

fn put_stamps(out: &mut Vec<u8>, stamps: &[Timestamp]) -> Result<(), Memory>
    ensures bytes { OnOk result (out.new.items ≡ out.old.items ++ flat_map stamp_bytes stamps.now) }
    ensures fit { OnOk result (AllByRecursion (λ ts. ts.0 < 2 ^ 64) stamps.now) }
{
    for item in stamps {
        put_u64(out, item.0)?;
    }
    Ok(())
}

fn put_keys(out: &mut Vec<u8>, keys: &[Key]) -> Result<(), Memory>
    ensures bytes { OnOk result (out.new.items ≡ out.old.items ++ flat_map key_bytes keys.now) }
    ensures fit { OnOk result (AllByRecursion (λ key. FitsSigned w64 key.0) keys.now) }
{
    for item in keys {
        put_i64(out, item.0)?;
    }
    Ok(())
}

fn put_vectors(out: &mut Vec<u8>, vectors: &[BitVector]) -> Result<(), Memory>
    ensures { OnOk result (out.new.items ≡ out.old.items ++ flat_map bytes_of vectors.now) }
{
    for item in vectors {
        item.append_bytes(out)?;
    }
    Ok(())
}

fn put_columns(out: &mut Vec<u8>, columns: &[Column]) -> Result<(), Memory>
    requires { AllByRecursion HasShortTexts columns.now }
    ensures bytes { OnOk result (out.new.items ≡ out.old.items ++ flat_map column_bytes columns.now) }
    ensures fit { OnOk result (AllByRecursion ColumnFits columns.now) }
{
    for item in columns {
        put_column(out, item)?;
    }
    Ok(())
}

fn put_column(out: &mut Vec<u8>, column: &Column) -> Result<(), Memory>
    requires { HasShortTexts column.now }
    ensures bytes { OnOk result (out.new.items ≡ out.old.items ++ column_bytes column.now) }
    ensures fit { OnOk result (ColumnFits column.now) }
{
    match column {
        Column::Ints(ints) => {
            out.push(0)?;
            put_ints(out, ints.as_slice())
        }
        Column::Bools(bools) => {
            out.push(1)?;
            put_bools(out, bools.as_slice())
        }
        Column::Texts(texts) => {
            out.push(2)?;
            put_texts(out, texts.as_slice())
        }
    }
}

fn put_ints(out: &mut Vec<u8>, ints: &[i64]) -> Result<(), Memory>
    ensures bytes { OnOk result (out.new.items ≡ out.old.items ++ flat_map int_bytes ints.now) }
    ensures fit { OnOk result (AllByRecursion (FitsSigned w64) ints.now) }
{
    for item in ints {
        put_i64(out, *item)?;
    }
    Ok(())
}

fn put_bools(out: &mut Vec<u8>, bools: &[bool]) -> Result<(), Memory>
    ensures { OnOk result (out.new.items ≡ out.old.items ++ flat_map bool_bytes bools.now) }
{
    for item in bools {
        put_bool(out, *item)?;
    }
    Ok(())
}

fn put_bool(out: &mut Vec<u8>, truth: bool) -> Result<(), Memory>
    ensures { OnOk result (out.new.items ≡ out.old.items ++ bool_bytes truth) }
{
    out.push(if truth { 1 } else { 0 })?;
    Ok(())
}

fn put_texts(out: &mut Vec<u8>, texts: &[Text]) -> Result<(), Memory>
    requires { AllByRecursion IsShort texts.now }
    ensures bytes { OnOk result (out.new.items ≡ out.old.items ++ flat_map text_bytes texts.now) }
    ensures fit { OnOk result (AllByRecursion IsText texts.now) }
{
    for item in texts {
        put_text(out, item)?;
    }
    Ok(())
}

fn put_text(out: &mut Vec<u8>, text: &Text) -> Result<(), Memory>
    requires { IsShort text.now }
    ensures bytes { OnOk result (out.new.items ≡ out.old.items ++ text_bytes text.now) }
    ensures fit { OnOk result (IsText text.now) }
{
    put_str(out, text.as_str())
}

fn put_str(out: &mut Vec<u8>, text: &str) -> Result<(), Memory>
    requires { IsShort text.now }
    ensures bytes { OnOk result (out.new.items ≡ out.old.items ++ text_bytes text.now) }
    ensures fit { OnOk result (IsText text.now) }
{
    put_u32(out, text.len() as u32)?;
    put_bytes(out, text.as_bytes())?;
    Ok(())
}

fn put_bytes(out: &mut Vec<u8>, bytes: &[u8]) -> Result<(), Memory>
    ensures bytes { OnOk result (out.new.items ≡ out.old.items ++ bytes.now) }
    ensures fit { (i : ℕ) → slice_index bytes.now i < 256 }
{
    out.extend_from_slice(bytes)?;
    Ok(())
}
