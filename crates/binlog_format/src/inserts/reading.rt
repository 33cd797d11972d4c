//! Reading an insert log.

ghost use Rattle.std.specs.Prelude.{◌≡◌, ◌≤◌, ◌++◌, ℕ, List, [], None, IfOk};
ghost use Rattle.row_types.specs.Bits.{IsDimension};
ghost use Rattle.binlog_format.specs.Reading.{Gives, Answers, IsReadAs, everything, items};
ghost use Rattle.binlog_format.specs.Fields.{run};
ghost use Rattle.binlog_format.specs.Inserts.{SpellsInserts, insert_log, dimension, position_at, after_position, positions_at, stamp_at, after_stamp, stamps_at, key_at, keys_at, vector_at, vectors_at, column_at};

use crate::fields::{bad, between, magic, segment_number, short, take, u32_of, u64_of};
use crate::inserts::columns::{column_of, int_of};
use crate::objects::{Column, InsertLog};
use crate::refusals::{FormatError, FormatKind};
use byte_fields::Reader;
use hybrid_time::Timestamp;
use row_types::{BitVector, Key, List};
use std::alloc::Global;

/// The name with which an insert log begins.
pub(crate) const NAME: [u8; 8] = *b"MANUINS1";

/// The most rows of a segment.
const ROWS: u32 = 65_536;

/// The most columns.
const COLUMNS: u32 = 16;

/// Reads an insert log that takes all of the bytes, or names the first wrong item.
pub fn read_insert(alloc: Global, bytes: &[u8]) -> Result<InsertLog, FormatError>
    // What is read is spelled so.
    ensures found { IfOk result (λ log. SpellsInserts bytes.now log) }
    // What is spelled so is read, unless memory runs out.
    ensures only { (log : InsertLog) → SpellsInserts bytes.now log → IsReadAs result log }
    // Which item is the first wrong one.
    ensures exact { Answers result (everything insert_log bytes.now) }
{
    all(alloc, bytes)
}

/// A spelling ends where it ends: no insert log is spelled by the beginning of the spelling of
/// another.
pub fn insert_spellings_are_apart()
    ensures { (a b : InsertLog) (bytes rest : List ℕ) → SpellsInserts bytes a → SpellsInserts (bytes ++ rest) b → (rest ≡ []) × (a ≡ b) }
{}

fn all(alloc: Global, bytes: &[u8]) -> Result<InsertLog, FormatError>
    ensures { Answers result (everything insert_log bytes.now) }
{
    let mut reader = Reader::new(bytes);
    let log = insert_log(alloc, &mut reader)?;
    if reader.left() > 0 {
        return Err(bad(reader.place(), FormatKind::Extra));
    }
    Ok(log)
}

#[tactic(auto, unfolding(crate::specs::Inserts::insert_log))]
fn insert_log(alloc: Global, reader: &mut Reader<'_>) -> Result<InsertLog, FormatError>
    ensures { Gives result reader.new (insert_log reader.old) }
{
    magic(reader, &NAME)?;
    let segment = segment_number(reader)?;
    let dim = dimension(reader)?;
    let n = between(reader, 1, ROWS)?;
    let width = between(reader, 0, COLUMNS)?;
    let positions = positions_of(alloc, reader, n)?;
    let stamps = stamps_of(alloc, reader, n)?;
    let keys = keys_of(alloc, reader, n)?;
    let vectors = vectors_of(alloc, reader, dim, n)?;
    let columns = each_column(alloc, reader, n, width)?;
    Ok(InsertLog {
        segment,
        dim,
        positions,
        stamps,
        keys,
        vectors,
        columns,
    })
}

fn dimension(reader: &mut Reader<'_>) -> Result<u32, FormatError>
    ensures gives { Gives result reader.new (dimension reader.old) }
    ensures is { IfOk result (λ dim. IsDimension dim) }
{
    let at = reader.place();
    let dim = u32_of(reader)?;
    if dim % 8 != 0 || dim < 8 || 4096 < dim {
        return Err(bad(at, FormatKind::Range));
    }
    Ok(dim)
}

#[tactic(auto, unfolding(crate::specs::Inserts::positions_at))]
fn positions_of(
    alloc: Global,
    reader: &mut Reader<'_>,
    count: u32,
) -> Result<List<u64>, FormatError>
    ensures { Gives result reader.new (positions_at count reader.old) }
{
    if reader.left() < 8 * count as usize {
        return Err(short(reader));
    }
    each_position(alloc, reader, count)
}

fn each_position(
    alloc: Global,
    reader: &mut Reader<'_>,
    count: u32,
) -> Result<List<u64>, FormatError>
    ensures { Gives result reader.new (items position_at after_position count None reader.old) }
{
    let mut found = Vec::with_capacity(alloc, count as usize)?;
    let mut before = None;
    for _ in 0..count {
        let item = position_of(reader, before)?;
        before = Some(item);
        found.push(item)?;
    }
    Ok(List::of(found))
}

#[tactic(auto, unfolding(crate::specs::Inserts::position_at))]
fn position_of(reader: &mut Reader<'_>, before: Option<u64>) -> Result<u64, FormatError>
    ensures { Gives result reader.new (position_at before reader.old) }
{
    let at = reader.place();
    let position = u64_of(reader)?;
    match before {
        Some(before) if position <= before => Err(bad(at, FormatKind::Order)),
        _ => Ok(position),
    }
}

#[tactic(auto, unfolding(crate::specs::Inserts::stamps_at))]
fn stamps_of(
    alloc: Global,
    reader: &mut Reader<'_>,
    count: u32,
) -> Result<List<Timestamp>, FormatError>
    ensures { Gives result reader.new (stamps_at count reader.old) }
{
    if reader.left() < 8 * count as usize {
        return Err(short(reader));
    }
    each_stamp(alloc, reader, count)
}

fn each_stamp(
    alloc: Global,
    reader: &mut Reader<'_>,
    count: u32,
) -> Result<List<Timestamp>, FormatError>
    ensures { Gives result reader.new (items stamp_at after_stamp count 0 reader.old) }
{
    let mut found = Vec::with_capacity(alloc, count as usize)?;
    let mut least = 0;
    for _ in 0..count {
        let item = stamp_of(reader, least)?;
        least = item.0;
        found.push(item)?;
    }
    Ok(List::of(found))
}

#[tactic(auto, unfolding(crate::specs::Inserts::stamp_at))]
fn stamp_of(reader: &mut Reader<'_>, least: u64) -> Result<Timestamp, FormatError>
    ensures { Gives result reader.new (stamp_at least reader.old) }
{
    let at = reader.place();
    let ts = u64_of(reader)?;
    if ts < least {
        return Err(bad(at, FormatKind::Order));
    }
    Ok(Timestamp(ts))
}

#[tactic(auto, unfolding(crate::specs::Inserts::keys_at))]
fn keys_of(alloc: Global, reader: &mut Reader<'_>, count: u32) -> Result<List<Key>, FormatError>
    ensures { Gives result reader.new (keys_at count reader.old) }
{
    if reader.left() < 8 * count as usize {
        return Err(short(reader));
    }
    each_key(alloc, reader, count)
}

fn each_key(alloc: Global, reader: &mut Reader<'_>, count: u32) -> Result<List<Key>, FormatError>
    ensures { Gives result reader.new (run count key_at reader.old) }
{
    let mut found = Vec::with_capacity(alloc, count as usize)?;
    for _ in 0..count {
        let item = key_of(reader)?;
        found.push(item)?;
    }
    Ok(List::of(found))
}

#[tactic(auto, unfolding(crate::specs::Inserts::key_at))]
fn key_of(reader: &mut Reader<'_>) -> Result<Key, FormatError>
    ensures { Gives result reader.new (key_at reader.old) }
{
    let n = int_of(reader)?;
    Ok(Key(n))
}

#[tactic(auto, unfolding(crate::specs::Inserts::vectors_at))]
fn vectors_of(
    alloc: Global,
    reader: &mut Reader<'_>,
    dim: u32,
    count: u32,
) -> Result<List<BitVector>, FormatError>
    requires dim { dim ≤ 4096 }
    requires count { count ≤ 65536 }
    ensures { Gives result reader.new (vectors_at dim count reader.old) }
{
    if reader.left() < count as usize * (dim / 8) as usize {
        return Err(short(reader));
    }
    each_vector(alloc, reader, dim, count)
}

fn each_vector(
    alloc: Global,
    reader: &mut Reader<'_>,
    dim: u32,
    count: u32,
) -> Result<List<BitVector>, FormatError>
    requires { dim ≤ 4096 }
    ensures { Gives result reader.new (run count (vector_at dim) reader.old) }
{
    let mut found = Vec::with_capacity(alloc, count as usize)?;
    for _ in 0..count {
        let item = vector_of(alloc, reader, dim)?;
        found.push(item)?;
    }
    Ok(List::of(found))
}

#[tactic(auto, unfolding(crate::specs::Inserts::vector_at))]
fn vector_of(alloc: Global, reader: &mut Reader<'_>, dim: u32) -> Result<BitVector, FormatError>
    requires { dim ≤ 4096 }
    ensures { Gives result reader.new (vector_at dim reader.old) }
{
    let found = take(reader, (dim / 8) as usize)?;
    Ok(BitVector::from_bytes(alloc, found)?)
}

fn each_column(
    alloc: Global,
    reader: &mut Reader<'_>,
    n: u32,
    count: u32,
) -> Result<List<Column>, FormatError>
    ensures { Gives result reader.new (run count (column_at n) reader.old) }
{
    let mut found = Vec::with_capacity(alloc, count as usize)?;
    for _ in 0..count {
        let item = column_of(alloc, reader, n)?;
        found.push(item)?;
    }
    Ok(List::of(found))
}
