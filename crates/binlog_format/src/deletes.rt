//! The delete log as bytes.

ghost use Rattle.std.specs.Prelude.{◌≡◌, ◌<◌, ◌^◌, ◌++◌, ℕ, List, [], IfOk, OnOk};
ghost use Rattle.std.specs.List.{AllByRecursion, flat_map};
ghost use Rattle.binlog_format.specs.Reading.{Gives, Answers, IsReadAs, everything, items};
ghost use Rattle.binlog_format.specs.Deletes.{SpellsDeletes, IsDeleteLog, mark_bytes, delete_log, after_mark, mark_at, marks_at};

use crate::fields::{bad, between, magic, segment_number, short, u32_of, u64_of};
use crate::objects::DeleteLog;
use crate::puts::{put_u32, put_u64};
use crate::refusals::{FormatError, FormatKind};
use byte_fields::Reader;
use hybrid_time::Timestamp;
use row_types::{List, Memory};
use std::alloc::Global;

/// The name with which a delete log begins.
const NAME: [u8; 8] = *b"MANUDEL1";

/// The rows that a segment can have.
const ROWS: u32 = 65_536;

/// Reads a delete log that takes all of the bytes, or names the first wrong item.
pub fn read_delete(alloc: Global, bytes: &[u8]) -> Result<DeleteLog, FormatError>
    // What is read is spelled so.
    ensures found { IfOk result (λ log. SpellsDeletes bytes.now log) }
    // What is spelled so is read, unless memory runs out.
    ensures only { (log : DeleteLog) → SpellsDeletes bytes.now log → IsReadAs result log }
    // Which item is the first wrong one.
    ensures exact { Answers result (everything delete_log bytes.now) }
{
    all(alloc, bytes)
}

/// A spelling ends where it ends: no delete log is spelled by the beginning of the spelling of
/// another.
pub fn delete_spellings_are_apart()
    ensures { (a b : DeleteLog) (bytes rest : List ℕ) → SpellsDeletes bytes a → SpellsDeletes (bytes ++ rest) b → (rest ≡ []) × (a ≡ b) }
{}

/// Writes a delete log that keeps the rules of the format.
pub fn write_delete(alloc: Global, log: &DeleteLog) -> Result<Vec<u8>, Memory>
    requires { IsDeleteLog log.now }
    ensures { IfOk result (λ bytes. SpellsDeletes bytes.items log.now) }
{
    let marks = log.marks.as_slice();
    let mut out = Vec::with_capacity(alloc, 28 + 12 * marks.len())?;
    out.extend_from_slice(&NAME)?;
    put_u64(&mut out, log.segment)?;
    put_u64(&mut out, log.applied)?;
    put_u32(&mut out, marks.len() as u32)?;
    put_marks(&mut out, marks)?;
    Ok(out)
}

fn put_marks(out: &mut Vec<u8>, marks: &[(u32, Timestamp)]) -> Result<(), Memory>
    ensures bytes { OnOk result (out.new.items ≡ out.old.items ++ flat_map mark_bytes marks.now) }
    ensures fit { OnOk result (AllByRecursion (λ mark. mark.1.0 < 2 ^ 64) marks.now) }
{
    for mark in marks {
        put_mark(out, mark)?;
    }
    Ok(())
}

fn put_mark(out: &mut Vec<u8>, mark: &(u32, Timestamp)) -> Result<(), Memory>
    ensures bytes { OnOk result (out.new.items ≡ out.old.items ++ mark_bytes mark.now) }
    ensures fit { OnOk result (mark.now.1.0 < 2 ^ 64) }
{
    put_u32(out, mark.0)?;
    put_u64(out, mark.1.0)?;
    Ok(())
}

fn all(alloc: Global, bytes: &[u8]) -> Result<DeleteLog, FormatError>
    ensures { Answers result (everything delete_log bytes.now) }
{
    let mut reader = Reader::new(bytes);
    let log = delete_log(alloc, &mut reader)?;
    if reader.left() > 0 {
        return Err(bad(reader.place(), FormatKind::Extra));
    }
    Ok(log)
}

#[tactic(auto, unfolding(crate::specs::Deletes::delete_log))]
fn delete_log(alloc: Global, reader: &mut Reader<'_>) -> Result<DeleteLog, FormatError>
    ensures { Gives result reader.new (delete_log reader.old) }
{
    magic(reader, &NAME)?;
    let segment = segment_number(reader)?;
    let applied = u64_of(reader)?;
    let count = between(reader, 0, ROWS)?;
    let marks = marks_of(alloc, reader, count)?;
    Ok(DeleteLog {
        segment,
        applied,
        marks,
    })
}

#[tactic(auto, unfolding(crate::specs::Deletes::marks_at))]
fn marks_of(
    alloc: Global,
    reader: &mut Reader<'_>,
    count: u32,
) -> Result<List<(u32, Timestamp)>, FormatError>
    ensures { Gives result reader.new (marks_at count reader.old) }
{
    if reader.left() < 12 * count as usize {
        return Err(short(reader));
    }
    each_mark(alloc, reader, count)
}

fn each_mark(
    alloc: Global,
    reader: &mut Reader<'_>,
    count: u32,
) -> Result<List<(u32, Timestamp)>, FormatError>
    ensures { Gives result reader.new (items mark_at after_mark count 0 reader.old) }
{
    let mut marks = Vec::with_capacity(alloc, count as usize)?;
    let mut least = 0;
    for _ in 0..count {
        let mark = mark_of(reader, least)?;
        least = mark.0 + 1;
        marks.push(mark)?;
    }
    Ok(List::of(marks))
}

#[tactic(auto, unfolding(crate::specs::Deletes::mark_at))]
fn mark_of(reader: &mut Reader<'_>, least: u32) -> Result<(u32, Timestamp), FormatError>
    ensures gives { Gives result reader.new (mark_at least reader.old) }
    ensures below { IfOk result (λ mark. mark.0 < 65536) }
{
    let at = reader.place();
    let row = u32_of(reader)?;
    if row >= ROWS {
        return Err(bad(at, FormatKind::Range));
    }
    if row < least {
        return Err(bad(at, FormatKind::Order));
    }
    let ts = u64_of(reader)?;
    Ok((row, Timestamp(ts)))
}
