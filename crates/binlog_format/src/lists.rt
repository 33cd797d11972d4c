//! The list file as bytes.

ghost use Rattle.std.specs.Prelude.{◌≡◌, ◌+◌, ◌<◌, ◌≤◌, ◌^◌, ◌++◌, ℕ, List, [], length, sum, IfOk, IfErr, OnOk};
ghost use Rattle.std.specs.Int.{w32, to_le_bytes};
ghost use Rattle.std.specs.List.{AllByRecursion, concat, flat_map};
ghost use Rattle.binlog_format.specs.Reading.{Gives, GivesAs, Answers, IsReadAs, everything, items};
ghost use Rattle.binlog_format.specs.Lists.{SpellsLists, IsListFile, list_bytes, length_at, left_after, lengths_at, row_at, after_row, list_at, after_list, lists_at, list_file, IsSeen, IsShortList, length_bytes, marked_row, is_free};

use crate::fields::{bad, between, magic, segment_number, short, u32_of};
use crate::objects::ListFile;
use crate::puts::{put_u32, put_u64};
use crate::refusals::{FormatError, FormatKind};
use byte_fields::Reader;
use row_types::{List, Memory};
use std::alloc::Global;

/// The name with which a list file begins.
const NAME: [u8; 8] = *b"MANULST1";

/// The most lists.
const LISTS: u32 = 1_024;

/// The most rows of a segment.
const ROWS: u32 = 65_536;

/// Reads a list file that takes all of the bytes, or names the first wrong item.
pub fn read_lists(alloc: Global, bytes: &[u8]) -> Result<ListFile, FormatError>
    // What is read is spelled so.
    ensures found { IfOk result (λ file. SpellsLists bytes.now file) }
    // What is spelled so is read, unless memory runs out.
    ensures only { (file : ListFile) → SpellsLists bytes.now file → IsReadAs result file }
    // Which item is the first wrong one.
    ensures exact { Answers result (everything list_file bytes.now) }
{
    all(alloc, bytes)
}

/// A spelling ends where it ends: no list file is spelled by the beginning of the spelling of
/// another.
pub fn list_spellings_are_apart()
    ensures { (a b : ListFile) (bytes rest : List ℕ) → SpellsLists bytes a → SpellsLists (bytes ++ rest) b → (rest ≡ []) × (a ≡ b) }
{}

/// Writes a list file that keeps the rules of the format.
pub fn write_lists(alloc: Global, file: &ListFile) -> Result<Vec<u8>, Memory>
    requires { IsListFile file.now }
    ensures { IfOk result (λ bytes. SpellsLists bytes.items file.now) }
{
    let lists = file.lists.as_slice();
    let rows = rows_in(lists);
    let mut out = Vec::with_capacity(alloc, 28 + 4 * (lists.len() + rows))?;
    out.extend_from_slice(&NAME)?;
    put_u64(&mut out, file.segment)?;
    put_u32(&mut out, file.version)?;
    put_u32(&mut out, lists.len() as u32)?;
    put_u32(&mut out, rows as u32)?;
    put_lengths(&mut out, lists)?;
    put_lists(&mut out, lists)?;
    Ok(out)
}

// How many row numbers stand in the lists.
fn rows_in(lists: &[List<u32>]) -> usize
    requires { length (concat lists.now) ≤ 65536 }
    ensures { result ≡ length (concat lists.now) }
{
    let mut rows = 0;
    for item in lists {
        rows += item.as_slice().len();
    }
    rows
}

fn put_lengths(out: &mut Vec<u8>, lists: &[List<u32>]) -> Result<(), Memory>
    requires { AllByRecursion IsShortList lists.now }
    ensures { OnOk result (out.new.items ≡ out.old.items ++ flat_map length_bytes lists.now) }
{
    for item in lists {
        put_length(out, item)?;
    }
    Ok(())
}

fn put_length(out: &mut Vec<u8>, list: &List<u32>) -> Result<(), Memory>
    requires { IsShortList list.now }
    ensures { OnOk result (out.new.items ≡ out.old.items ++ length_bytes list.now) }
{
    put_u32(out, list.as_slice().len() as u32)?;
    Ok(())
}

fn put_lists(out: &mut Vec<u8>, lists: &[List<u32>]) -> Result<(), Memory>
    ensures { OnOk result (out.new.items ≡ out.old.items ++ flat_map list_bytes lists.now) }
{
    for item in lists {
        put_list(out, item)?;
    }
    Ok(())
}

fn put_list(out: &mut Vec<u8>, list: &List<u32>) -> Result<(), Memory>
    ensures { OnOk result (out.new.items ≡ out.old.items ++ list_bytes list.now) }
{
    put_rows(out, list.as_slice())
}

fn put_rows(out: &mut Vec<u8>, rows: &[u32]) -> Result<(), Memory>
    ensures { OnOk result (out.new.items ≡ out.old.items ++ list_bytes rows.now) }
{
    for item in rows {
        put_u32(out, *item)?;
    }
    Ok(())
}

fn all(alloc: Global, bytes: &[u8]) -> Result<ListFile, FormatError>
    ensures { Answers result (everything list_file bytes.now) }
{
    let mut reader = Reader::new(bytes);
    let file = list_file(alloc, &mut reader)?;
    if reader.left() > 0 {
        return Err(bad(reader.place(), FormatKind::Extra));
    }
    Ok(file)
}

#[tactic(auto, unfolding(crate::specs::Lists::list_file))]
fn list_file(alloc: Global, reader: &mut Reader<'_>) -> Result<ListFile, FormatError>
    ensures { Gives result reader.new (list_file reader.old) }
{
    magic(reader, &NAME)?;
    let segment = segment_number(reader)?;
    let version = u32_of(reader)?;
    let count = between(reader, 1, LISTS)?;
    let rows = between(reader, 1, ROWS)?;
    let lengths = lengths_of(alloc, reader, count, rows)?;
    let lists = lists_of(alloc, reader, rows, &lengths)?;
    Ok(ListFile {
        segment,
        version,
        lists,
    })
}

#[tactic(auto, unfolding(crate::specs::Lists::lengths_at))]
fn lengths_of(
    alloc: Global,
    reader: &mut Reader<'_>,
    count: u32,
    rows: u32,
) -> Result<Vec<u32>, FormatError>
    ensures { GivesAs (λ lengths. lengths.items) result reader.new (lengths_at count rows reader.old) }
{
    if reader.left() < 4 * count as usize {
        return Err(short(reader));
    }
    let (lengths, left) = each_length(alloc, reader, count, rows)?;
    if left > 0 {
        return Err(bad(reader.place(), FormatKind::Sum));
    }
    Ok(lengths)
}

// The lengths, and how many rows are left behind them.
fn each_length(
    alloc: Global,
    reader: &mut Reader<'_>,
    count: u32,
    rows: u32,
) -> Result<(Vec<u32>, u32), FormatError>
    ensures gives { GivesAs (λ x. x.0.items) result reader.new (items length_at left_after count rows reader.old) }
    ensures left { IfOk result (λ x. sum x.0.items + x.1 ≡ rows) }
{
    let mut found = Vec::with_capacity(alloc, count as usize)?;
    let mut left = rows;
    for _ in 0..count {
        let item = length_of(reader, left)?;
        left -= item;
        found.push(item)?;
    }
    Ok((found, left))
}

fn length_of(reader: &mut Reader<'_>, left: u32) -> Result<u32, FormatError>
    ensures gives { Gives result reader.new (length_at left reader.old) }
    ensures below { IfOk result (λ n. n ≤ left) }
{
    let at = reader.place();
    let n = u32_of(reader)?;
    if n > left {
        return Err(bad(at, FormatKind::Sum));
    }
    Ok(n)
}

#[tactic(auto, unfolding(crate::specs::Lists::lists_at))]
fn lists_of(
    alloc: Global,
    reader: &mut Reader<'_>,
    rows: u32,
    lengths: &[u32],
) -> Result<List<List<u32>>, FormatError>
    requires { rows ≤ 65536 }
    ensures { Gives result reader.new (lists_at rows lengths.now reader.old) }
{
    if reader.left() < 4 * rows as usize {
        return Err(short(reader));
    }
    let mut seen = unseen(alloc, rows)?;
    each_list(alloc, reader, lengths, &mut seen)
}

// A mark for each row, of which none is set.
fn unseen(alloc: Global, rows: u32) -> Result<Vec<bool>, FormatError>
    ensures marks { IfOk result (λ seen. IsSeen rows [] seen.items) }
    ensures memory { IfErr result (λ e. e ≡ FormatError.Memory) }
{
    Ok(vec![in alloc; false; rows as usize]?)
}

fn each_list(
    alloc: Global,
    reader: &mut Reader<'_>,
    lengths: &[u32],
    seen: &mut [bool],
) -> Result<List<List<u32>>, FormatError>
    requires few { length seen.old ≤ 65536 }
    requires none_seen { IsSeen (length seen.old) [] seen.old }
    ensures { Gives result reader.new (items (list_at (length seen.old)) after_list (length lengths.now) (record { before = []; lengths = lengths.now }) reader.old) }
{
    let mut found = Vec::with_capacity(alloc, lengths.len())?;
    for count in lengths {
        let item = each_row(alloc, reader, *count, seen)?;
        found.push(item)?;
    }
    Ok(List::of(found))
}

// The row numbers of a list, which are marked.
fn each_row(
    alloc: Global,
    reader: &mut Reader<'_>,
    count: u32,
    seen: &mut [bool],
) -> Result<List<u32>, FormatError>
    requires { length seen.old ≤ 65536 }
    ensures gives { (before : List ℕ) → IsSeen (length seen.old) before seen.old → Gives result reader.new (items (row_at (length seen.old)) after_row count (record { before = before; least = 0 }) reader.old) }
    ensures seen { (before : List ℕ) → IsSeen (length seen.old) before seen.old → IfOk result (λ list. IsSeen (length seen.old) (before ++ list) seen.new) }
{
    let mut found = Vec::with_capacity(alloc, count as usize)?;
    let mut least = 0;
    for _ in 0..count {
        let item = row_of(reader, seen, least)?;
        seen[item as usize] = true;
        least = item + 1;
        found.push(item)?;
    }
    Ok(List::of(found))
}

fn row_of(reader: &mut Reader<'_>, seen: &[bool], least: u32) -> Result<u32, FormatError>
    ensures gives { Gives result reader.new (marked_row seen.now least reader.old) }
    ensures below { IfOk result (λ row. row < length seen.now) }
{
    let at = reader.place();
    let row = u32_of(reader)?;
    if !is_free(seen, row as usize) {
        return Err(bad(at, FormatKind::Range));
    }
    if row < least {
        return Err(bad(at, FormatKind::Order));
    }
    Ok(row)
}

// Whether there is such a row, and it is not marked.
fn is_free(seen: &[bool], row: usize) -> bool
    ensures { result ≡ is_free seen.now row }
{
    row < seen.len() && !seen[row]
}
