//! Reading a column.

ghost use Rattle.std.specs.Prelude.{◌≡◌, true, false, IfSome, IfNone};
ghost use Rattle.std.specs.Str.{is_utf8};
ghost use Rattle.binlog_format.specs.Reading.{Gives, items};
ghost use Rattle.binlog_format.specs.Fields.{run};
ghost use Rattle.binlog_format.specs.Inserts.{int_at, ints_at, bool_at, bools_at, text_at, column_at, values_at};

use crate::fields::{bad, between, byte_of, short, take, u64_of};
use crate::objects::Column;
use crate::refusals::{FormatError, FormatKind};
use byte_fields::Reader;
use row_types::{List, Text};
use std::alloc::Global;

/// The most bytes of a text.
const TEXT: u32 = 1_024;

/// The next column, of this many rows.
#[tactic(auto, unfolding(crate::specs::Inserts::column_at, crate::specs::Inserts::values_at))]
pub(crate) fn column_of(
    alloc: Global,
    reader: &mut Reader<'_>,
    count: u32,
) -> Result<Column, FormatError>
    ensures { Gives result reader.new (column_at count reader.old) }
{
    let at = reader.place();
    match byte_of(reader)? {
        0 => Ok(Column::Ints(ints_of(alloc, reader, count)?)),
        1 => Ok(Column::Bools(bools_of(alloc, reader, count)?)),
        2 => Ok(Column::Texts(each_text(alloc, reader, count)?)),
        _ => Err(bad(at, FormatKind::Range)),
    }
}

#[tactic(auto, unfolding(crate::specs::Inserts::ints_at))]
fn ints_of(alloc: Global, reader: &mut Reader<'_>, count: u32) -> Result<List<i64>, FormatError>
    ensures { Gives result reader.new (ints_at count reader.old) }
{
    if reader.left() < 8 * count as usize {
        return Err(short(reader));
    }
    each_int(alloc, reader, count)
}

fn each_int(alloc: Global, reader: &mut Reader<'_>, count: u32) -> Result<List<i64>, FormatError>
    ensures { Gives result reader.new (run count int_at reader.old) }
{
    let mut found = Vec::with_capacity(alloc, count as usize)?;
    for _ in 0..count {
        let item = int_of(reader)?;
        found.push(item)?;
    }
    Ok(List::of(found))
}

/// A signed number of eight bytes.
#[tactic(auto, unfolding(crate::specs::Inserts::int_at))]
pub(crate) fn int_of(reader: &mut Reader<'_>) -> Result<i64, FormatError>
    ensures { Gives result reader.new (int_at reader.old) }
{
    let n = u64_of(reader)?;
    Ok(n.cast_signed())
}

#[tactic(auto, unfolding(crate::specs::Inserts::bools_at))]
fn bools_of(alloc: Global, reader: &mut Reader<'_>, count: u32) -> Result<List<bool>, FormatError>
    ensures { Gives result reader.new (bools_at count reader.old) }
{
    if reader.left() < count as usize {
        return Err(short(reader));
    }
    each_bool(alloc, reader, count)
}

fn each_bool(alloc: Global, reader: &mut Reader<'_>, count: u32) -> Result<List<bool>, FormatError>
    ensures { Gives result reader.new (run count bool_at reader.old) }
{
    let mut found = Vec::with_capacity(alloc, count as usize)?;
    for _ in 0..count {
        let item = bool_of(reader)?;
        found.push(item)?;
    }
    Ok(List::of(found))
}

#[tactic(auto, unfolding(crate::specs::Inserts::bool_at))]
fn bool_of(reader: &mut Reader<'_>) -> Result<bool, FormatError>
    ensures { Gives result reader.new (bool_at reader.old) }
{
    let at = reader.place();
    let found = byte_of(reader)?;
    if found > 1 {
        return Err(bad(at, FormatKind::Range));
    }
    Ok(found == 1)
}

fn each_text(alloc: Global, reader: &mut Reader<'_>, count: u32) -> Result<List<Text>, FormatError>
    ensures { Gives result reader.new (run count text_at reader.old) }
{
    let mut found = Vec::with_capacity(alloc, count as usize)?;
    for _ in 0..count {
        let item = text_of(alloc, reader)?;
        found.push(item)?;
    }
    Ok(List::of(found))
}

#[tactic(auto, unfolding(crate::specs::Inserts::text_at))]
fn text_of(alloc: Global, reader: &mut Reader<'_>) -> Result<Text, FormatError>
    ensures { Gives result reader.new (text_at reader.old) }
{
    let len = between(reader, 0, TEXT)?;
    let at = reader.place();
    let found = take(reader, len as usize)?;
    match utf8(found) {
        Some(text) => Ok(Text::copied(alloc, text)?),
        None => Err(bad(at, FormatKind::Utf8)),
    }
}

fn utf8(bytes: &[u8]) -> Option<&str>
    ensures some { IfSome result (λ text. (text.now ≡ bytes.now) × (is_utf8 bytes.now ≡ true)) }
    ensures none { IfNone result (is_utf8 bytes.now ≡ false) }
{
    match std::str::from_utf8(bytes) {
        Ok(text) => Some(text),
        Err(_) => None,
    }
}
