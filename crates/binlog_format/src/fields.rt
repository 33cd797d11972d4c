//! The items that several formats share.

ghost use Rattle.std.specs.Prelude.{◌≡◌, ◌≤◌, length};
ghost use Rattle.std.specs.Int.{w32, w64};
ghost use Rattle.byte_fields.specs.Unread.{end_of};
ghost use Rattle.binlog_format.specs.Reading.{Gives, GivesAs, number, bytes, between};
ghost use Rattle.binlog_format.specs.Fields.{magic, segment_number, byte};

use crate::refusals::{FormatError, FormatKind};
use byte_fields::Reader;

/// Segments have numbers below this one.
const SEGMENTS: u64 = 1 << 60;

/// A refusal of an item that begins at `at`.
pub(crate) fn bad(at: usize, kind: FormatKind) -> FormatError
    ensures { result ≡ FormatError.Bad at kind }
{
    FormatError::Bad {
        at: at as u64,
        kind,
    }
}

/// A refusal of an item that isn't whole.
pub(crate) fn short(reader: &Reader<'_>) -> FormatError
    ensures { result ≡ FormatError.Bad (end_of reader.now) FormatKind.Short }
{
    bad(reader.end(), FormatKind::Short)
}

/// The next `n` bytes.
pub(crate) fn take<'a>(reader: &mut Reader<'a>, n: usize) -> Result<&'a [u8], FormatError>
    ensures { GivesAs (λ found. found.now) result reader.new (bytes n reader.old) }
{
    match reader.bytes(n) {
        Some(found) => Ok(found),
        None => Err(short(reader)),
    }
}

/// A number of four bytes.
pub(crate) fn u32_of(reader: &mut Reader<'_>) -> Result<u32, FormatError>
    ensures { Gives result reader.new (number w32 reader.old) }
{
    match reader.u32() {
        Some(n) => Ok(n),
        None => Err(short(reader)),
    }
}

/// A number of eight bytes.
pub(crate) fn u64_of(reader: &mut Reader<'_>) -> Result<u64, FormatError>
    ensures { Gives result reader.new (number w64 reader.old) }
{
    match reader.u64() {
        Some(n) => Ok(n),
        None => Err(short(reader)),
    }
}

/// A number of four bytes within these bounds.
pub(crate) fn between(reader: &mut Reader<'_>, least: u32, most: u32) -> Result<u32, FormatError>
    ensures { Gives result reader.new (between least most reader.old) }
{
    let at = reader.place();
    let n = u32_of(reader)?;
    if n < least || most < n {
        return Err(bad(at, FormatKind::Range));
    }
    Ok(n)
}

/// The name with which each object of a format begins.
pub(crate) fn magic(reader: &mut Reader<'_>, name: &[u8]) -> Result<(), FormatError>
    ensures { GivesAs (λ _. name.now) result reader.new (magic name.now reader.old) }
{
    let at = reader.place();
    let found = take(reader, 8)?;
    if found != name {
        return Err(bad(at, FormatKind::Magic));
    }
    Ok(())
}

/// The number of a segment.
pub(crate) fn segment_number(reader: &mut Reader<'_>) -> Result<u64, FormatError>
    ensures { Gives result reader.new (segment_number reader.old) }
{
    let at = reader.place();
    let n = u64_of(reader)?;
    if n >= SEGMENTS {
        return Err(bad(at, FormatKind::Range));
    }
    Ok(n)
}

/// One byte.
pub(crate) fn byte_of(reader: &mut Reader<'_>) -> Result<u8, FormatError>
    ensures { Gives result reader.new (byte reader.old) }
{
    let found = take(reader, 1)?;
    Ok(found[0])
}
