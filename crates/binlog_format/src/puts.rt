//! Numbers as bytes, the lowest byte first.

ghost use Rattle.std.specs.Prelude.{◌≡◌, ◌<◌, ◌^◌, ◌++◌, OnOk, FitsSigned};
ghost use Rattle.std.specs.Int.{w32, w64, to_le_bytes, cast_unsigned};

use row_types::Memory;

/// Appends a number as four bytes.
pub(crate) fn put_u32(out: &mut Vec<u8>, n: u32) -> Result<(), Memory>
    ensures bytes { OnOk result (out.new.items ≡ out.old.items ++ to_le_bytes w32 n) }
    ensures fits { n < 2 ^ 32 }
{
    out.extend_from_slice(&n.to_le_bytes())?;
    Ok(())
}

/// Appends a number as eight bytes.
pub(crate) fn put_u64(out: &mut Vec<u8>, n: u64) -> Result<(), Memory>
    ensures bytes { OnOk result (out.new.items ≡ out.old.items ++ to_le_bytes w64 n) }
    ensures fits { n < 2 ^ 64 }
{
    out.extend_from_slice(&n.to_le_bytes())?;
    Ok(())
}

/// Appends a signed number as eight bytes, in two's complement.
pub(crate) fn put_i64(out: &mut Vec<u8>, n: i64) -> Result<(), Memory>
    ensures bytes { OnOk result (out.new.items ≡ out.old.items ++ to_le_bytes w64 (cast_unsigned w64 n)) }
    ensures fits { FitsSigned w64 n }
{
    out.extend_from_slice(&n.to_le_bytes())?;
    Ok(())
}
