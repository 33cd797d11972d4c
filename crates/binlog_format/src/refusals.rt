//! Why bytes spell no object.

ghost use Rattle.std.specs.Prelude.{◌≡◌};
ghost use Rattle.binlog_format.specs.declared.refusals.FormatError.TheVariants as variants;

use row_types::Memory;
use std::alloc::{AllocError, AllocFailed};

/// What is wrong with an item.
#[derive(Clone, Copy, Debug, PartialEq, Eq)]
pub enum FormatKind {
    /// The item isn't whole; the place is the number of bytes.
    Short,
    /// The bytes do not begin with the name of the format.
    Magic,
    /// A value is outside its rule, or a row number stood before.
    Range,
    /// A value is below what the one before it allows.
    Order,
    /// The lengths of the lists do not sum to the rows.
    Sum,
    /// A text isn't UTF-8.
    Utf8,
    /// Bytes follow the last item.
    Extra,
}

/// Why no object was read.
#[derive(Clone, Copy, Debug, PartialEq, Eq)]
pub enum FormatError {
    /// The bytes spell no object; the first wrong item begins at `at`.
    Bad { at: u64, kind: FormatKind },
    /// There was no memory for the object.
    Memory,
}

impl From<AllocError> for FormatError {
    ghost from_gives = { λ _ e. e ≡ variants.Memory };

    fn from(_error: AllocError) -> FormatError {
        FormatError::Memory
    }
}

impl<T: Drop> From<AllocFailed<T>> for FormatError {
    ghost from_gives = { λ _ e. e ≡ variants.Memory };

    fn from(_error: AllocFailed<T>) -> FormatError {
        FormatError::Memory
    }
}

impl From<Memory> for FormatError {
    ghost from_gives = { λ _ e. e ≡ variants.Memory };

    fn from(_error: Memory) -> FormatError {
        FormatError::Memory
    }
}
