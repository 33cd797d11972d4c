//! Why a text is no filter.

use row_types::Memory;
use std::alloc::{AllocError, AllocFailed};

/// Why [`crate::parse`] refuses a text. `at` counts bytes from the start of the text.
#[derive(Debug, Clone, Copy, PartialEq, Eq)]
pub enum FilterError {
    /// No token begins here, or an integer that does not fit 64 bits, or a text that is not closed.
    BadToken { at: u64 },
    /// The token here can't stand here, or the text ends too early.
    Expected { at: u64 },
    /// The name here is neither `key` nor a column.
    UnknownField { at: u64 },
    /// The name here is no condition by itself, or the operator or the literal here does not fit
    /// the kind of its name.
    KindMismatch { at: u64 },
    /// The `(` or `!` here would be the 33rd that is open at once.
    TooDeep { at: u64 },
    /// There was no memory for the filter.
    Memory,
}

impl From<Memory> for FilterError {
    ghost use Rattle.std.specs.Prelude.{◌≡◌};
    ghost use Rattle.filter_expr.specs.declared.refusals.FilterError.TheVariants.{Memory as memory_error};

    ghost from_gives = { λ _ e. e ≡ memory_error };

    fn from(_error: Memory) -> FilterError {
        FilterError::Memory
    }
}

impl From<AllocError> for FilterError {
    ghost use Rattle.std.specs.Prelude.{◌≡◌};
    ghost use Rattle.filter_expr.specs.declared.refusals.FilterError.TheVariants.{Memory as memory_error};

    ghost from_gives = { λ _ e. e ≡ memory_error };

    fn from(_error: AllocError) -> FilterError {
        FilterError::Memory
    }
}

impl<T: Drop> From<AllocFailed<T>> for FilterError {
    ghost use Rattle.std.specs.Prelude.{◌≡◌};
    ghost use Rattle.filter_expr.specs.declared.refusals.FilterError.TheVariants.{Memory as memory_error};

    ghost from_gives = { λ _ e. e ≡ memory_error };

    fn from(_error: AllocFailed<T>) -> FilterError {
        FilterError::Memory
    }
}
