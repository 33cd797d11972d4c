//! Why a line is not read.

use answer_lines::Reason;
use row_types::Memory;

/// Why line 1 makes no collection.
#[derive(Debug, Clone, Copy, PartialEq, Eq)]
pub enum HeaderError {
    /// The line is no `create` line.
    NotCreate,
    /// There was no memory to read it.
    Memory,
}

impl From<Memory> for HeaderError {
    ghost use Rattle.std.specs.Prelude.{◌≡◌};
    ghost use Rattle.request_lines.specs.declared.refusals.HeaderError.TheVariants.{Memory as memory_error};

    ghost from_gives = { λ _ e. e ≡ memory_error };

    fn from(_error: Memory) -> HeaderError {
        HeaderError::Memory
    }
}

/// Why a line is no request.
#[derive(Debug, Clone, Copy, PartialEq, Eq)]
pub enum LineError {
    /// The first reason that holds of the line.
    Refused(Reason),
    /// There was no memory to read it.
    Memory,
}

impl From<Memory> for LineError {
    ghost use Rattle.std.specs.Prelude.{◌≡◌};
    ghost use Rattle.request_lines.specs.declared.refusals.LineError.TheVariants.{Memory as memory_error};

    ghost from_gives = { λ _ e. e ≡ memory_error };

    fn from(_error: Memory) -> LineError {
        LineError::Memory
    }
}

impl From<Reason> for LineError {
    ghost use Rattle.std.specs.Prelude.{◌≡◌};
    ghost use Rattle.request_lines.specs.declared.refusals.LineError.TheVariants.{Refused};

    ghost from_gives = { λ reason e. e ≡ Refused reason };

    fn from(reason: Reason) -> LineError {
        LineError::Refused(reason)
    }
}
