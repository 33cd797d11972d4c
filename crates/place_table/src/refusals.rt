//! Why a place is refused.

use row_types::Memory;

/// Why a place is neither added nor taken away.
#[derive(Debug, Clone, Copy, PartialEq, Eq)]
pub enum PlaceError {
    /// The segment is not known.
    Gone { segment: u64 },
    /// The segment is on this node already.
    Already { segment: u64, node: u32 },
    /// The segment is not on this node.
    NotThere { segment: u64, node: u32 },
    /// The segment has no other place.
    LastPlace { segment: u64 },
    /// There was no memory for the place.
    Memory,
}

impl From<Memory> for PlaceError {
    ghost use Rattle.std.specs.Prelude.{◌≡◌};
    ghost use Rattle.place_table.specs.declared.refusals.PlaceError.TheVariants.{Memory as memory_error};

    ghost from_gives = { λ _ e. e ≡ memory_error };

    fn from(_error: Memory) -> PlaceError {
        PlaceError::Memory
    }
}
