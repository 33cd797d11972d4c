//! Why a part was not stored.

ghost use Rattle.std.specs.Prelude.{◌≡◌};
ghost use Rattle.data_index_node.specs.declared.refusals.FlushError.TheVariants as variants;

use row_types::Memory;

/// Why a part was not stored.
#[derive(Clone, Copy, Debug, PartialEq, Eq)]
pub enum FlushError {
    /// The keeper failed to put the object of this name.
    KeepFault { object: u64 },
    /// There was no memory for an object.
    Memory,
}

impl From<Memory> for FlushError {
    ghost from_gives = { λ _ e. e ≡ variants.Memory };

    fn from(_error: Memory) -> FlushError {
        FlushError::Memory
    }
}
