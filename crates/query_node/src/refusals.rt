//! Why a part was not fetched.

ghost use Rattle.std.specs.Prelude.{◌≡◌};
ghost use Rattle.query_node.specs.declared.refusals.FetchError.TheVariants as variants;

use row_types::Memory;

/// Why a part was not fetched. Objects go by their names.
#[derive(Clone, Copy, Debug, PartialEq, Eq)]
pub enum FetchError {
    /// The keeper failed to get the object.
    KeepFault {
        object: u64,
    },
    /// Nothing is kept under the name.
    Lost {
        object: u64,
    },
    /// Other bytes were got than those that spell the object. They differ first at `at`, where `want`
    /// was to stand and `got` stands; `None` is past an end.
    Damaged {
        object: u64,
        at: u64,
        want: Option<u8>,
        got: Option<u8>,
    },
    /// There was no memory for an object or for the part.
    Memory,
}

impl From<Memory> for FetchError {
    ghost from_gives = { λ _ e. e ≡ variants.Memory };

    fn from(_error: Memory) -> FetchError {
        FetchError::Memory
    }
}
