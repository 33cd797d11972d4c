//! Why a text spells no vector.

/// Why [`crate::BitVector::from_hex`] refuses a text.
#[derive(Debug, Clone, Copy, PartialEq, Eq)]
pub enum VectorError {
    /// The text has this many bytes, and not one for each four bits.
    WrongLength { digits: u64 },
    /// The byte at this place, the first such, is no hexadecimal digit of either case.
    NotHex { at: u64 },
    /// There was no memory for the vector.
    Memory,
}
