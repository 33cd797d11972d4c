//! Why a run ended before its end line was written.

/// Why a run ended before its end line was written.
#[derive(Debug, Clone, Copy, PartialEq, Eq)]
pub enum Stop {
    /// Line 1 has ended and makes no collection.
    BadHeader,
    /// The source failed.
    ReadFault,
    /// The sink failed.
    WriteFault,
    /// The input passes a limit.
    Limit,
    /// There was no memory.
    Memory,
}
