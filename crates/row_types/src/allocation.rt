//! Want of memory, the one free answer of every call that allocates.

use std::alloc::{AllocError, AllocFailed};

/// There was no memory for what a call had to keep.
#[derive(Debug, Clone, Copy, PartialEq, Eq)]
pub struct Memory;

impl From<AllocError> for Memory {
    fn from(_error: AllocError) -> Memory {
        Memory
    }
}

impl<T: Drop> From<AllocFailed<T>> for Memory {
    fn from(_error: AllocFailed<T>) -> Memory {
        Memory
    }
}
