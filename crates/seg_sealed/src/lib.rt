//! Sealed segments, the marks of their dead rows, and parts, which are a segment with its marks.
//!
//! A [`Sealed`] is seen as its list of rows at their positions, stored by column with the vectors'
//! words in one column for scans; [`Marks`] are seen as the deaths of rows by
//! rising row numbers, up to a position of the journal. The layers above rely on this: a segment is
//! read back row by row as it was given, and marks are what was marked.
#![tactic(auto)]

mod columns;
mod copies;
mod frozen;
mod latest;
mod marks;
mod parts;
mod rows;
mod runs;
mod sealed;
#[cfg(test)]
mod tests;

pub use crate::marks::{Deaths, Marks};
pub use crate::parts::Part;
pub use crate::runs::Run;
pub use crate::sealed::Sealed;
