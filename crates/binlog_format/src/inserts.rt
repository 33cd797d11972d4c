//! The insert log as bytes.

mod columns;
mod reading;
mod writing;

pub use crate::inserts::reading::{insert_spellings_are_apart, read_insert};
pub use crate::inserts::writing::write_insert;
