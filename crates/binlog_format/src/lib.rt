//! The stored forms of a segment: the insert log with its rows, the delete log with the rows that
//! died, and the list file that tells which rows stand in which list.
//!
//! Each format is a grammar on bytes in `specs/` with one spelling for each value. The layer above
//! relies on this: what is written is the spelling of the value, what is read is spelled so, and of
//! bytes that spell nothing the first wrong item is named.
#![tactic(auto)]

mod deletes;
mod fields;
mod inserts;
mod lists;
mod objects;
mod puts;
mod refusals;

pub use crate::deletes::{delete_spellings_are_apart, read_delete, write_delete};
pub use crate::inserts::{insert_spellings_are_apart, read_insert, write_insert};
pub use crate::lists::{list_spellings_are_apart, read_lists, write_lists};
pub use crate::objects::{Column, DeleteLog, InsertLog, ListFile};
pub use crate::refusals::{FormatError, FormatKind};

#[cfg(test)]
mod tests;
