//! The objects that a part is stored as: an insert log, a delete log and, where the segment has
//! lists, a list file, each under a name of its segment and kind.
//!
//! The layers above rely on this: each object has the bytes that spell the part's rows, deaths or
//! lists, so whoever stores and whoever fetches speak of the same bytes.
#![tactic(auto)]

mod names;
mod objects;

pub use crate::names::{ObjectKind, name_of};
pub use crate::objects::{Object, delete_object, insert_object, list_object};
