//! What a collection is: its dimension, its metric, its columns, how it is spread, and the index of
//! its segments.
//!
//! The layers above take a collection as given by the header line, and rely on its numbers being in
//! their ranges and on its columns having names that are allowed and differ.
#![tactic(auto)]

mod collections;
mod schemas;

pub use crate::collections::{Collection, Index};
pub use crate::schemas::{is_column_name, is_schema};
