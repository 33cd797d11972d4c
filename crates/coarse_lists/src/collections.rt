//! Collections.

use row_types::{Metric, Schema};

/// How the rows of a sealed segment are found.
#[derive(Debug, Clone, Copy, PartialEq, Eq)]
pub enum Index {
    /// Every row is looked at.
    Flat,
}

/// What the header line says of a collection.
#[derive(Debug, Drop)]
pub struct Collection {
    /// The bits of each vector: a multiple of 8 from 8 to 4,096.
    pub dim: u32,
    pub metric: Metric,
    /// The channels over which the keys are spread: 1 to 16.
    pub channels: u32,
    /// The nodes that hold sealed segments: 1 to 16.
    pub nodes: u32,
    /// The rows at which a channel's tail becomes a segment: 2 to 65,536.
    pub seal_rows: u32,
    pub index: Index,
    pub schema: Schema,
}
