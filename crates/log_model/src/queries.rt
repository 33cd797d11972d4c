//! What a search asks, and how a collection is searched.

ghost use Rattle.std.specs.Prelude.{◌≡◌};
ghost use Rattle.log_model.specs.Scans.{passes_filter};

use row_types::{BitVector, Filter, Metric, Row, holds};

/// The `k` rows that are nearest to a vector, of those that pass a filter.
#[derive(Debug, Drop)]
pub struct Query {
    pub vector: BitVector,
    pub k: u32,
    /// What a row has to pass; without it every row does.
    pub filter: Option<Filter>,
}

impl Query {
    /// Whether a row passes the filter; takes no memory.
    pub fn passes(&self, row: &Row) -> bool
        ensures { result ≡ passes_filter self.now.filter row.now }
    {
        match &self.filter {
            Some(filter) => holds(filter, row),
            None => true,
        }
    }
}

/// How a collection is searched.
#[derive(Debug, Clone, Copy, PartialEq, Eq)]
pub struct Plan {
    pub metric: Metric,
}
