//! What a log of writes means: the rows that are live at a timestamp, whether a write finds its key, and
//! the hits of a search. The layers above promise their answers in these words. `live_at` and `scan_at`
//! compute them plainly, from the log alone, for tests to compare with.
#![tactic(auto)]

mod changes;
mod distances;
mod laws;
mod logs;
mod queries;
mod shared_rows;
mod slow;
mod tail_rows;

pub use crate::changes::apply;
pub use crate::laws::{order, stability};
pub use crate::logs::{Entry, Write};
pub use crate::queries::{Plan, Query};
pub use crate::shared_rows::SharedRow;
pub use crate::slow::{live_at, scan_at};
pub use crate::tail_rows::{TailRow, TailRows};

#[cfg(test)]
mod tests;
