//! The live rows and the hits of a search, computed plainly from the log alone: a reference for tests.

ghost use Rattle.std.specs.Prelude.{◌≡◌, length, IfOk};
ghost use Rattle.std.specs.List.{AllByRecursion};
ghost use Rattle.std.specs.FinMap as fin;
ghost use Rattle.log_model.specs.Logs.{live};
ghost use Rattle.log_model.specs.Scans.{passes_filter, hits_found, scan, HasDimension};

use crate::changes::apply;
use crate::distances::distance;
use crate::logs::Entry;
use crate::queries::{Plan, Query};
use hybrid_time::Timestamp;
use row_types::{Hit, Memory, Row};
use std::alloc::Global;
use std::collections::BTreeMap;

/// The rows that are live at a timestamp, by rising key.
pub fn live_at(alloc: Global, log: &[Entry], ts: Timestamp) -> Result<Vec<Row>, Memory>
    ensures { IfOk result (λ rows. rows.items ≡ fin.values (live log.now ts.0)) }
{
    let mut rows = BTreeMap::new(alloc);
    'entries: for entry in log {
        if entry.ts.0 <= ts.0 {
            apply(alloc, &mut rows, &entry.write)?;
        }
    }
    Ok(rows.into_values().collect(alloc)?)
}

/// The hits of a search at a timestamp: of the rows that are live there and pass the query's filter,
/// the `k` nearest to its vector, in rising order.
pub fn scan_at(
    alloc: Global,
    log: &[Entry],
    ts: Timestamp,
    plan: &Plan,
    query: &Query,
) -> Result<Vec<Hit>, Memory>
    requires { HasDimension (length query.now.vector) log.now }
    ensures { IfOk result (λ hits. hits.items ≡ scan log.now ts.0 plan.now query.now) }
{
    let rows = live_at(alloc, log, ts)?;
    let mut hits = measure(alloc, rows.as_slice(), plan, query)?;
    hits.sort()?;
    hits.dedup();
    hits.truncate(query.k as usize);
    Ok(hits)
}

/// Each row that passes the query's filter as a hit.
fn measure(alloc: Global, rows: &[Row], plan: &Plan, query: &Query) -> Result<Vec<Hit>, Memory>
    requires { AllByRecursion (λ row. length row.vector ≡ length query.now.vector) rows.now }
    ensures { IfOk result (λ hits. hits.items ≡ hits_found (passes_filter query.now.filter) plan.now query.now rows.now) }
{
    let mut hits = Vec::new(alloc);
    'rows: for row in rows {
        if query.passes(row) {
            hits.push(Hit {
                distance: distance(plan.metric, &query.vector, &row.vector),
                key: row.key,
            })?;
        }
    }
    Ok(hits)
}
