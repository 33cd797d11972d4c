//! The nearest rows of several views.

ghost use Rattle.std.specs.Prelude.{◌≡◌, ℕ, ℤ, ◌+◌, ◌≤◌, List, length, map, IfOk, OnOk, OnErr};
ghost use Rattle.std.specs.List.{AllByRecursion};
ghost use Rattle.log_model.specs.Scans.{scan};
ghost use Rattle.view_laws.specs.Found.{hits_seen};
ghost use Rattle.view_laws.specs.Wholes.{AreOfChannels, Looked, ServesAt, log_at_end, whole};
ghost use Rattle.channel_view.specs.Views.{view_in};
ghost use Rattle.top_list.specs.Kept.{Offered};
ghost use Rattle.channel_search.specs.Found.{found_in_all, rows_in_all, AreOfDim};

use bit_distance::Steps;
use channel_view::View;
use hybrid_time::Timestamp;
use log_model::{Plan, Query};
use row_types::Memory;
use std::alloc::Global;
use std::sync::ledger::Ledger;
use top_list::{Gather, TopList};
use view_scan::offer_all;

/// The `k` nearest of the rows that some view shows at a timestamp and that pass the query's filter, in
/// order, each once; one step a row. The query's vector has the dimension of the views' collection. Want
/// of memory is the only error.
pub fn search<L: Ledger>(
    alloc: Global,
    views: &[View],
    ts: Timestamp,
    plan: &Plan,
    query: &Query,
    steps: &mut Steps<L>,
) -> Result<TopList, Memory>
    requires fits { AreOfDim (length query.now.vector) views.now }
    requires some { 1 ≤ query.now.k }
    requires bound { query.now.k ≤ 16384 }
    ensures found { IfOk result (λ list. list ≡ record { k = query.now.k; hits = found_in_all views.now ts.0 plan.now query.now }) }
    ensures whole { IfOk result (λ list. (home : ℤ → ℕ) (looks : List Looked) → map (λ l. l.view) looks ≡ map view_in views.now
        → AllByRecursion (ServesAt ts.0) looks → AreOfChannels home (map log_at_end looks)
        → list.hits ≡ scan (whole (map log_at_end looks)) ts.0 plan.now query.now) }
    ensures steps { OnOk result (steps.new ≡ steps.old + length (rows_in_all views.now)) }
    ensures err { OnErr result (steps.new ≡ steps.old) }
{
    let mut gather = TopList::new(alloc, query.k)?.gather();
    offer_views(views, ts, plan, query, &mut gather, steps);
    Ok(gather.settle())
}

// Offers the rows of all views.
fn offer_views<L: Ledger>(
    views: &[View],
    ts: Timestamp,
    plan: &Plan,
    query: &Query,
    gather: &mut Gather,
    steps: &mut Steps<L>,
)
    requires { AreOfDim (length query.now.vector) views.now }
    ensures offered { Offered gather.old gather.new (hits_seen ts.0 plan.now query.now (rows_in_all views.now)) }
    ensures steps { steps.new ≡ steps.old + length (rows_in_all views.now) }
{
    let _bar = gather.bar();
    'views: for view in views {
        offer_all(view, ts, plan, query, gather, steps);
    }
}
