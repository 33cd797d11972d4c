//! The nearest rows of a view.

ghost use Rattle.std.specs.Prelude.{◌≡◌, ◌+◌, ◌≤◌, ◌++◌, List, length, map, IfOk, OnOk, OnErr};
ghost use Rattle.std.specs.List.{AllByRecursion};
ghost use Rattle.log_model.specs.Scans.{scan};
ghost use Rattle.journal_model.specs.declared.notes.Note.{Note};
ghost use Rattle.journal_model.specs.Notes.{log_of};
ghost use Rattle.journal_model.specs.Journals.{IsJournal};
ghost use Rattle.journal_model.specs.Lists.{joined};
ghost use Rattle.journal_model.specs.Views.{IsExact};
ghost use Rattle.seg_sealed.specs.Parts.{shown_from, shown_rows};
ghost use Rattle.top_list.specs.Kept.{Offered};
ghost use Rattle.view_laws.specs.Found.{hits_seen, found_in};
ghost use Rattle.channel_view.specs.Views.{view_in};
ghost use Rattle.view_scan.specs.Searches.{plan_of, HaveVectorsOf};

use bit_distance::Steps;
use channel_view::View;
use flat_scan::{scan, scan_tail};
use hybrid_time::Timestamp;
use log_model::{Plan, Query};
use row_types::Memory;
use seg_sealed::Part;
use std::alloc::Global;
use std::sync::ledger::Ledger;
use top_list::{Gather, TopList};

/// The `k` nearest of the rows that a view shows at a timestamp and that pass the query's filter, in
/// order, each once; one step a row. The query's vector has the dimension of the collection, and the
/// timestamp is from the view's floor to its tick.
pub fn run<L: Ledger>(
    alloc: Global,
    view: &View,
    ts: Timestamp,
    query: &Query,
    steps: &mut Steps<L>,
) -> Result<TopList, Memory>
    requires from_floor { view.now.floor ≤ ts.0 }
    requires to_tick { ts.0 ≤ view.now.tick }
    requires fits { length query.now.vector ≡ view.now.collection.dim }
    requires some { 1 ≤ query.now.k }
    requires bound { query.now.k ≤ 16384 }
    ensures found { IfOk result (λ list. list ≡ record { k = query.now.k; hits = found_in (view_in view.now) ts.0 (plan_of view.now.collection) query.now }) }
    ensures scan { IfOk result (λ list. (notes more : List Note) → IsExact notes (view_in view.now) → IsJournal (notes ++ more)
        → list.hits ≡ scan (log_of (notes ++ more)) ts.0 (plan_of view.now.collection) query.now) }
    ensures steps { OnOk result (steps.new ≡ steps.old + length (joined (view_in view.now).parts)) }
    ensures err { OnErr result (steps.new ≡ steps.old) }
{
    let plan = Plan {
        metric: view.collection().metric,
    };
    let mut gather = TopList::new(alloc, query.k)?.gather();
    offer_all(view, ts, &plan, query, &mut gather, steps);
    Ok(gather.settle())
}

/// Offers the rows of the tail and of all parts that are visible at a timestamp and pass the filter to a
/// list that is being filled; one step a row, and no memory. The query's vector has the dimension of the
/// collection.
pub fn offer_all<L: Ledger>(
    view: &View,
    ts: Timestamp,
    plan: &Plan,
    query: &Query,
    gather: &mut Gather,
    steps: &mut Steps<L>,
)
    requires { length query.now.vector ≡ view.now.collection.dim }
    ensures offered { Offered gather.old gather.new (hits_seen ts.0 plan.now query.now (joined (view_in view.now).parts)) }
    ensures steps { steps.new ≡ steps.old + length (joined (view_in view.now).parts) }
{
    offer_growing(view, ts, plan, query, gather, steps);
    offer_sealed(view, ts, plan, query, gather, steps);
}

// Offers the rows of the tail.
fn offer_growing<L: Ledger>(
    view: &View,
    ts: Timestamp,
    plan: &Plan,
    query: &Query,
    gather: &mut Gather,
    steps: &mut Steps<L>,
)
    requires { length query.now.vector ≡ view.now.collection.dim }
    ensures offered { Offered gather.old gather.new (hits_seen ts.0 plan.now query.now (shown_from view.now.deaths 0 view.now.tail.rows)) }
    ensures steps { steps.new ≡ steps.old + length view.now.tail.rows }
{
    let _floor = view.floor();
    let (tail, marks) = (view.tail(), view.tail_marks());
    scan_tail(tail, marks, ts, plan, query, gather, steps);
}

// Offers the rows of all parts.
fn offer_sealed<L: Ledger>(
    view: &View,
    ts: Timestamp,
    plan: &Plan,
    query: &Query,
    gather: &mut Gather,
    steps: &mut Steps<L>,
)
    requires { length query.now.vector ≡ view.now.collection.dim }
    ensures offered { Offered gather.old gather.new (hits_seen ts.0 plan.now query.now (joined (map shown_rows view.now.parts))) }
    ensures steps { steps.new ≡ steps.old + length (joined (map shown_rows view.now.parts)) }
{
    let _floor = view.floor();
    offer_parts(view.parts(), ts, plan, query, gather, steps);
}

fn offer_parts<L: Ledger>(
    parts: &[Part],
    ts: Timestamp,
    plan: &Plan,
    query: &Query,
    gather: &mut Gather,
    steps: &mut Steps<L>,
)
    requires { AllByRecursion (λ part. HaveVectorsOf (length query.now.vector) part.sealed.rows) parts.now }
    ensures offered { Offered gather.old gather.new (hits_seen ts.0 plan.now query.now (joined (map shown_rows parts.now))) }
    ensures steps { steps.new ≡ steps.old + length (joined (map shown_rows parts.now)) }
{
    let _bar = gather.bar();
    'parts: for part in parts {
        offer_part(part, ts, plan, query, gather, steps);
    }
}

fn offer_part<L: Ledger>(
    part: &Part,
    ts: Timestamp,
    plan: &Plan,
    query: &Query,
    gather: &mut Gather,
    steps: &mut Steps<L>,
)
    requires { HaveVectorsOf (length query.now.vector) part.now.sealed.rows }
    ensures offered { Offered gather.old gather.new (hits_seen ts.0 plan.now query.now (shown_rows part.now)) }
    ensures steps { steps.new ≡ steps.old + length (shown_rows part.now) }
{
    let _number = part.sealed().number();
    scan(part, ts, plan, query, gather, steps);
}
