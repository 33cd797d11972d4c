//! The scan of a part.

ghost use Rattle.std.specs.Prelude.{◌≡◌, ◌+◌, ◌<◌, length, slice_get};
ghost use Rattle.std.specs.Option.{IfSome};
ghost use Rattle.log_model.specs.Scans.{passes_filter};
ghost use Rattle.journal_model.specs.Views as view;
ghost use Rattle.seg_sealed.specs.Marks.{death_at};
ghost use Rattle.seg_sealed.specs.Parts.{shown_as, shown_rows};
ghost use Rattle.top_list.specs.Kept.{Offered};
ghost use Rattle.view_laws.specs.Found.{hits_seen};

use crate::rows::{Rows, is_dead};
use crate::scans::{Asked, offer_words};
use bit_distance::Steps;
use hybrid_time::Timestamp;
use log_model::{Plan, Query};
use row_types::Key;
use seg_sealed::Part;
use std::sync::ledger::Ledger;
use top_list::Gather;

/// Offers the rows of a part that are visible at a timestamp and pass the query's filter, in one step
/// a row; takes no memory. The query's vector has the dimension of the part.
pub fn scan<L: Ledger>(
    part: &Part,
    ts: Timestamp,
    plan: &Plan,
    query: &Query,
    gather: &mut Gather,
    steps: &mut Steps<L>,
)
    requires { length query.now.vector ≡ part.now.sealed.dim }
    ensures offered { Offered gather.old gather.new (hits_seen ts.0 plan.now query.now (shown_rows part.now)) }
    ensures steps { steps.new ≡ steps.old + length part.now.sealed.rows }
{
    let asked = Asked { ts, plan, query };
    let sealed = part.sealed();
    let _number = sealed.number();
    offer_words(part, sealed.words(), &asked, gather, steps);
}

impl Rows for Part {
    ghost shown = { shown_rows };

    fn len(&self) -> u32 {
        self.sealed().len()
    }

    fn is_visible(&self, i: u32, ts: Timestamp) -> bool {
        is_visible(self, i, ts)
    }

    fn passes(&self, i: u32, query: &Query) -> bool {
        passes(self, i, query)
    }

    fn key(&self, i: u32) -> Key {
        self.sealed().key(i)
    }
}

fn is_visible(part: &Part, i: u32, ts: Timestamp) -> bool
    requires { i < length part.now.sealed.rows }
    ensures { IfSome (slice_get part.now.sealed.rows i) (λ x. result ≡ view.is_visible ts.0 (shown_as x (death_at i part.now.deaths))) }
{
    part.sealed().ts(i).0 <= ts.0 && !is_dead(part.marks().dead_at(i), ts)
}

// Whether a row passes the query's filter, told from the columns.
fn passes(part: &Part, i: u32, query: &Query) -> bool
    requires { i < length part.now.sealed.rows }
    ensures { IfSome (slice_get part.now.sealed.rows i) (λ x. result ≡ passes_filter query.now.filter x.row) }
{
    match &query.filter {
        Some(filter) => part.sealed().holds(filter, i),
        None => true,
    }
}
