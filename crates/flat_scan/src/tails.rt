//! The scan of a tail.

ghost use Rattle.std.specs.Prelude.{◌≡◌, ◌+◌, ◌≤◌, length};
ghost use Rattle.std.specs.List.{AllByRecursion};
ghost use Rattle.seg_sealed.specs.Parts.{shown_from};
ghost use Rattle.top_list.specs.Kept.{Offered};
ghost use Rattle.view_laws.specs.Found.{hits_seen};
ghost use Rattle.growing_segment.specs.Tails.{HasDimension, HasChunkDimension, rows_in};

use crate::distances::OneByOne;
use crate::pieces::Piece;
use crate::rows::Rows;
use crate::scans::{Asked, offer_rows, offer_words};
use bit_distance::Steps;
use growing_segment::{Chunk, SharedTail};
use hybrid_time::Timestamp;
use log_model::{Plan, Query};
use seg_sealed::Marks;
use std::sync::ledger::Ledger;
use top_list::Gather;

/// Offers the rows of a tail that are visible at a timestamp and pass the query's filter, in one step
/// a row; takes no memory. The marks are those of the tail's rows by their numbers, and the query's
/// vector has the dimension of the tail.
pub fn scan_tail<L: Ledger>(
    tail: &SharedTail,
    marks: &Marks,
    ts: Timestamp,
    plan: &Plan,
    query: &Query,
    gather: &mut Gather,
    steps: &mut Steps<L>,
)
    requires { length query.now.vector ≡ tail.now.dim }
    ensures offered { Offered gather.old gather.new (hits_seen ts.0 plan.now query.now (shown_from marks.now.deaths 0 tail.now.rows)) }
    ensures steps { steps.new ≡ steps.old + length tail.now.rows }
{
    let _dim = tail.dim();
    let asked = Asked { ts, plan, query };
    let (chunks, latest) = tail.parts();
    let from = offer_chunks(chunks, marks, &asked, gather, steps);
    let rows = Piece {
        rows: latest,
        from,
        marks,
    };
    let far = OneByOne {
        rows: latest,
        query: &query.vector,
        plan,
    };
    offer_rows(&rows, &far, &asked, gather, steps);
}

// Offers the rows of whole chunks, and counts them.
fn offer_chunks<L: Ledger>(
    chunks: &[Chunk],
    marks: &Marks,
    asked: &Asked,
    gather: &mut Gather,
    steps: &mut Steps<L>,
) -> u32
    requires dims { AllByRecursion (HasChunkDimension (length asked.now.query.now.vector)) chunks.now }
    requires fit { AllByRecursion (HasDimension (length asked.now.query.now.vector)) (rows_in chunks.now) }
    requires few { length (rows_in chunks.now) ≤ 65536 }
    ensures count { result ≡ length (rows_in chunks.now) }
    ensures offered { Offered gather.old gather.new
        (hits_seen asked.now.ts.0 asked.now.plan.now asked.now.query.now (shown_from marks.now.deaths 0 (rows_in chunks.now))) }
    ensures steps { steps.new ≡ steps.old + length (rows_in chunks.now) }
{
    let mut from = 0;
    let _bar = gather.bar();
    'chunks: for chunk in chunks {
        from = offer_chunk(chunk, from, marks, asked, gather, steps);
    }
    from
}

// Offers the rows of a chunk, and gives the number of the row behind them.
fn offer_chunk<L: Ledger>(
    chunk: &Chunk,
    from: u32,
    marks: &Marks,
    asked: &Asked,
    gather: &mut Gather,
    steps: &mut Steps<L>,
) -> u32
    requires dim { chunk.now.dim ≡ length asked.now.query.now.vector }
    requires fit { AllByRecursion (HasDimension (length asked.now.query.now.vector)) chunk.now.rows }
    requires few { from + length chunk.now.rows ≤ 65536 }
    ensures next { result ≡ from + length chunk.now.rows }
    ensures offered { Offered gather.old gather.new
        (hits_seen asked.now.ts.0 asked.now.plan.now asked.now.query.now (shown_from marks.now.deaths from chunk.now.rows)) }
    ensures steps { steps.new ≡ steps.old + length chunk.now.rows }
{
    let rows = Piece {
        rows: chunk.rows(),
        from,
        marks,
    };
    offer_words(&rows, chunk.words(), asked, gather, steps);
    from + rows.len()
}
