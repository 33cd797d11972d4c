//! The walk along rows that stand together.

ghost use Rattle.std.specs.Prelude.{◌≡◌, ◌+◌, ◌*◌, ◌^◌, ◌<◌, ◌≤◌, ◌∷◌, [], length, map, Some, IfSome, MatchOption, slice_get};
ghost use Rattle.std.specs.List.{AllByRecursion};
ghost use Rattle.row_types.specs.Bits.{AreWordsOf};
ghost use Rattle.row_types.specs.Hits.{least, distance_of};
ghost use Rattle.log_model.specs.Places.{IsColumn, width_of};
ghost use Rattle.journal_model.specs.Views.{Shown};
ghost use Rattle.top_list.specs.Kept.{Offered, IsBehindAll};
ghost use Rattle.view_laws.specs.Found.{hits_seen};
ghost use Rattle.flat_scan.specs.Bars.{AreAllPast, IsNextFour};
ghost use Rattle.flat_scan.specs.Rows.{AreDistances, AreFar, AreOffered, HoldsVectors, HaveVectorsLike, vector_shown};

use crate::bars::Bar;
use crate::columns::{Column, Fixed, Wide};
use crate::distances::{ByBits, ByShare, Distances, measured};
use crate::rows::Rows;
use bit_distance::Steps;
use hybrid_time::Timestamp;
use log_model::{Plan, Query};
use row_types::{Distance, Hit, Metric};
use std::sync::ledger::Ledger;
use top_list::Gather;

/// What a scan asks of each row.
#[derive(Drop)]
pub(crate) struct Asked<'a> {
    pub(crate) ts: Timestamp,
    pub(crate) plan: &'a Plan,
    pub(crate) query: &'a Query,
}

/// Offers rows whose words stand in one column. The width of the column is chosen here, once for all.
pub(crate) fn offer_words<R: Rows, L: Ledger>(
    rows: &R,
    words: &[u64],
    asked: &Asked,
    gather: &mut Gather,
    steps: &mut Steps<L>,
)
    requires fits { HaveVectorsLike asked.now.query.now (R.shown rows.now) }
    requires column { IsColumn (width_of (length asked.now.query.now.vector)) (map vector_shown (R.shown rows.now)) words.now }
    ensures offered { Offered gather.old gather.new (hits_seen asked.now.ts.0 asked.now.plan.now asked.now.query.now (R.shown rows.now)) }
    ensures steps { steps.new ≡ steps.old + length (R.shown rows.now) }
{
    let query = asked.query.vector.words();
    match query.len() {
        1 => offer_fixed::<R, L, 1>(rows, words, query, asked, gather, steps),
        2 => offer_fixed::<R, L, 2>(rows, words, query, asked, gather, steps),
        4 => offer_fixed::<R, L, 4>(rows, words, query, asked, gather, steps),
        8 => offer_fixed::<R, L, 8>(rows, words, query, asked, gather, steps),
        16 => offer_fixed::<R, L, 16>(rows, words, query, asked, gather, steps),
        64 => offer_fixed::<R, L, 64>(rows, words, query, asked, gather, steps),
        _ => offer_wide(rows, words, query, asked, gather, steps),
    }
}

// Vectors of exactly `W` words.
fn offer_fixed<R: Rows, L: Ledger, const W: usize>(
    rows: &R,
    words: &[u64],
    query: &[u64],
    asked: &Asked,
    gather: &mut Gather,
    steps: &mut Steps<L>,
)
    requires some { 0 < W }
    requires few { W ≤ 64 }
    requires width { length query.now ≡ W }
    requires query { AreWordsOf asked.now.query.now.vector query.now }
    requires fits { HaveVectorsLike asked.now.query.now (R.shown rows.now) }
    requires column { IsColumn W (map vector_shown (R.shown rows.now)) words.now }
    ensures offered { Offered gather.old gather.new (hits_seen asked.now.ts.0 asked.now.plan.now asked.now.query.now (R.shown rows.now)) }
    ensures steps { steps.new ≡ steps.old + length (R.shown rows.now) }
{
    let (ours, _) = query.as_chunks::<W>();
    let (theirs, _) = words.as_chunks::<W>();
    let column = Fixed {
        rows: theirs,
        query: &ours[0],
    };
    offer_column(rows, &column, asked, gather, steps);
}

// Vectors of any width.
fn offer_wide<R: Rows, L: Ledger>(
    rows: &R,
    words: &[u64],
    query: &[u64],
    asked: &Asked,
    gather: &mut Gather,
    steps: &mut Steps<L>,
)
    requires query { AreWordsOf asked.now.query.now.vector query.now }
    requires fits { HaveVectorsLike asked.now.query.now (R.shown rows.now) }
    requires column { IsColumn (length query.now) (map vector_shown (R.shown rows.now)) words.now }
    ensures offered { Offered gather.old gather.new (hits_seen asked.now.ts.0 asked.now.plan.now asked.now.query.now (R.shown rows.now)) }
    ensures steps { steps.new ≡ steps.old + length (R.shown rows.now) }
{
    let column = Wide {
        words,
        query,
        count: rows.len(),
    };
    offer_column(rows, &column, asked, gather, steps);
}

// The metric is chosen here, once for all rows.
fn offer_column<R: Rows, C: Column, L: Ledger>(
    rows: &R,
    column: &C,
    asked: &Asked,
    gather: &mut Gather,
    steps: &mut Steps<L>,
)
    requires { HoldsVectors asked.now.query.now (R.shown rows.now) (C.count column.now) (C.asked column.now) (C.bits column.now) }
    ensures offered { Offered gather.old gather.new (hits_seen asked.now.ts.0 asked.now.plan.now asked.now.query.now (R.shown rows.now)) }
    ensures steps { steps.new ≡ steps.old + length (R.shown rows.now) }
{
    match asked.plan.metric {
        Metric::Hamming => offer_rows(rows, &ByBits(column), asked, gather, steps),
        Metric::Jaccard => offer_rows(rows, &ByShare(column), asked, gather, steps),
    }
}

/// Offers rows at their distances, in one step a row: four rows a turn, and then the rows that are left.
pub(crate) fn offer_rows<R: Rows, D: Distances, L: Ledger>(
    rows: &R,
    far: &D,
    asked: &Asked,
    gather: &mut Gather,
    steps: &mut Steps<L>,
)
    requires { AreDistances asked.now.plan.now asked.now.query.now (R.shown rows.now) (D.count far.now) (D.far far.now) }
    ensures offered { Offered gather.old gather.new (hits_seen asked.now.ts.0 asked.now.plan.now asked.now.query.now (R.shown rows.now)) }
    ensures steps { steps.new ≡ steps.old + length (R.shown rows.now) }
{
    let count = rows.len();
    let fours = count / 4;
    let mut bar = Bar::of(gather.bar());
    offer_fours(rows, far, fours, asked, &mut bar, gather, steps);
    offer_ones(rows, far, 4 * fours, asked, &mut bar, gather, steps);
}

// Offers four times as many rows from the first on, four by four.
fn offer_fours<R: Rows, D: Distances, L: Ledger>(
    rows: &R,
    far: &D,
    fours: u32,
    asked: &Asked,
    bar: &mut Bar,
    gather: &mut Gather,
    steps: &mut Steps<L>,
)
    requires apart { AreDistances asked.now.plan.now asked.now.query.now (R.shown rows.now) (D.count far.now) (D.far far.now) }
    requires few { 4 * fours < 2 ^ 32 }
    requires there { 4 * fours ≤ length (R.shown rows.now) }
    requires own { gather.old.hits ≡ least gather.old.k gather.old.hits }
    requires bar { IfSome bar.old.hit (IsBehindAll gather.old) }
    ensures offered { AreOffered asked.now.ts.0 asked.now.plan.now asked.now.query.now (R.shown rows.now) 0 (4 * fours) gather.old gather.new }
    ensures own { gather.new.hits ≡ least gather.new.k gather.new.hits }
    ensures bar { IfSome bar.new.hit (IsBehindAll gather.new) }
    ensures steps { steps.new ≡ steps.old + 4 * fours }
{
    let mut from = 0;
    'fours: while let Some(four) = next_four(far, from, fours, bar, steps) {
        from = four.turn + 1;
        offer_four(rows, &four, asked, bar, gather);
    }
}

// Offers the rows from a number on, one by one.
fn offer_ones<R: Rows, D: Distances, L: Ledger>(
    rows: &R,
    far: &D,
    from: u32,
    asked: &Asked,
    bar: &mut Bar,
    gather: &mut Gather,
    steps: &mut Steps<L>,
)
    requires apart { AreDistances asked.now.plan.now asked.now.query.now (R.shown rows.now) (D.count far.now) (D.far far.now) }
    requires there { from ≤ length (R.shown rows.now) }
    requires own { gather.old.hits ≡ least gather.old.k gather.old.hits }
    requires bar { IfSome bar.old.hit (IsBehindAll gather.old) }
    ensures offered { AreOffered asked.now.ts.0 asked.now.plan.now asked.now.query.now (R.shown rows.now)
        from (length (R.shown rows.now)) gather.old gather.new }
    ensures steps { steps.new + from ≡ steps.old + length (R.shown rows.now) }
{
    'rows: for i in from..rows.len() {
        let distance = measured(far, i, steps);
        offer_near(rows, Near { i, distance }, asked, bar, gather);
    }
}

// Four rows that follow one another, with their distances: those of a turn, of which each has four.
#[derive(Drop)]
struct Four {
    turn: u32,
    far: [Distance; 4],
}

// The first four from a turn up to another of which one is not too far, at a step for each row up to
// its end. A function of its own, and never part of another, so that nothing but distances and the bar
// is in its loop, with one branch for four rows: at a word or two a row, turns and branches cost as
// much as the rows. The distances are kept, so that none is measured twice.
#[inline(never)]
fn next_four<D: Distances, L: Ledger>(
    far: &D,
    from: u32,
    to: u32,
    bar: &Bar,
    steps: &mut Steps<L>,
) -> Option<Four>
    requires order { from ≤ to }
    requires few { 4 * to < 2 ^ 32 }
    requires there { 4 * to ≤ D.count far.now }
    ensures near { MatchOption result (AreAllPast (D.far far.now) bar.now.hit (4 * from) (4 * to))
        (λ four. IsNextFour (D.far far.now) bar.now.hit from to four.turn four.far) }
    ensures steps { MatchOption result (steps.new + 4 * from ≡ steps.old + 4 * to)
        (λ four. steps.new + 4 * from ≡ steps.old + 4 * (four.turn + 1)) }
{
    'fours: for turn in from..to {
        let at = 4 * turn;
        let first = measured(far, at, steps);
        let second = measured(far, at + 1, steps);
        let third = measured(far, at + 2, steps);
        let fourth = measured(far, at + 3, steps);
        if bar.pasts(first, second, third, fourth) < 4 {
            return Some(Four {
                turn,
                far: [first, second, third, fourth],
            });
        }
    }
    None
}

// Offers four rows, of which some may be too far.
#[inline(never)]
fn offer_four<R: Rows>(rows: &R, four: &Four, asked: &Asked, bar: &mut Bar, gather: &mut Gather)
    requires few { 4 * four.now.turn + 4 < 2 ^ 32 }
    requires there { 4 * four.now.turn + 4 ≤ length (R.shown rows.now) }
    requires apart { AreFar asked.now.plan.now asked.now.query.now (R.shown rows.now) (4 * four.now.turn) four.now.far }
    requires own { gather.old.hits ≡ least gather.old.k gather.old.hits }
    requires bar { IfSome bar.old.hit (IsBehindAll gather.old) }
    ensures offered { AreOffered asked.now.ts.0 asked.now.plan.now asked.now.query.now (R.shown rows.now)
        (4 * four.now.turn) (4 * four.now.turn + 4) gather.old gather.new }
    ensures own { gather.new.hits ≡ least gather.new.k gather.new.hits }
    ensures bar { IfSome bar.new.hit (IsBehindAll gather.new) }
{
    'four: for j in 0..4 {
        let near = Near {
            i: 4 * four.turn + j,
            distance: four.far[j as usize],
        };
        offer_near(rows, near, asked, bar, gather);
    }
}

// A row that may be near enough.
#[derive(Drop)]
struct Near {
    i: u32,
    distance: Distance,
}

// Offers a row, if it is near enough, is visible and passes, and keeps the bar one of the list: a hit
// behind which nothing is kept.
fn offer_near<R: Rows>(rows: &R, near: Near, asked: &Asked, bar: &mut Bar, gather: &mut Gather)
    ghost s: { Shown }
    requires row { slice_get (R.shown rows.now) near.i ≡ Some s }
    requires below { near.i < length (R.shown rows.now) }
    requires far { near.distance ≡ distance_of asked.now.plan.now.metric asked.now.query.now.vector s.row.vector }
    requires own { gather.old.hits ≡ least gather.old.k gather.old.hits }
    requires bar { IfSome bar.old.hit (IsBehindAll gather.old) }
    ensures offered { Offered gather.old gather.new (hits_seen asked.now.ts.0 asked.now.plan.now asked.now.query.now (s ∷ [])) }
    ensures bar { IfSome bar.new.hit (IsBehindAll gather.new) }
{
    if bar.is_before(near.distance) {
        return;
    }
    if !rows.is_visible(near.i, asked.ts) {
        return;
    }
    if !rows.passes(near.i, asked.query) {
        return;
    }
    let key = rows.key(near.i);
    gather.offer(Hit {
        distance: near.distance,
        key,
    });
    *bar = Bar::of(gather.bar());
}
