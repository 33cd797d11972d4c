//! Searches.

ghost use Rattle.std.specs.Prelude.{◌≡◌, ℕ, ◌+◌, ◌<◌, ◌≤◌, ◌⊎◌, List, length, IfOk};
ghost use Rattle.std.specs.Result.{IsOkAnd};
ghost use Rattle.turn_facts.specs.Counts.{Among};
ghost use Rattle.journal_model.specs.declared.notes.Note.{Note};
ghost use Rattle.request_lines.specs.Requests.{FitsQuery};
ghost use Rattle.request_lines.specs.declared.requests.Ask.TheVariants as asks;
ghost use Rattle.channel_search.specs.Found.{AreOfDim};
ghost use Rattle.seat_walks.specs.Walks.{Step};
ghost use Rattle.call_model.specs.Calls.{IsCall};
ghost use Rattle.call_model.specs.Walks.{Did};
ghost use Rattle.shard_calls.specs.Fronts.{IsReady, Spends};
ghost use Rattle.proxy_search.specs.declared.rounds.Round.TheVariants.{Served};
ghost use Rattle.proxy_search.specs.Rounds.{AreHitsOf, SaysHits, HaveDim};

use crate::rounds::{Round, least_tick, look_at_all};
use answer_lines::Answer;
use bit_distance::Steps;
use channel_view::View;
use hybrid_time::{Level, Timestamp, guarantee};
use log_model::{Plan, Query};
use manu_edge::{At, Gate, Moments};
use row_types::{Hit, List, Memory};
use shard_calls::{Call, Front};
use shard_core::Shard;
use std::alloc::Global;
use std::marker::Brand;
use std::sync::Wait;
use std::sync::ledger::{Blank, Ledger};
use turn_table::Seat;

/// The `k` nearest rows of all channels, in a snapshot at the least tick that looks at all channels
/// found. The search begins at a number that it draws; the snapshot is not below the guarantee of the
/// level then, for a caller whose last write was at `mine`. Where the search does not wait and a tick is
/// below the guarantee, it is pending at the first such channel. Want of memory is the only error; the
/// looks that were made stand.
pub fn search<R: Wait, M: Moments, G: Gate>(
    front: &Front,
    alloc: Global,
    call: &Call<'_, R, M, G>,
    seat: &mut Seat<Shard>,
    query: &Query,
    level: Level,
    mine: Timestamp,
    wait: bool,
) -> Result<Answer, Memory>
    requires seat { IsReady front.now.table (front.now.collection.channels + 2) seat.old }
    requires query { FitsQuery front.now.collection query.now }
    requires mine { (mine.0 < front.now.table.first) ⊎ Among mine.0 seat.old.drawn }
    ensures did { (xs : List (Step Note)) × Did seat.old xs seat.new
        × IfOk result (λ answer. IsCall front.now.collection seat.old.number call.now.line mine.0 (asks.Search query.now level wait) answer xs) }
    ensures spends { Spends (front.now.collection.channels + 1) seat.old seat.new }
{
    let now = front.draw(seat);
    let guarantee = guarantee(level, now, mine);
    let round = look_at_all(front, alloc, call, seat, guarantee, wait);
    answer_round(front, alloc, call, query, now, guarantee, round)
}

// The answer to a search after its looks; no turn is held.
fn answer_round<R: Wait, M: Moments, G: Gate>(
    front: &Front,
    alloc: Global,
    call: &Call<'_, R, M, G>,
    query: &Query,
    now: Timestamp,
    guarantee: Timestamp,
    round: Result<Round, Memory>,
) -> Result<Answer, Memory>
    requires query { FitsQuery front.now.collection query.now }
    requires dims { IfOk round (HaveDim (length query.now.vector)) }
    ensures { IfOk result (λ answer. IsOkAnd round (λ r. SaysHits front.now.collection query.now now guarantee r answer)) }
{
    match round? {
        Round::Pending { channel, tick } => Ok(Answer::Pending {
            now,
            guarantee,
            channel,
            tick,
        }),
        Round::Served(views) => {
            call.pass(At::BeforeScan);
            answer_views(front, alloc, query, now, guarantee, views)
        }
    }
}

// The answer to a search that was served.
fn answer_views(
    front: &Front,
    alloc: Global,
    query: &Query,
    now: Timestamp,
    guarantee: Timestamp,
    views: List<View>,
) -> Result<Answer, Memory>
    requires query { FitsQuery front.now.collection query.now }
    requires dims { AreOfDim (length query.now.vector) views }
    ensures { IfOk result (SaysHits front.now.collection query.now now guarantee (Served views)) }
{
    let shown = views.as_slice();
    let ts = least_tick(shown);
    let hits = hits_in(front, alloc, shown, ts, query)?;
    Ok(Answer::Hits {
        now,
        guarantee,
        ts,
        hits,
    })
}

fn hits_in(
    front: &Front,
    alloc: Global,
    views: &[View],
    ts: Timestamp,
    query: &Query,
) -> Result<List<Hit>, Memory>
    requires query { FitsQuery front.now.collection query.now }
    requires dims { AreOfDim (length query.now.vector) views.now }
    ensures { IfOk result (AreHitsOf front.now.collection query.now ts.0 views.now) }
{
    scan::<Brand>(front, alloc, views, ts, query, Blank::new(1))
}

// The same; `blank` is the ledger in which the distances are counted.
fn scan<L: Ledger>(
    front: &Front,
    alloc: Global,
    views: &[View],
    ts: Timestamp,
    query: &Query,
    blank: Blank,
) -> Result<List<Hit>, Memory>
    requires query { FitsQuery front.now.collection query.now }
    requires dims { AreOfDim (length query.now.vector) views.now }
    requires name { blank.name ≡ L.name }
    requires parts { blank.parts ≡ L.parts }
    requires ledger { 0 < L.parts }
    ensures { IfOk result (AreHitsOf front.now.collection query.now ts.0 views.now) }
{
    let mut steps: Steps<L> = Steps::none(blank);
    let plan = Plan {
        metric: front.collection().metric,
    };
    let list = channel_search::search(alloc, views, ts, &plan, query, &mut steps)?;
    let hits = Vec::from_slice(alloc, list.hits())?;
    Ok(List::of(hits))
}
