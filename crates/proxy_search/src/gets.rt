//! Gets.

ghost use Rattle.std.specs.Prelude.{◌≡◌, ℕ, ◌<◌, ◌⊎◌, List, map, IfOk, IfSome};
ghost use Rattle.std.specs.Option.{option_map};
ghost use Rattle.std.specs.Result.{IsOkAnd};
ghost use Rattle.turn_facts.specs.Counts.{Among};
ghost use Rattle.coarse_lists.specs.Collections.{IsRowOf as IsRowIn};
ghost use Rattle.journal_model.specs.declared.notes.Note.{Note};
ghost use Rattle.legal_output.specs.Lines.{HasColumns, IsRowOf};
ghost use Rattle.request_lines.specs.declared.requests.Ask.TheVariants as asks;
ghost use Rattle.seat_walks.specs.Walks.{Step};
ghost use Rattle.shard_core.specs.Shards.{IfServed};
ghost use Rattle.call_model.specs.Calls.{IsCall};
ghost use Rattle.call_model.specs.Walks.{Did};
ghost use Rattle.shard_calls.specs.Fronts.{IsReady, Spends};
ghost use Rattle.proxy_search.specs.Rounds.{IsFoundIn, SaysRow};

use answer_lines::{Answer, Named};
use channel_view::View;
use coarse_lists::Collection;
use hybrid_time::{Level, Timestamp, guarantee};
use manu_edge::{Gate, Moments};
use row_types::{Key, Kind, List, Memory, Row, Text};
use shard_calls::{Call, Front};
use shard_core::{Looked, Shard};
use std::alloc::Global;
use std::sync::Wait;
use turn_table::Seat;
use view_scan::find;

/// The row of a key, where it is live, in a snapshot at the tick that a look at its channel found. The
/// get begins at a number that it draws; the snapshot is not below the guarantee of the level then, for
/// a caller whose last write was at `mine`. A get that does not wait is pending where the tick is below
/// the guarantee. Want of memory is the only error; the look stands, if it was made.
pub fn get<R: Wait, M: Moments, G: Gate>(
    front: &Front,
    alloc: Global,
    call: &Call<'_, R, M, G>,
    seat: &mut Seat<Shard>,
    key: Key,
    level: Level,
    mine: Timestamp,
    wait: bool,
) -> Result<Answer, Memory>
    requires seat { IsReady front.now.table 3 seat.old }
    requires mine { (mine.0 < front.now.table.first) ⊎ Among mine.0 seat.old.drawn }
    ensures did { (xs : List (Step Note)) × Did seat.old xs seat.new
        × IfOk result (λ answer. IsCall front.now.collection seat.old.number call.now.line mine.0 (asks.Get key level wait) answer xs) }
    ensures spends { Spends 2 seat.old seat.new }
{
    let now = front.draw(seat);
    let guarantee = guarantee(level, now, mine);
    let channel = front.channel_of(key);
    let looked = front.look(alloc, call, seat, channel, guarantee, wait);
    answer_look(front, alloc, key, now, guarantee, channel, looked)
}

// The answer to a get after its look; no turn is held.
fn answer_look(
    front: &Front,
    alloc: Global,
    key: Key,
    now: Timestamp,
    guarantee: Timestamp,
    channel: u32,
    looked: Result<Looked, Memory>,
) -> Result<Answer, Memory>
    requires { IfOk looked (λ l. IfServed l (λ view. view.collection ≡ front.now.collection)) }
    ensures { IfOk result (λ answer. IsOkAnd looked (λ l. SaysRow front.now.collection key now guarantee channel l answer)) }
{
    match looked? {
        Looked::Pending { tick } => Ok(Answer::Pending {
            now,
            guarantee,
            channel,
            tick,
        }),
        Looked::Served(view) => {
            let ts = view.tick();
            let row = row_at(front, alloc, &view, ts, key)?;
            Ok(Answer::Found {
                now,
                guarantee,
                ts,
                row,
            })
        }
    }
}

fn row_at(
    front: &Front,
    alloc: Global,
    view: &View,
    ts: Timestamp,
    key: Key,
) -> Result<Option<Named>, Memory>
    requires same { view.now.collection ≡ front.now.collection }
    requires tick { ts.0 ≡ view.now.tick }
    ensures found { IfOk result (IsFoundIn key ts.0 view.now) }
    ensures row { IfOk result (IsRowOf front.now.collection.schema.columns) }
{
    let _floor = view.floor();
    let _tick = view.tick();
    let found = find(alloc, view, ts, key)?;
    name_found(alloc, front.collection(), found)
}

fn name_found(
    alloc: Global,
    collection: &Collection,
    found: Option<Row>,
) -> Result<Option<Named>, Memory>
    requires { IfSome found (IsRowIn collection.now) }
    ensures same { IfOk result (λ named. option_map (λ n. n.row) named ≡ found) }
    ensures row { IfOk result (IsRowOf collection.now.schema.columns) }
{
    match found {
        None => Ok(None),
        Some(row) => Ok(Some(name(alloc, collection, row)?)),
    }
}

// The row with the names of the columns.
fn name(alloc: Global, collection: &Collection, row: Row) -> Result<Named, Memory>
    requires { IsRowIn collection.now row }
    ensures row { IfOk result (λ named. named.row ≡ row) }
    ensures columns { IfOk result (HasColumns collection.now.schema.columns) }
{
    let names = copy_names(alloc, collection.schema.columns.as_slice())?;
    Ok(Named {
        row,
        names: List::of(names),
    })
}

fn copy_names(alloc: Global, columns: &[(Text, Kind)]) -> Result<Vec<Text>, Memory>
    ensures { IfOk result (λ names. names.items ≡ map (λ column. column.0) columns.now) }
{
    let mut names = Vec::with_capacity(alloc, columns.len())?;
    'columns: for column in columns {
        let (name, _) = column;
        names.push(name.copy(alloc)?)?;
    }
    Ok(names)
}
