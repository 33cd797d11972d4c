//! Looks at all channels.

ghost use Rattle.std.specs.Prelude.{◌≡◌, ℕ, ◌+◌, ◌≤◌, List, true, map, min, IfOk};
ghost use Rattle.turn_facts.specs.Counts.{Among};
ghost use Rattle.journal_model.specs.declared.notes.Note.{Note};
ghost use Rattle.seat_walks.specs.Walks.{Turned, Took};
ghost use Rattle.call_model.specs.Walks.{Did};
ghost use Rattle.shard_calls.specs.Fronts.{IsReady, Spends};
ghost use Rattle.proxy_search.specs.Rounds.{IsRound, least_after, least_in};

use channel_view::View;
use hybrid_time::Timestamp;
use manu_edge::{Gate, Moments};
use row_types::{List, Memory};
use shard_calls::{Call, Front};
use shard_core::{Looked, Shard};
use std::alloc::Global;
use std::sync::Wait;
use turn_table::Seat;

/// What a round of looks came to.
#[derive(Drop)]
pub(crate) enum Round {
    /// A view of each channel, in their order.
    Served(List<View>),
    /// The first channel whose tick is below the guarantee, which is not waited for.
    Pending { channel: u32, tick: Timestamp },
}

/// Looks at the channels in their order, up to the first that is pending.
pub(crate) fn look_at_all<R: Wait, M: Moments, G: Gate>(
    front: &Front,
    alloc: Global,
    call: &Call<'_, R, M, G>,
    seat: &mut Seat<Shard>,
    guarantee: Timestamp,
    wait: bool,
) -> Result<Round, Memory>
    requires seat { IsReady front.now.table (front.now.collection.channels + 1) seat.old }
    requires guarantee { wait ≡ true → (x : ℕ) × Among x seat.old.drawn × (guarantee.0 ≤ x) }
    ensures did { (turns : List (Turned Note)) × Did seat.old (map Took turns) seat.new
        × IfOk result (IsRound front.now seat.old.number call.now.line guarantee.0 wait turns) }
    ensures spends { Spends front.now.collection.channels seat.old seat.new }
{
    let channels = front.collection().channels;
    let mut views = Vec::new(alloc);
    'channels: for channel in 0..channels {
        match front.look(alloc, call, seat, channel, guarantee, wait)? {
            Looked::Served(view) => views.push(view)?,
            Looked::Pending { tick } => return Ok(Round::Pending { channel, tick }),
        }
    }
    Ok(Round::Served(List::of(views)))
}

/// The least of the views' ticks; 0 where there is none.
pub(crate) fn least_tick(views: &[View]) -> Timestamp
    ensures { result.0 ≡ least_in views.now }
{
    match views.split_first() {
        Some((first, others)) => least_of(first.tick(), others),
        None => Timestamp(0),
    }
}

fn least_of(ts: Timestamp, views: &[View]) -> Timestamp
    ensures { result.0 ≡ least_after ts.0 views.now }
{
    let mut least = ts;
    'views: for view in views {
        least = earlier(least, view.tick());
    }
    least
}

fn earlier(one: Timestamp, other: Timestamp) -> Timestamp
    ensures { result.0 ≡ min one.0 other.0 }
{
    if other.0 < one.0 { other } else { one }
}
