//! Rounds of ticks and seals over all channels.

ghost use Rattle.std.specs.Prelude.{◌≡◌, ℕ, ◌+◌, List, map, length, IfOk};
ghost use Rattle.std.specs.List.{AllByRecursion as Each};
ghost use Rattle.journal_model.specs.declared.notes.Note.{Note};
ghost use Rattle.seat_walks.specs.Walks.{Turned, Took};
ghost use Rattle.call_model.specs.Calls.{AreTicks, AreSeals};
ghost use Rattle.call_model.specs.Walks.{Did};
ghost use Rattle.shard_calls.specs.Fronts.{IsReady, Spends};
ghost use Rattle.phase_run.specs.Callers.{MayTick};

use hybrid_time::Timestamp;
use manu_edge::{Gate, Moments};
use row_types::{List, Memory};
use shard_calls::{Call, Front};
use shard_core::Shard;
use std::alloc::Global;
use std::sync::Wait;
use turn_table::Seat;

/// Ticks the channels in their order, each under a turn of its own: the timestamps. Want of memory leaves
/// the ticks of the first channels.
pub(crate) fn tick_all<R: Wait, M: Moments, G: Gate>(
    front: &Front,
    alloc: Global,
    call: &Call<'_, R, M, G>,
    seat: &mut Seat<Shard>,
) -> Result<List<Timestamp>, Memory>
    requires seat { IsReady front.now.table (front.now.collection.channels + 1) seat.old }
    ensures did { (turns : List (Turned Note)) × Did seat.old (map Took turns) seat.new × Each (MayTick seat.old.number call.now.line) turns
        × IfOk result (λ stamps. AreTicks seat.old.number call.now.line 0 turns stamps × (length stamps ≡ front.now.collection.channels)) }
    ensures spends { Spends front.now.collection.channels seat.old seat.new }
{
    let channels = front.collection().channels;
    let mut stamps = Vec::new(alloc);
    'channels: for channel in 0..channels {
        let ts = front.tick(alloc, call, seat, channel)?;
        stamps.push(ts)?;
    }
    Ok(List::of(stamps))
}

/// Seals the channels in their order, each under a turn of its own: the timestamps, and how many rows
/// each tail had. Want of memory leaves the seals of the first channels.
pub(crate) fn seal_all<R: Wait, M: Moments, G: Gate>(
    front: &Front,
    alloc: Global,
    call: &Call<'_, R, M, G>,
    seat: &mut Seat<Shard>,
) -> Result<List<(Timestamp, u32)>, Memory>
    requires seat { IsReady front.now.table (front.now.collection.channels + 1) seat.old }
    ensures did { (turns : List (Turned Note)) × Did seat.old (map Took turns) seat.new
        × IfOk result (λ seals. AreSeals front.now.collection seat.old.number call.now.line 0 turns seals × (length seals ≡ front.now.collection.channels)) }
    ensures spends { Spends front.now.collection.channels seat.old seat.new }
{
    let channels = front.collection().channels;
    let mut seals = Vec::new(alloc);
    'channels: for channel in 0..channels {
        let seal = front.seal(alloc, call, seat, channel)?;
        seals.push(seal)?;
    }
    Ok(List::of(seals))
}
