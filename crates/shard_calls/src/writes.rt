//! Writes.

ghost use Rattle.std.specs.Prelude.{◌≡◌, ℕ, ◌+◌, ◌<◌, ◌≤◌, [], ◌∷◌, List, IfOk, MatchResult};
ghost use Rattle.std.specs.Result.{IsOkAnd};
ghost use Rattle.std.specs.FinMap as fin;
ghost use Rattle.log_model.specs.Logs.{key_of};
ghost use Rattle.journal_model.specs.declared.notes.Note.{Note};
ghost use Rattle.journal_model.specs.Notes.{note_of, live_in};
ghost use Rattle.journal_model.specs.Journals.{AreBelow};
ghost use Rattle.legal_output.specs.Legal.{told_of};
ghost use Rattle.request_lines.specs.Requests.{FitsWrite};
ghost use Rattle.turn_table.specs.Seats.{IsGiven};
ghost use Rattle.seat_walks.specs.Walks.{Turned, Took, Puts};
ghost use Rattle.shard_core.specs.Keys.{channel_of};
ghost use Rattle.shard_core.specs.Shards.{Steps, base_of};
ghost use Rattle.call_model.specs.Turns.{by_of, time_of, kind_of, Writes};
ghost use Rattle.call_model.specs.Walks.{Did};
ghost use Rattle.shard_calls.specs.Fronts.{IsReady, Spends};
ghost use Rattle.shard_calls.specs.Calls.{IsIdle};
ghost use Rattle.shard_calls.specs.Under.{IsInside, written, FitsIn, put_told};

use crate::calls::Call;
use crate::fronts::Front;
use answer_lines::{WriteReply, Wrote};
use hybrid_time::Timestamp;
use journal_model::PutKind;
use log_model::{SharedRow, Write};
use manu_edge::{At, Gate, Moments};
use row_types::{Key, Memory, Row};
use shard_core::{PutReply, Shard};
use std::alloc::Global;
use std::sync::{Arc, Wait};
use turn_table::{Seat, Turn, Turns};

/// A write whose row may be shared.
#[derive(Drop)]
pub(crate) enum Change {
    Put(PutKind, SharedRow),
    Remove(Key),
}

impl Front {
    /// Writes under one turn of the channel of the key: one note at one number, answered by whether the
    /// key was live there. Want of memory draws nothing and adds nothing.
    pub fn write<R: Wait, M: Moments, G: Gate>(
        &self,
        alloc: Global,
        call: &Call<'_, R, M, G>,
        seat: &mut Seat<Shard>,
        write: Write,
    ) -> Result<WriteReply, Memory>
        requires seat { IsReady self.now.table 2 seat.old }
        requires fits { FitsWrite self.now.collection write }
        ensures did { (t : Turned Note) × Did seat.old (Took t ∷ []) seat.new × (t.slot ≡ channel_of self.now.collection.channels (key_of write))
            × MatchResult result (λ reply. Writes seat.old.number call.now.line write reply t.before t.notes t.drawn) (λ _. IsIdle t.notes t.drawn) }
        ensures spends { Spends 1 seat.old seat.new }
    {
        let turns = self.turns();
        let channel = self.channel_of(write.key());
        let change = prepare(alloc, write);
        let mut turn = turns.enter(call.rt, seat, channel as usize);
        call.pass(At::AfterEnter);
        let done = write_prepared(alloc, turns, seat, &mut turn, call.line, change);
        turns.leave(seat, turn);
        done
    }
}

/// Makes the row of a write one that may be shared.
fn prepare(alloc: Global, write: Write) -> Result<Change, Memory>
    ensures { IfOk result (λ change. written change ≡ write) }
{
    match write {
        Write::Insert(row) => Ok(Change::Put(PutKind::Insert, share(alloc, row)?)),
        Write::Upsert(row) => Ok(Change::Put(PutKind::Upsert, share(alloc, row)?)),
        Write::Delete(key) => Ok(Change::Remove(key)),
    }
}

fn share(alloc: Global, row: Row) -> Result<SharedRow, Memory>
    ensures { IfOk result (λ shared. shared ≡ row) }
{
    let row = Arc::new(alloc, row)?;
    Ok(SharedRow::of(row))
}

fn write_prepared(
    alloc: Global,
    turns: &Turns<Shard>,
    seat: &mut Seat<Shard>,
    turn: &mut Turn<Shard>,
    line: u32,
    change: Result<Change, Memory>,
) -> Result<WriteReply, Memory>
    requires inside { IsInside turns.now seat.old turn.old }
    requires fits { IfOk change (FitsIn (base_of turn.old.value)) }
    ensures step { (notes : List Note) × (numbers : List ℕ) × Puts by_of time_of seat.old seat.new turn.old.value.state.notes turn.new.value.state.notes notes numbers
        × MatchResult result (λ reply. IsOkAnd change (λ c. Writes seat.old.number line (written c) reply turn.old.value.state.notes notes numbers)) (λ _. IsIdle notes numbers) }
    ensures turn { IsGiven seat.new turn.new × (turn.new.slot ≡ turn.old.slot) }
    ensures base { base_of turn.new.value ≡ base_of turn.old.value }
{
    let change = change?;
    write_under(alloc, turns, seat, turn, line, change)
}

// The number is drawn once there is room, so that want of memory draws none.
fn write_under(
    alloc: Global,
    turns: &Turns<Shard>,
    seat: &mut Seat<Shard>,
    turn: &mut Turn<Shard>,
    line: u32,
    change: Change,
) -> Result<WriteReply, Memory>
    requires inside { IsInside turns.now seat.old turn.old }
    requires fits { FitsIn (base_of turn.old.value) change }
    ensures step { (notes : List Note) × (numbers : List ℕ) × Puts by_of time_of seat.old seat.new turn.old.value.state.notes turn.new.value.state.notes notes numbers
        × MatchResult result (λ reply. Writes seat.old.number line (written change) reply turn.old.value.state.notes notes numbers) (λ _. IsIdle notes numbers) }
    ensures turn { IsGiven seat.new turn.new × (turn.new.slot ≡ turn.old.slot) }
    ensures base { base_of turn.new.value ≡ base_of turn.old.value }
{
    turn.value_mut().reserve(alloc, 1)?;
    let ts = Timestamp(turns.draw(seat));
    let by = seat.number();
    let what = apply(turn.value_mut(), by, line, ts, change);
    Ok(WriteReply { ts, what })
}

fn apply(shard: &mut Shard, by: u64, line: u32, ts: Timestamp, change: Change) -> Wrote
    requires room { 1 ≤ shard.old.spare }
    requires dated { 1 ≤ ts.0 }
    requires below { AreBelow ts.0 shard.old.state.notes }
    requires fits { FitsIn (base_of shard.old) change }
    ensures step { Steps shard.old shard.new (note_of by line (kind_of ts (written change))) }
    ensures told { result ≡ told_of (written change) (fin.contains_key (live_in shard.old.state.notes) (key_of (written change))) }
{
    match change {
        Change::Put(how, row) => told_of_put(how, shard.put(by, line, ts, how, row)),
        Change::Remove(key) => Wrote::Was(shard.remove_key(by, line, ts, key)),
    }
}

fn told_of_put(how: PutKind, reply: PutReply) -> Wrote
    ensures { result ≡ put_told how reply }
{
    match (how, reply) {
        (_, PutReply::Exists) => Wrote::Exists,
        (PutKind::Insert, PutReply::Wrote { .. }) => Wrote::Inserted,
        (PutKind::Upsert, PutReply::Wrote { was }) => Wrote::Was(was),
    }
}
