//! Ticks and seals.

ghost use Rattle.std.specs.Prelude.{◌≡◌, ℕ, ◌+◌, ◌<◌, ◌≤◌, [], ◌∷◌, List, MatchResult};
ghost use Rattle.turn_facts.specs.Counts.{Among};
ghost use Rattle.turn_table.specs.Seats.{IsGiven};
ghost use Rattle.seat_walks.specs.Walks.{Turned, Took, Puts};
ghost use Rattle.journal_model.specs.declared.notes.Kind.TheVariants.{Tick};
ghost use Rattle.journal_model.specs.declared.notes.Note.{Note};
ghost use Rattle.journal_model.specs.Notes.{note_of};
ghost use Rattle.shard_core.specs.Shards.{base_of, rows_of};
ghost use Rattle.call_model.specs.Turns.{by_of, time_of, Ticks, Seals};
ghost use Rattle.call_model.specs.Calls.{channel_at};
ghost use Rattle.call_model.specs.Walks.{Did};
ghost use Rattle.shard_calls.specs.Fronts.{IsReady, Spends};
ghost use Rattle.shard_calls.specs.Calls.{IsIdle};
ghost use Rattle.shard_calls.specs.Under.{IsInside};

use crate::calls::Call;
use crate::fronts::Front;
use hybrid_time::Timestamp;
use manu_edge::{At, Gate, Moments};
use row_types::Memory;
use shard_core::{SealReply, Shard};
use std::alloc::Global;
use std::sync::Wait;
use turn_table::{Seat, Turn, Turns};

impl Front {
    /// Ticks a channel, under one turn: one note at one number, which is the answer. Want of memory draws
    /// nothing and adds nothing.
    pub fn tick<R: Wait, M: Moments, G: Gate>(
        &self,
        alloc: Global,
        call: &Call<'_, R, M, G>,
        seat: &mut Seat<Shard>,
        channel: u32,
    ) -> Result<Timestamp, Memory>
        requires seat { IsReady self.now.table 2 seat.old }
        requires channel { channel < self.now.collection.channels }
        ensures did { (t : Turned Note) × Did seat.old (Took t ∷ []) seat.new × (t.slot ≡ channel)
            × MatchResult result (λ ts. Ticks seat.old.number call.now.line ts.0 t.notes t.drawn) (λ _. IsIdle t.notes t.drawn) }
        ensures spends { Spends 1 seat.old seat.new }
    {
        let turns = self.turns();
        let mut turn = turns.enter(call.rt, seat, channel as usize);
        call.pass(At::AfterEnter);
        let done = tick_under(alloc, turns, seat, &mut turn, call.line);
        turns.leave(seat, turn);
        done
    }

    /// Seals a channel, under one turn: one note at one number. It answers the number, and how many rows
    /// the tail had, which are a segment from then on. Want of memory draws nothing and adds nothing.
    pub fn seal<R: Wait, M: Moments, G: Gate>(
        &self,
        alloc: Global,
        call: &Call<'_, R, M, G>,
        seat: &mut Seat<Shard>,
        channel: u32,
    ) -> Result<(Timestamp, u32), Memory>
        requires seat { IsReady self.now.table 2 seat.old }
        requires channel { channel < self.now.collection.channels }
        ensures did { (t : Turned Note) × Did seat.old (Took t ∷ []) seat.new × (t.slot ≡ channel)
            × MatchResult result (λ seal. Seals (channel_at self.now.collection channel) seat.old.number call.now.line seal.0.0 seal.1 t.before t.notes t.drawn) (λ _. IsIdle t.notes t.drawn) }
        ensures spends { Spends 1 seat.old seat.new }
    {
        let turns = self.turns();
        let mut turn = turns.enter(call.rt, seat, channel as usize);
        call.pass(At::AfterEnter);
        let done = seal_under(alloc, turns, seat, &mut turn, call.line);
        turns.leave(seat, turn);
        done
    }
}

fn tick_under(
    alloc: Global,
    turns: &Turns<Shard>,
    seat: &mut Seat<Shard>,
    turn: &mut Turn<Shard>,
    line: u32,
) -> Result<Timestamp, Memory>
    requires inside { IsInside turns.now seat.old turn.old }
    ensures step { (notes : List Note) × (numbers : List ℕ) × Puts by_of time_of seat.old seat.new turn.old.value.state.notes turn.new.value.state.notes notes numbers
        × MatchResult result (λ ts. Ticks seat.old.number line ts.0 notes numbers) (λ _. IsIdle notes numbers) }
    ensures turn { IsGiven seat.new turn.new × (turn.new.slot ≡ turn.old.slot) }
    ensures base { base_of turn.new.value ≡ base_of turn.old.value }
{
    turn.value_mut().reserve(alloc, 1)?;
    Ok(tick_reserved(turns, seat, turn, line))
}

/// Ticks at a number that the seat draws, where there is room for the note.
pub(crate) fn tick_reserved(
    turns: &Turns<Shard>,
    seat: &mut Seat<Shard>,
    turn: &mut Turn<Shard>,
    line: u32,
) -> Timestamp
    requires inside { IsInside turns.now seat.old turn.old }
    requires room { 1 ≤ turn.old.value.spare }
    ensures step { Puts by_of time_of seat.old seat.new turn.old.value.state.notes turn.new.value.state.notes (note_of seat.old.number line (Tick result) ∷ []) (result.0 ∷ []) }
    ensures above { (x : ℕ) → Among x seat.old.drawn → x < result.0 }
    ensures spare { turn.old.value.spare ≡ turn.new.value.spare + 1 }
    ensures turn { IsGiven seat.new turn.new × (turn.new.slot ≡ turn.old.slot) }
    ensures base { base_of turn.new.value ≡ base_of turn.old.value }
{
    let ts = Timestamp(turns.draw(seat));
    let by = seat.number();
    turn.value_mut().tick(by, line, ts);
    ts
}

fn seal_under(
    alloc: Global,
    turns: &Turns<Shard>,
    seat: &mut Seat<Shard>,
    turn: &mut Turn<Shard>,
    line: u32,
) -> Result<(Timestamp, u32), Memory>
    requires inside { IsInside turns.now seat.old turn.old }
    ensures step { (notes : List Note) × (numbers : List ℕ) × Puts by_of time_of seat.old seat.new turn.old.value.state.notes turn.new.value.state.notes notes numbers
        × MatchResult result (λ seal. Seals turn.old.value.channel seat.old.number line seal.0.0 seal.1 turn.old.value.state.notes notes numbers) (λ _. IsIdle notes numbers) }
    ensures turn { IsGiven seat.new turn.new × (turn.new.slot ≡ turn.old.slot) }
    ensures base { base_of turn.new.value ≡ base_of turn.old.value }
{
    turn.value_mut().reserve(alloc, 1)?;
    let ts = Timestamp(turns.draw(seat));
    let by = seat.number();
    let rows = rows_sealed(turn.value_mut().seal(by, line, ts));
    Ok((ts, rows))
}

fn rows_sealed(reply: SealReply) -> u32
    ensures { result ≡ rows_of reply }
{
    match reply {
        SealReply::Sealed { rows, .. } => rows,
        SealReply::Empty => 0,
    }
}
