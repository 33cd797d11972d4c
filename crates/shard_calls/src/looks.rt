//! Looks.

ghost use Rattle.std.specs.Prelude.{◌≡◌, ℕ, ◌+◌, ◌<◌, ◌≤◌, ◌++◌, [], ◌∷◌, List, true, false, MatchResult, IfOk, OnOk, OnErr};
ghost use Rattle.turn_facts.specs.Counts.{Among};
ghost use Rattle.turn_table.specs.Seats.{IsGiven};
ghost use Rattle.seat_walks.specs.Walks.{Turned, Took, Puts};
ghost use Rattle.journal_model.specs.declared.notes.Note.{Note};
ghost use Rattle.journal_model.specs.declared.notes.Kind.TheVariants.{Look};
ghost use Rattle.journal_model.specs.Notes.{note_of, tick_of};
ghost use Rattle.journal_model.specs.Answers.{answer_at};
ghost use Rattle.journal_model.specs.Runs.{IsSound};
ghost use Rattle.journal_model.specs.Views.{IsExact};
ghost use Rattle.channel_view.specs.Views.{view_in};
ghost use Rattle.shard_core.specs.Keys.{AreKeysIn};
ghost use Rattle.shard_core.specs.Shards.{Steps, base_of, looked_reply, IfServed, IsViewOf};
ghost use Rattle.call_model.specs.Turns.{by_of, time_of, Looks};
ghost use Rattle.call_model.specs.Walks.{Did};
ghost use Rattle.shard_calls.specs.Fronts.{base_at, IsReady, Spends};
ghost use Rattle.shard_calls.specs.Calls.{BreaksOff, Gives};
ghost use Rattle.shard_calls.specs.Under.{IsInside, CatchesUp};

use crate::calls::Call;
use crate::fronts::Front;
use crate::ticks::tick_reserved;
use hybrid_time::Timestamp;
use manu_edge::{At, Gate, Moments};
use row_types::Memory;
use shard_core::{Looked, Shard};
use std::alloc::Global;
use std::sync::Wait;
use turn_table::{Seat, Turn, Turns};

impl Front {
    /// Looks at a channel, under one turn: a view that is exact for the journal as the look leaves it,
    /// where its tick is not below the guarantee. Where it is below, a look that waits ticks first, at a
    /// number of its own, and one that does not is pending with the tick. Want of memory leaves at most
    /// that tick.
    pub fn look<R: Wait, M: Moments, G: Gate>(
        &self,
        alloc: Global,
        call: &Call<'_, R, M, G>,
        seat: &mut Seat<Shard>,
        channel: u32,
        guarantee: Timestamp,
        wait: bool,
    ) -> Result<Looked, Memory>
        requires seat { IsReady self.now.table 2 seat.old }
        requires channel { channel < self.now.collection.channels }
        requires guarantee { wait ≡ true → (x : ℕ) × Among x seat.old.drawn × (guarantee.0 ≤ x) }
        ensures did { (t : Turned Note) × Did seat.old (Took t ∷ []) seat.new × (t.slot ≡ channel)
            × MatchResult result
            (λ looked. Looks seat.old.number call.now.line guarantee.0 wait t.before t.notes t.drawn × Gives (base_at self.now.collection self.now.floor channel) guarantee.0 wait (t.before ++ t.notes) looked)
            (λ _. BreaksOff seat.old.number call.now.line guarantee.0 wait t.before t.notes t.drawn) }
        ensures spends { Spends 1 seat.old seat.new }
    {
        let turns = self.turns();
        let mut turn = turns.enter(call.rt, seat, channel as usize);
        call.pass(At::AfterEnter);
        let looked = look_under(alloc, turns, seat, &mut turn, call.line, guarantee, wait);
        turns.leave(seat, turn);
        call.pass(At::AfterLook);
        looked
    }
}

// Room for both notes is made before the number is drawn.
fn look_under(
    alloc: Global,
    turns: &Turns<Shard>,
    seat: &mut Seat<Shard>,
    turn: &mut Turn<Shard>,
    line: u32,
    guarantee: Timestamp,
    wait: bool,
) -> Result<Looked, Memory>
    requires inside { IsInside turns.now seat.old turn.old }
    requires guarantee { wait ≡ true → (x : ℕ) × Among x seat.old.drawn × (guarantee.0 ≤ x) }
    ensures step { (notes : List Note) × (numbers : List ℕ) × Puts by_of time_of seat.old seat.new turn.old.value.state.notes turn.new.value.state.notes notes numbers
        × MatchResult result
        (λ looked. Looks seat.old.number line guarantee.0 wait turn.old.value.state.notes notes numbers × Gives (base_of turn.old.value) guarantee.0 wait (turn.old.value.state.notes ++ notes) looked)
        (λ _. BreaksOff seat.old.number line guarantee.0 wait turn.old.value.state.notes notes numbers) }
    ensures turn { IsGiven seat.new turn.new × (turn.new.slot ≡ turn.old.slot) }
    ensures base { base_of turn.new.value ≡ base_of turn.old.value }
{
    turn.value_mut().reserve(alloc, 2)?;
    catch_up(turns, seat, turn, line, guarantee, wait);
    let by = seat.number();
    look_sound(turn.value_mut(), alloc, by, line, guarantee)
}

// The look of the shard, with what the shard keeps of its journal.
fn look_sound(
    shard: &mut Shard,
    alloc: Global,
    by: u64,
    line: u32,
    guarantee: Timestamp,
) -> Result<Looked, Memory>
    requires { 1 ≤ shard.old.spare }
    ensures step { OnOk result (Steps shard.old shard.new (note_of by line (Look guarantee))) }
    ensures answer { IfOk result (λ looked. answer_at shard.old.channel shard.old.state.notes (Look guarantee) ≡ looked_reply looked) }
    ensures view { IfOk result (λ looked. IfServed looked (IsViewOf shard.old)) }
    ensures exact { IfOk result (λ looked. IfServed looked (λ view. IsExact shard.old.state.notes (view_in view))) }
    ensures err { OnErr result (shard.new ≡ shard.old) }
    ensures sound { IsSound shard.new.channel shard.new.state }
    ensures keys { AreKeysIn shard.new.collection.channels shard.new.channel.number shard.new.state.notes }
{
    let looked = shard.look(alloc, by, line, guarantee);
    let _floor = shard.floor();
    let _channel = shard.channel();
    looked
}

/// Ticks, where a look that waits finds the tick below its guarantee.
fn catch_up(
    turns: &Turns<Shard>,
    seat: &mut Seat<Shard>,
    turn: &mut Turn<Shard>,
    line: u32,
    guarantee: Timestamp,
    wait: bool,
)
    requires inside { IsInside turns.now seat.old turn.old }
    requires room { 2 ≤ turn.old.value.spare }
    requires guarantee { wait ≡ true → (x : ℕ) × Among x seat.old.drawn × (guarantee.0 ≤ x) }
    ensures step { (notes : List Note) × (numbers : List ℕ) × Puts by_of time_of seat.old seat.new turn.old.value.state.notes turn.new.value.state.notes notes numbers
        × CatchesUp seat.old.number line guarantee.0 wait turn.old.value.state.notes notes numbers }
    ensures reached { wait ≡ true → guarantee.0 ≤ tick_of turn.new.value.state.notes }
    ensures room { 1 ≤ turn.new.value.spare }
    ensures turn { IsGiven seat.new turn.new × (turn.new.slot ≡ turn.old.slot) }
    ensures base { base_of turn.new.value ≡ base_of turn.old.value }
{
    if needs_no_tick(wait, turn.value().tick_now(), guarantee) {
        return;
    }
    tick_reserved(turns, seat, turn, line);
}

fn needs_no_tick(wait: bool, tick: Timestamp, guarantee: Timestamp) -> bool
    ensures yes { result ≡ true → wait ≡ true → guarantee.0 ≤ tick.0 }
    ensures no { result ≡ false → (wait ≡ true) × (tick.0 < guarantee.0) }
{
    !wait || tick >= guarantee
}
