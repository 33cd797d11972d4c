//! The front: the shards of all channels of a collection, behind turns.

ghost use Rattle.std.specs.Prelude.{◌≡◌, ℕ, ◌+◌, ◌-◌, ◌^◌, ◌<◌, ◌≤◌, [], ◌∷◌, length, map, max, IfOk, IfErr};
ghost use Rattle.coarse_lists.specs.declared.collections.Collection.{Collection};
ghost use Rattle.coarse_lists.specs.Collections.{IsInRange};
ghost use Rattle.hybrid_time.specs.Times.{of_moment};
ghost use Rattle.turn_facts.specs.Counts.{count, Among};
ghost use Rattle.turn_facts.specs.Notes.{of, times};
ghost use Rattle.turn_facts.specs.Prefixes.{IsAt};
ghost use Rattle.turn_table.specs.Knowledge.{at_slot};
ghost use Rattle.turn_table.specs.Seats.{first_seat};
ghost use Rattle.seat_walks.specs.Walks.{Draw, Lift};
ghost use Rattle.shard_core.specs.Keys.{channel_of as channel_of_key};
ghost use Rattle.shard_core.specs.Shards.{ChannelShard, base_of};
ghost use Rattle.call_model.specs.Turns.{by_of, time_of};
ghost use Rattle.call_model.specs.Walks.{Did};
ghost use Rattle.shard_calls.specs.Fronts.{notes_of, AreShards, IsFront, IsReady, Spends};

use crate::calls::Call;
use coarse_lists::Collection;
use hybrid_time::Timestamp;
use manu_edge::{At, Gate, Moments};
use row_types::{Key, Memory};
use shard_core::Shard;
use std::alloc::Global;
use std::marker::Model;
use std::sync::{Arc, Wait};
use turn_table::{Seat, Turns};

/// The shards of all channels of a collection, each behind turns of its own. It shows the table of
/// turns, the collection, and the floor of all shards.
#[derive(Drop)]
pub struct Front {
    turns: Turns<Shard>,
    collection: Arc<Collection, Global>,
    floor: Timestamp,
}

impl Model for Front {
    ghost use Rattle.std.specs.Arc.{arc_value};
    ghost use Rattle.shard_calls.specs.Fronts.{FrontView, IsFront, front_of};

    ghost Value = { FrontView };

    ghost view = { λ f. front_of f.turns (arc_value f.collection) f.floor.0 };

    ghost invariant = { λ f. IsFront (front_of f.turns (arc_value f.collection) f.floor.0) };
}

impl Front {
    /// Puts the shards of all channels, in their order, behind turns, and gives the first seat, which
    /// has seen all journals. `first`, the least number to be drawn, is above all timestamps. Want of
    /// memory gives the shards back.
    pub fn new(
        alloc: Global,
        shards: Vec<Shard>,
        first: u64,
    ) -> Result<(Front, Seat<Shard>), (Vec<Shard>, Memory)>
        requires shards { AreShards shards.items }
        requires first { (1 ≤ first) × (first < 2 ^ 63 + 2 ^ 60) }
        requires above { (k : ℕ) (x : ChannelShard) (t : ℕ) → IsAt shards.items k x → Among t (times time_of x.state.notes) → t < first }
        ensures first { IfOk result (λ made. made.0.table.first ≡ first) }
        ensures bases { IfOk result (λ made. made.0.table.bases ≡ map base_of shards.items) }
        ensures seat { IfOk result (λ made. made.1 ≡ first_seat made.0.table (map notes_of shards.items)) }
        ensures front { IfOk result (λ made. IsFront made.0) }
        ensures refused { IfErr result (λ e. e.0.items ≡ shards.items) }
    {
        let lead = &shards[0];
        let floor = lead.floor();
        let Ok(collection) = lead.shared_collection() else {
            return Err((shards, Memory));
        };
        let (turns, seat) = Turns::new(alloc, shards, first)?;
        let front = Front {
            turns,
            collection,
            floor,
        };
        Ok((front, seat))
    }

    /// The table of turns.
    pub fn turns(&self) -> &Turns<Shard>
        ensures table { result.now ≡ self.now.table }
        ensures front { IsFront self.now }
    {
        &self.turns
    }

    /// The collection of all shards.
    pub fn collection(&self) -> &Collection
        ensures collection { result.now ≡ self.now.collection }
        ensures range { IsInRange result.now }
    {
        &self.collection
    }

    /// The floor of all shards.
    pub fn floor(&self) -> Timestamp
        ensures { result.0 ≡ self.now.floor }
    {
        self.floor
    }

    /// The channel of a key.
    pub fn channel_of(&self, key: Key) -> u32
        ensures channel { result ≡ channel_of_key self.now.collection.channels key.0 }
        ensures there { result < self.now.collection.channels }
    {
        let channels = i64::from(self.collection.channels);
        key.0.rem_euclid(channels) as u32
    }

    /// Takes the turns away, once every other seat was joined to this one: the shards in their order,
    /// with the bases that they had and the journals that the seat has seen, to which no notes were
    /// added but of the numbers of this seat and of those joined to it; and the next number.
    pub fn close(self, seat: Seat<Shard>) -> (Vec<Shard>, u64)
        requires table { seat.table ≡ self.table }
        requires rest { seat.turns ≡ [] }
        requires all { seat.allowance + (length seat.drawn + length seat.joined) ≡ 2 ^ 40 }
        ensures journals { map notes_of result.0.items ≡ seat.seen }
        ensures bases { map base_of result.0.items ≡ self.table.bases }
        ensures whose { (k n : ℕ) → count n (seat.number ∷ seat.joined) ≡ 0 → of by_of n (at_slot seat.seen k) ≡ of by_of n (at_slot seat.origin k) }
        ensures first { self.table.first ≤ result.1 }
        ensures since { (x : ℕ) → Among x seat.drawn → self.table.first ≤ x }
        ensures drawn { (x : ℕ) → Among x seat.drawn → x < result.1 }
        ensures times { (k x : ℕ) → Among x (times time_of (at_slot seat.seen k)) → x < result.1 }
        ensures most { result.1 ≤ 2 ^ 40 + max self.table.first (2 ^ 63) }
    {
        let Front {
            turns,
            collection: _,
            floor: _,
        } = self;
        turns.close(seat)
    }

    /// Begins the work of a line: passes the gate's `Start`, reads the moment, and from then on the seat
    /// draws no number below the first of that moment. A request calls it once.
    pub fn start<R: Wait, M: Moments, G: Gate>(
        &self,
        call: &Call<'_, R, M, G>,
        seat: &mut Seat<Shard>,
    )
        requires table { seat.old.table ≡ self.now.table }
        ensures did { (moment : ℕ) × (M.least call.now.moments.now ≤ moment) × Did seat.old (Lift (of_moment moment) ∷ []) seat.new }
        ensures spends { Spends 0 seat.old seat.new }
    {
        call.pass(At::Start);
        let moment = call.moments.now();
        self.turns().lift(seat, Timestamp::of_moment(moment).0);
    }

    /// Draws a number, outside of turns.
    pub fn draw(&self, seat: &mut Seat<Shard>) -> Timestamp
        requires table { seat.old.table ≡ self.now.table }
        requires allowance { 1 ≤ seat.old.allowance }
        ensures did { Did seat.old (Draw result.0 ∷ []) seat.new }
        ensures drawn { Among result.0 seat.new.drawn }
        ensures spends { Spends 1 seat.old seat.new }
    {
        Timestamp(self.turns().draw(seat))
    }
}
