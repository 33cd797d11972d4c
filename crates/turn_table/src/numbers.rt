//! Numbers that seats draw, and seats that are split off and joined.
ghost use Rattle.std.specs.Prelude.{◌≡◌, ℕ, ◌+◌, ◌-◌, ◌^◌, ◌<◌, ◌≤◌, [], ◌∷◌, ◌++◌, max};
ghost use Rattle.turn_facts.specs.Counts.{Among, NoneTwice};
ghost use Rattle.turn_facts.specs.Notes.{times};
ghost use Rattle.turn_table.specs.Knowledge.{at_slot, longer_each};
ghost use Rattle.turn_table.specs.Rule.{Grew};
ghost use Rattle.turn_table.specs.Seats.{part_of};

use crate::journalled::Journalled;
use crate::plays::{Draw, Lift, Name, Offer, Settle, Share, Unite};
use crate::seats::Seat;
use crate::tables::Turns;

impl<V: Journalled> Turns<V> {
    /// Draws a number that no seat drew before, above all timestamps that the seat has seen and all numbers that it drew.
    pub fn draw(&self, seat: &mut Seat<V>) -> u64
        requires table { seat.old.table ≡ self.now }
        requires allowance { 1 ≤ seat.old.allowance }
        ensures seat { seat.new ≡ record seat.old { drawn = seat.old.drawn ++ result ∷ []; allowance = seat.old.allowance - 1 } }
        ensures first { self.now.first ≤ result }
        ensures lifted { seat.old.least ≤ result }
        ensures drawn { (x : ℕ) → Among x seat.old.drawn → x < result }
        ensures seen { (k x : ℕ) → Among x (times V.time_of (at_slot seat.old.seen k)) → x < result }
    {
        self.lock.add_as::<Draw<V>>(&mut seat.pass, 0, 1)
    }

    /// From now on no number that this seat draws is below `least`.
    pub fn lift(&self, seat: &mut Seat<V>, least: u64)
        requires table { seat.old.table ≡ self.now }
        requires low { least < 2 ^ 63 }
        ensures { seat.new ≡ record seat.old { least = max seat.old.least least } }
    {
        self.lock.raise_as::<Lift>(&mut seat.pass, 0, least);
    }

    /// Splits off a seat with a number of its own and this allowance, which has seen what this seat has. The seat loses the allowance, and 1 more for the number.
    pub fn split(&self, seat: &mut Seat<V>, allowance: u64) -> Seat<V>
        requires table { seat.old.table ≡ self.now }
        requires amount { (1 ≤ allowance) × (allowance + 1 < seat.old.allowance) }
        ensures seat { seat.new ≡ record seat.old { allowance = seat.old.allowance - (allowance + 1) } }
        ensures other { result ≡ record seat.old { number = result.number; allowance = allowance; drawn = []; joined = []; turns = []; mark = 0 } }
        ensures number { (n : ℕ) → Among n (seat.old.number ∷ seat.old.joined) → n < result.number }
    {
        let number = self.lock.add_as::<Name>(&mut seat.pass, 1, 1);
        self.lock.read_as::<Offer>(&mut seat.pass, 0, allowance);
        let pass = self.lock.split_as::<Share>(&mut seat.pass);
        Seat { pass, number }
    }

    /// Takes in another seat: of each journal the longer of both as seen, the other's allowance, and the numbers that it drew. In the list of both no number stands twice, and of the notes of either's numbers there is none that it had not seen.
    pub fn join(&self, seat: &mut Seat<V>, other: Seat<V>)
        requires tables { (seat.old.table ≡ self.now) × (other.table ≡ self.now) }
        requires rest { (seat.old.turns ≡ []) × (other.turns ≡ []) }
        ensures seat { seat.new ≡ record seat.old { allowance = seat.old.allowance + other.allowance; drawn = seat.old.drawn ++ other.drawn; joined = seat.old.joined ++ other.number ∷ other.joined; least = max seat.old.least other.least; seen = longer_each seat.old.seen other.seen } }
        ensures drawn { NoneTwice seat.new.drawn }
        ensures numbers { NoneTwice (seat.new.number ∷ seat.new.joined) }
        ensures mine { Grew V.number_of seat.new.seen (part_of seat.old) }
        ensures others { Grew V.number_of seat.new.seen (part_of other) }
    {
        let Seat { pass, number: _ } = other;
        self.lock.join_as::<Unite>(&mut seat.pass, pass);
        self.lock.read_as::<Settle<V>>(&mut seat.pass, 0, 0);
    }
}
