//! How a table begins and ends.
ghost use Rattle.std.specs.Prelude.{◌≡◌, ℕ, ◌+◌, ◌^◌, ◌<◌, ◌≤◌, [], ◌∷◌, map, length, max, IfOk, IfErr, vec_capacity, vec_len};
ghost use Rattle.turn_facts.specs.Counts.{count, Among};
ghost use Rattle.turn_facts.specs.Notes.{of, times};
ghost use Rattle.turn_facts.specs.Prefixes.{IsAt};
ghost use Rattle.turn_table.specs.Knowledge.{at_slot};
ghost use Rattle.turn_table.specs.Rule.{first_words};
ghost use Rattle.turn_table.specs.Seats.{first_seat};

use crate::journalled::Journalled;
use crate::seats::Seat;
use crate::tables::{Opening, Turns};
use row_types::Memory;
use std::alloc::Global;
use std::snapshot::Snapshot;
use turn_lock::TurnLock;

// The words of a table: the clock, the next number of a seat, and the number of notes of each value.
fn words_of<V: Journalled>(alloc: Global, values: &[V], first: u64) -> Result<Vec<u64>, Memory>
    requires { length values.now ≤ 16 }
    ensures { IfOk result (λ words. words.items ≡ first_words V.journal first values.now) }
{
    let mut words = Vec::with_capacity(alloc, values.len() + 2)?;
    words.push_reserved(first);
    words.push_reserved(1);
    for value in values {
        words.push_reserved(value.notes());
    }
    Ok(words)
}

impl<V: Journalled> Turns<V> {
    /// Makes a table of 1 to 16 values and its first seat, which has seen all of each journal. `first` is above every timestamp in the journals. Where memory is wanting, the values come back.
    pub fn new(
        alloc: Global,
        values: Vec<V>,
        first: u64,
    ) -> Result<(Turns<V>, Seat<V>), (Vec<V>, Memory)>
        requires count { (1 ≤ length values.items) × (length values.items ≤ 16) }
        requires first { (1 ≤ first) × (first < 2 ^ 63 + 2 ^ 60) }
        requires above { (k : ℕ) (x : V) (t : ℕ) → IsAt values.items k x → Among t (times V.time_of (V.journal x)) → t < first }
        ensures table { IfOk result (λ made. (made.0.first ≡ first) × (made.0.bases ≡ map V.base values.items)) }
        ensures seat { IfOk result (λ made. made.1 ≡ first_seat made.0 (map V.journal values.items)) }
        ensures refused { IfErr result (λ e. e.0.items ≡ values.items) }
    {
        let Ok(words) = words_of(alloc, values.as_slice(), first) else {
            return Err((values, Memory));
        };
        let opening = Opening {
            values: Snapshot::of(&values),
            first,
        };
        let (lock, pass) = TurnLock::new(alloc, values, words.as_slice(), &opening)?;
        let turns = Turns { lock };
        Ok((turns, Seat { pass, number: 0 }))
    }

    /// Ends the table, once every other seat was joined to this one. It gives the values in their order, in the vector that `new` was given, each with the base that it had there and with the journal that the seat has seen whole, to which since `new` no notes were added but of the numbers of this seat and of those joined to it; and the number that would have been drawn next.
    pub fn close(self, seat: Seat<V>) -> (Vec<V>, u64)
        requires table { seat.table ≡ self }
        requires rest { seat.turns ≡ [] }
        requires all { seat.allowance + (length seat.drawn + length seat.joined) ≡ 2 ^ 40 }
        ensures journals { map V.journal result.0.items ≡ seat.seen }
        ensures bases { map V.base result.0.items ≡ self.bases }
        ensures whose { (k n : ℕ) → count n (seat.number ∷ seat.joined) ≡ 0 → of V.number_of n (at_slot seat.seen k) ≡ of V.number_of n (at_slot seat.origin k) }
        ensures first { self.first ≤ result.1 }
        ensures since { (x : ℕ) → Among x seat.drawn → self.first ≤ x }
        ensures drawn { (x : ℕ) → Among x seat.drawn → x < result.1 }
        ensures times { (k x : ℕ) → Among x (times V.time_of (at_slot seat.seen k)) → x < result.1 }
        ensures most { result.1 ≤ 2 ^ 40 + max self.first (2 ^ 63) }
    {
        let Turns { lock } = self;
        let Seat { pass, number: _ } = seat;
        lock.close(pass, 0)
    }
}
