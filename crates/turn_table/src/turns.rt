//! Turns: how a seat gets a value, works on it, and gives it back.
ghost use Rattle.std.specs.Prelude.{◌≡◌, ℕ, ◌<◌, [], ◌∷◌, length, slice_set};
ghost use Rattle.std.specs.Borrow.{Lends, sem};
ghost use Rattle.turn_facts.specs.Counts.{Among};
ghost use Rattle.turn_facts.specs.Notes.{of, Adds};
ghost use Rattle.turn_facts.specs.Prefixes.{StartsWith, IsAt};
ghost use Rattle.turn_lock.specs.Tickets.{inside};
ghost use Rattle.turn_table.specs.Knowledge.{at_slot};
ghost use Rattle.turn_table.specs.Seats.{IsGiven, fresh, with_value};
ghost use Rattle.turn_table.specs.contracts.turns.Turn.{the_row};

use crate::journalled::Journalled;
use crate::plays::{Count, Enter, Leave};
use crate::seats::Seat;
use crate::tables::Turns;
use std::sync::Wait;

/// A value that a seat has for a while. It can't be dropped: `leave` takes it back.
pub struct Turn<V> {
    pub(crate) value: V,
    pub(crate) slot: usize,
    pub(crate) number: u64,
    // How many notes the journal had.
    pub(crate) before: u64,
}

impl<V> Turn<V> {
    /// The value.
    pub fn value(&self) -> &V
        ensures { result.now ≡ self.now.value }
    {
        &self.value
    }

    /// The value, to work on.
    pub fn value_mut(&mut self) -> &mut V
        ensures* writes_back { sem 𝓛 (Lends (the_row V.row) V.row self.entry result (with_value self.old)) }
        ensures value { result.now ≡ self.old.value }
    {
        &mut self.value
    }

    /// The slot of the value.
    pub fn slot(&self) -> usize
        ensures { result ≡ self.now.slot }
    {
        self.slot
    }
}

impl<V: Journalled> Turns<V> {
    /// Waits for the earlier tickets of the slot, and takes its value. The seat has then seen the whole journal, which begins with what it had seen; the notes in it of the seat itself, and of the seats that were joined to it, are those that it had seen. The value has the base that it had when the table was made.
    pub fn enter<R: Wait>(&self, rt: &R, seat: &mut Seat<V>, slot: usize) -> Turn<V>
        requires table { seat.old.table ≡ self.now }
        requires slot { slot < length self.now.bases }
        requires rest { seat.old.turns ≡ [] }
        ensures seat { seat.new ≡ record seat.old { seen = slice_set seat.old.seen slot (V.journal result.value); turns = inside slot result.number ∷ []; mark = length seat.old.drawn } }
        ensures turn { IsGiven seat.new result × (result.slot ≡ slot) }
        ensures more { StartsWith (V.journal result.value) (at_slot seat.old.seen slot) }
        ensures mine { (n : ℕ) → Among n (seat.old.number ∷ seat.old.joined) → of V.number_of n (V.journal result.value) ≡ of V.number_of n (at_slot seat.old.seen slot) }
        ensures base { IsAt self.now.bases slot (V.base result.value) }
    {
        let turn_lock::Turn {
            value,
            slot,
            number,
        } = self.lock.enter_as::<Enter<V>, R>(rt, &mut seat.pass, slot);
        let before = value.notes();
        Turn {
            value,
            slot,
            number,
            before,
        }
    }

    /// Gives the value back. What the turn added to its journal is notes of this seat whose timestamps the seat drew meanwhile; the base is as it was.
    pub fn leave(&self, seat: &mut Seat<V>, turn: Turn<V>)
        requires table { seat.old.table ≡ self.now }
        requires turn { IsGiven seat.old turn }
        requires notes { Adds V.number_of V.time_of seat.old.number (fresh seat.old) (at_slot seat.old.seen turn.slot) (V.journal turn.value) }
        requires base { IsAt self.now.bases turn.slot (V.base turn.value) }
        ensures { seat.new ≡ record seat.old { seen = slice_set seat.old.seen turn.slot (V.journal turn.value); turns = [] } }
    {
        let Turn {
            value,
            slot,
            number,
            before,
        } = turn;
        let more = value.notes() - before;
        let turn = turn_lock::Turn {
            value,
            slot,
            number,
        };
        let turn = self
            .lock
            .count_as::<Count<V>>(&mut seat.pass, turn, slot + 2, more);
        self.lock.leave_as::<Leave>(&mut seat.pass, turn);
    }
}
