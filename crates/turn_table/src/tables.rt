//! The table.
ghost use Rattle.std.specs.Prelude.{◌≡◌, ◌+◌, map, length};

use crate::journalled::Journalled;
use crate::knows::Know;
use std::marker::{Model, PhantomData};
use std::snapshot::Snapshot;
use turn_lock::{Protocol, TurnLock};

/// What a table begins with: its values, and the least number that is to be drawn. It is for the proofs alone.
#[derive(Drop)]
pub struct Opening<V> {
    pub(crate) values: Snapshot<Vec<V>>,
    pub(crate) first: u64,
}

/// What is true of a table between any two steps.
pub struct Knowing<V> {
    marker: PhantomData<V>,
}

impl<V: Journalled> Protocol<V, Know<V::Note, V::Base>, Opening<V>> for Knowing<V> {
    ghost use Rattle.turn_table.specs.Knowledge.{opening};
    ghost use Rattle.turn_table.specs.Rule.{Kept};
    ghost use Rattle.std.specs.Prelude.{map};

    ghost holds = { Kept V.journal V.base V.number_of V.time_of };

    ghost first = { λ key. opening (map V.journal key.values.value.items) (map V.base key.values.value.items) key.first };
}

/// Values that seats take turns with, one in each slot, and the clock of the numbers that they draw. It shows which table it is, the least number that was ever to be drawn, and the base of each value.
#[derive(Drop)]
pub struct Turns<V: Journalled> {
    pub(crate) lock: TurnLock<V, Know<V::Note, V::Base>, Opening<V>, Knowing<V>>,
}

impl<V: Journalled> Model for Turns<V> {
    ghost use Rattle.std.specs.Prelude.{◌≡◌, ◌+◌, map, length};
    ghost use Rattle.turn_table.specs.Seats.{Table};
    ghost use Rattle.turn_lock.specs.Passes.{slot_count, word_count};

    ghost Value = { Table V.Base };

    ghost view = { λ t. record { id = t.lock.table.shared.table_id; first = t.lock.table.shared.key.first; bases = map V.base t.lock.table.shared.key.values.value.items } };

    ghost invariant = { λ t. (slot_count t.lock ≡ length t.lock.table.shared.key.values.value.items) × (word_count t.lock ≡ length t.lock.table.shared.key.values.value.items + 2) };
}
