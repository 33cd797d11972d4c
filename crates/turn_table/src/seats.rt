//! Seats.
ghost use Rattle.std.specs.Prelude.{◌≡◌};

use crate::journalled::Journalled;
use crate::knows::Know;
use std::marker::Model;
use turn_lock::Pass;

/// What one thread takes turns with. It shows its table, its number, its allowance of numbers to draw, those that it drew, the seats that were joined to it, and what it has seen of each journal.
#[derive(Drop)]
pub struct Seat<V: Journalled> {
    pub(crate) pass: Pass<V, Know<V::Note, V::Base>>,
    pub(crate) number: u64,
}

impl<V: Journalled> Model for Seat<V> {
    ghost use Rattle.turn_table.specs.Seats.{SeatView, seat_view, IsSeat};

    ghost Value = { SeatView V.Note V.Base };

    ghost view = { λ s. seat_view s.pass };

    ghost invariant = { λ s. IsSeat s.pass s.number };
}

impl<V: Journalled> Seat<V> {
    /// The number of the seat.
    pub fn number(&self) -> u64
        ensures { result ≡ self.now.number }
    {
        self.number
    }
}
