//! Moves that were begun.

ghost use Rattle.std.specs.Prelude.{◌≡◌};

use journal_model::{Home, MoveError};
use seg_sealed::Part;
use std::marker::Model;

/// A move of a segment that was begun: its part as it stood then, to be flushed and fetched while the
/// channel goes on. Contracts see the part, the home, and how many notes the journal had.
#[derive(Drop)]
pub struct Moving {
    pub(crate) part: Part,
    pub(crate) home: Home,
    pub(crate) begun: u64,
}

impl Model for Moving {
    ghost use Rattle.shard_core.specs.Moves.{BegunMove};

    ghost Value = { BegunMove };

    ghost view = { λ m. record { part = m.part; home = m.home; begun = m.begun } };
}

impl Moving {
    /// The part of the segment, with the marks of the deaths up to where the move began.
    pub fn part(&self) -> &Part
        ensures { result.now ≡ self.now.part }
    {
        &self.part
    }

    /// The home that the segment is moved from.
    pub fn home(&self) -> Home
        ensures { result ≡ self.now.home }
    {
        self.home
    }

    /// The position of the journal at which the move began.
    pub fn begun(&self) -> u64
        ensures { result ≡ self.now.begun }
    {
        self.begun
    }
}

/// What was handed in to a call that was refused, and why it was.
#[derive(Debug, Drop)]
pub struct Back<T> {
    pub value: T,
    pub why: MoveError,
}
