//! Whether moments count.

ghost use Rattle.std.specs.Prelude.{◌≤◌};
ghost use Rattle.manu_serve.specs.Paces.{least_of};

use manu_edge::Moments;

/// Whether moments count.
#[derive(Debug, Clone, Copy, PartialEq, Eq)]
pub enum Pace {
    /// Every moment is taken as 0, so that a run repeats.
    Still,
    /// Moments are read from the clock.
    Moving,
}

/// A clock that is read only where its moments count.
#[derive(Drop)]
pub struct Paced<'a, M> {
    pub pace: Pace,
    pub moments: &'a M,
}

impl<M: Moments> Moments for Paced<'_, M> {
    ghost least = { λ paced. least_of paced.pace (M.least paced.moments.now) };

    fn now(&self) -> u64 {
        match self.pace {
            Pace::Still => 0,
            Pace::Moving => self.moments.now(),
        }
    }
}
