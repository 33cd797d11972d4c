//! The levels of consistency.

ghost use Rattle.std.specs.Prelude.{◌≡◌};
ghost use Rattle.hybrid_time.specs.Levels.{guarantee_of};

use crate::times::Timestamp;

/// How fresh the snapshot of a search has to be.
#[derive(Debug, Clone, Copy, PartialEq, Eq)]
pub enum Level {
    /// Every write before the search is seen.
    Strong,
    /// Every write that is older than this many milliseconds is seen.
    Bounded { delta_ms: u32 },
    /// The caller's own writes are seen.
    Session,
    /// Nothing is promised.
    Eventually,
}

/// The least timestamp that a snapshot may have, for a search at `now` by a caller whose last write
/// was at `mine`.
pub fn guarantee(level: Level, now: Timestamp, mine: Timestamp) -> Timestamp
    ensures { result.0 ≡ guarantee_of level now.0 mine.0 }
{
    match level {
        Level::Strong => now,
        Level::Bounded { delta_ms } => {
            let staleness = Timestamp::of_moment(u64::from(delta_ms));
            Timestamp(now.0.saturating_sub(staleness.0))
        }
        Level::Session => mine,
        Level::Eventually => Timestamp(0),
    }
}
