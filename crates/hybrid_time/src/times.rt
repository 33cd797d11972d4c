//! The timestamp.

ghost use Rattle.std.specs.Prelude.{◌≡◌};
ghost use Rattle.hybrid_time.specs.Times.{physical_of, of_moment};

/// The bits below the physical part, which count within one millisecond.
const LOGICAL_BITS: u32 = 18;

/// The greatest physical part.
const LAST_MOMENT: u64 = (1 << 45) - 1;

/// A point in the order of all writes and snapshots: milliseconds, then 18 bits that count within
/// one millisecond.
#[derive(Debug, Clone, Copy, PartialEq, Eq, PartialOrd, Ord, Hash)]
pub struct Timestamp(pub u64);

impl Timestamp {
    /// The milliseconds of the timestamp.
    pub fn physical(self) -> u64
        ensures { result ≡ physical_of self.0 }
    {
        self.0 >> LOGICAL_BITS
    }

    /// The first timestamp of a millisecond; moments that are too late to have one of their own get
    /// that of the last moment that has.
    pub fn of_moment(ms: u64) -> Timestamp
        ensures { result.0 ≡ of_moment ms }
    {
        Timestamp(ms.min(LAST_MOMENT) << LOGICAL_BITS)
    }
}
