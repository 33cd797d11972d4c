//! The clock.

ghost use Rattle.std.specs.Prelude.{◌≡◌, ℕ, ◌≤◌};

/// The moments at which requests begin, in milliseconds.
pub trait Moments {
    // no moment is below this number
    ghost least: { Self → ℕ };

    /// The moment of this call.
    fn now(&self) -> u64
        ensures { least self.now ≤ result };
}

/// A clock that stands still.
#[derive(Debug, Clone, Copy, PartialEq, Eq)]
pub struct FixedMoments(pub u64);

impl Moments for FixedMoments {
    ghost least = { λ moments. moments.0 };

    fn now(&self) -> u64
        ensures least { self.now.0 ≤ result }
        ensures fixed { result ≡ self.now.0 }
    {
        self.0
    }
}
