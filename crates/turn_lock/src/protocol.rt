//! How a layer above states what it knows of a lock that other threads use too.
ghost use Rattle.std.specs.Prelude.{ℕ, List};
ghost use Rattle.turn_lock.specs.Client.{Homes};

pub use atomic_table::{Join, Split};

/// A client's rule over a lock of values `S`, whose seats know `C`, and that is told a `K` when it is made.
pub trait Protocol<S, C, K> {
    // Of the client's words, the values at home, and what each seat knows.
    ghost holds: { List ℕ → Homes S → List C → Type 0 };

    /// What the first seat knows.
    ghost first: { K → C };
}

/// What it tells to be served: of what was known, the slot, its value, and what is known now.
pub trait Takes<S, C> {
    ghost took: { C → ℕ → S → C → Type 0 };
}

/// What it tells to give a value back: of what was known, the slot, the value, and what is known now.
pub trait Leaves<S, C> {
    ghost gave: { C → ℕ → S → C → Type 0 };
}

/// What a step on a word of the client's tells: of what was known, the operand, the number found, and what is known now.
pub trait Learns<C> {
    ghost learnt: { C → ℕ → ℕ → C → Type 0 };
}

/// The same for a step that is taken with a value in hand: of what was known, the slot, the value, the operand, the number found, and what is known now.
pub trait Counts<S, C> {
    ghost counted: { C → ℕ → S → ℕ → ℕ → C → Type 0 };
}
