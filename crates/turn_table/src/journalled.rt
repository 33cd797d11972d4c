//! What a value behind turns stands for.
ghost use Rattle.std.specs.Prelude.{◌≡◌, ◌^◌, ◌<◌, length};

/// A value that stands for a journal of notes, and for a base that no turn changes.
pub trait Journalled {
    /// One entry of the journal.
    type Note;
    /// Plain data that stays as it is.
    type Base;

    ghost use Rattle.std.specs.Prelude.{ℕ, List, Option};

    ghost journal: { Self → List Self.Note };

    ghost base: { Self → Self.Base };
    // The number of the seat that wrote a note, and the note's timestamp, if it has one.
    ghost number_of: { Self.Note → ℕ };

    ghost time_of: { Self.Note → Option ℕ };

    /// The number of notes.
    fn notes(&self) -> u64
        ensures count { result ≡ length (journal self.now) }
        ensures few { result < 2 ^ 56 };
}
