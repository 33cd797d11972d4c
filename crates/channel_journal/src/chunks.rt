//! The memory of some notes, which never moves.

ghost use Rattle.std.specs.Prelude.{◌≡◌, ◌<◌, ◌≤◌, ◌++◌, ◌∷◌, [], length, slice_get, Some, IfOk};

use journal_model::Note;
use row_types::Memory;
use std::alloc::Global;
use std::marker::Model;

/// How many notes a chunk takes.
pub const CHUNK_NOTES: usize = 256;

/// Up to 256 notes, for which it has the memory from the beginning.
#[derive(Debug, Drop)]
pub struct Chunk {
    notes: Vec<Note>,
}

impl Model for Chunk {
    ghost use Rattle.std.specs.Prelude.{◌≤◌, List, length, vec_capacity};
    ghost use Rattle.journal_model.specs.declared.notes.Note.{Note};

    ghost Value = { List Note };

    ghost view = { λ c. c.notes.items };

    ghost invariant = { λ c. (length c.notes.items ≤ 256) × (256 ≤ vec_capacity c.notes) };
}

impl Chunk {
    /// A chunk without notes.
    pub fn new(alloc: Global) -> Result<Chunk, Memory>
        ensures { IfOk result (λ chunk. chunk ≡ []) }
    {
        let notes = Vec::with_capacity(alloc, CHUNK_NOTES)?;
        Ok(Chunk { notes })
    }

    /// Puts a note behind the others; takes no memory.
    pub fn push(&mut self, note: Note)
        requires { length self.old < 256 }
        ensures { self.new ≡ self.old ++ note ∷ [] }
    {
        self.notes.push_reserved(note);
    }

    pub fn len(&self) -> usize
        ensures len { result ≡ length self.now }
        ensures few { result ≤ 256 }
    {
        self.notes.len()
    }

    /// The note at a place.
    pub fn note(&self, at: usize) -> &Note
        requires { at < length self.now }
        ensures { slice_get self.now at ≡ Some result.now }
    {
        &self.notes[at]
    }
}
