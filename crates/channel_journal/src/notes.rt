//! The notes of a channel in chunks.

ghost use Rattle.std.specs.Prelude.{◌≡◌, ◌+◌, ◌*◌, ◌^◌, ◌<◌, ◌≤◌, ◌++◌, ◌∷◌, [], length, slice_get, Some, vec_len, vec_capacity, IfOk, OnOk};
ghost use Rattle.std.specs.List.{AllByRecursion};
ghost use Rattle.channel_journal.specs.Kept.{IsWhole, IsBlank, notes_in};

use crate::chunks::{CHUNK_NOTES, Chunk};
use journal_model::Note;
use row_types::Memory;
use std::alloc::Global;
use std::marker::Model;
use std::mem;

/// How many notes a journal may have.
const MOST_NOTES: u64 = 1 << 56;

/// The notes of a channel in their order. A note never moves; where the list grows, only the table of
/// chunks does. Contracts see the notes, and how many more the list takes without memory.
#[derive(Debug, Drop)]
pub struct Notes {
    full: Vec<Chunk>,
    latest: Chunk,
    blank: Vec<Chunk>,
}

impl Model for Notes {
    ghost use Rattle.std.specs.Prelude.{vec_capacity};
    ghost use Rattle.channel_journal.specs.Notes.{NoteList};
    ghost use Rattle.channel_journal.specs.Kept.{note_list, KeepsNotes};

    ghost Value = { NoteList };

    ghost view = { λ n. note_list n.full.items n.latest n.blank.items };

    ghost invariant = { λ n. KeepsNotes n.full.items n.latest n.blank.items (vec_capacity n.full) };
}

impl Notes {
    /// No notes.
    pub fn new(alloc: Global) -> Result<Notes, Memory>
        ensures { IfOk result (λ list. list.notes ≡ []) }
    {
        let latest = Chunk::new(alloc)?;
        Ok(Notes {
            full: Vec::new(alloc),
            latest,
            blank: Vec::new(alloc),
        })
    }

    /// Room for `n` more notes. Want of memory leaves the notes as they were; it is the answer too where
    /// there would be more than 2^56 notes.
    pub fn reserve(&mut self, alloc: Global, n: u32) -> Result<(), Memory>
        ensures room { OnOk result (n ≤ self.new.spare) }
        ensures few { OnOk result (length self.old.notes + n ≤ 2 ^ 56) }
        ensures notes { self.new.notes ≡ self.old.notes }
        ensures spare { self.old.spare ≤ self.new.spare }
    {
        if self.len() + u64::from(n) > MOST_NOTES {
            return Err(Memory);
        }
        let chunks = (n as usize).div_ceil(CHUNK_NOTES);
        let more = chunks.saturating_sub(self.blank.len());
        self.full.reserve(self.blank.len() + more)?;
        self.blank.reserve(more)?;
        add_chunks(alloc, &mut self.blank, more)
    }

    /// Puts a note behind all others; takes no memory.
    pub fn push(&mut self, note: Note)
        requires { 1 ≤ self.old.spare }
        ensures notes { self.new.notes ≡ self.old.notes ++ note ∷ [] }
        ensures spare { self.old.spare ≡ self.new.spare + 1 }
        ensures few { length self.old.notes < 2 ^ 56 }
    {
        turn_page(&mut self.full, &mut self.latest, &mut self.blank);
        self.latest.push(note);
    }

    /// How many notes there are.
    pub fn len(&self) -> u64
        ensures len { result ≡ length self.now.notes }
        ensures few { result ≤ 2 ^ 56 }
    {
        (CHUNK_NOTES * self.full.len() + self.latest.len()) as u64
    }

    /// The note at a position.
    pub fn note(&self, position: u64) -> &Note
        requires { position < length self.now.notes }
        ensures { slice_get self.now.notes position ≡ Some result.now }
    {
        let at = position as usize;
        if at / CHUNK_NOTES < self.full.len() {
            return self.full[at / CHUNK_NOTES].note(at % CHUNK_NOTES);
        }
        self.latest.note(at % CHUNK_NOTES)
    }
}

// Makes `n` more blank chunks. Want of memory leaves those that were made.
fn add_chunks(alloc: Global, blank: &mut Vec<Chunk>, n: usize) -> Result<(), Memory>
    requires room { vec_len blank.old + n ≤ vec_capacity blank.old }
    requires blanks { AllByRecursion IsBlank blank.old.items }
    ensures blanks { AllByRecursion IsBlank blank.new.items }
    ensures ok { OnOk result (length blank.new.items ≡ length blank.old.items + n) }
    ensures least { length blank.old.items ≤ length blank.new.items }
    ensures most { length blank.new.items ≤ length blank.old.items + n }
{
    'chunks: for _ in 0..n {
        let chunk = Chunk::new(alloc)?;
        blank.push_reserved(chunk);
    }
    Ok(())
}

// A chunk that is full goes to the others, and a blank one takes its place.
fn turn_page(full: &mut Vec<Chunk>, latest: &mut Chunk, blank: &mut Vec<Chunk>)
    requires blanks { AllByRecursion IsBlank blank.old.items }
    requires whole { AllByRecursion IsWhole full.old.items }
    requires room { vec_len full.old + vec_len blank.old ≤ vec_capacity full.old }
    requires some { length latest.old < 256 + length blank.old.items }
    ensures notes { notes_in full.new.items latest.new ≡ notes_in full.old.items latest.old }
    ensures blanks { AllByRecursion IsBlank blank.new.items }
    ensures whole { AllByRecursion IsWhole full.new.items }
    ensures tables { length full.new.items + length blank.new.items ≡ length full.old.items + length blank.old.items }
    ensures spare { 256 * length blank.new.items + length latest.old ≡ 256 * length blank.old.items + length latest.new }
    ensures fits { length latest.new < 256 }
    ensures capacity { vec_capacity full.new ≡ vec_capacity full.old }
{
    if latest.len() < CHUNK_NOTES {
        return;
    }
    let Some(next) = blank.pop() else {
        unreachable!()
    };
    let whole = mem::replace(latest, next);
    full.push_reserved(whole);
}
