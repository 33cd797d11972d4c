//! The journal of a channel.

ghost use Rattle.std.specs.Prelude.{◌≡◌, ◌+◌, ◌^◌, ◌<◌, ◌≤◌, ◌++◌, ◌∷◌, [], true, length, slice_get, Some, is_some, IfOk, OnOk};
ghost use Rattle.std.specs.FinMap as fin;
ghost use Rattle.log_model.specs.Places.{placed};
ghost use Rattle.journal_model.specs.declared.notes.Kind.TheVariants.{Put, Remove, Tick, Seal, Look};
ghost use Rattle.journal_model.specs.Notes.{note_of, live_in, tick_of};
ghost use Rattle.journal_model.specs.Journals.{AreBelow, may_follow};
ghost use Rattle.journal_model.specs.Puts.{effective};
ghost use Rattle.journal_model.specs.Tables.{ends};
ghost use Rattle.journal_model.specs.Answers.{Written, Sealed, answer_at};
ghost use Rattle.journal_model.specs.Layouts.{number_at, layout_of};
ghost use Rattle.journal_model.specs.Runs.{IsSound, is_step};
ghost use Rattle.channel_journal.specs.Notes.{Appends, is_upkeep, number_between};
ghost use Rattle.channel_journal.specs.Outcomes.{ended_at, was_live, added_row, ended_row, sealed_number, segment_number, segment_rows, look_reply};

use crate::counters::{
    count_put, count_remove, count_row, count_seal, count_upkeep, is_admitted, next_number,
};
use crate::notes::Notes;
use crate::outcomes::{LookOutcome, PutOutcome, RemoveOutcome, SealOutcome};
use growing_segment::KeyIndex;
use hybrid_time::Timestamp;
use journal_model::{Kind, Note, PutKind};
use log_model::SharedRow;
use row_types::{Key, Memory};
use std::alloc::Global;
use std::marker::Model;

/// The notes of a channel with its floor, the positions of its live rows, and the counters that its
/// calls need. Contracts see the channel, the notes and the floor, and how many more notes are taken
/// without memory. A write costs a look-up in the key index, and nothing that grows with the notes.
#[derive(Drop)]
pub struct Journal {
    channel: u32,
    seal_rows: u32,
    floor: Timestamp,
    tick: Timestamp,
    taken: u64,
    tail_rows: u32,
    live: u64,
    spare: u64,
    notes: Notes,
    index: KeyIndex,
}

impl Model for Journal {
    ghost use Rattle.channel_journal.specs.Notes.{ChannelJournal};
    ghost use Rattle.channel_journal.specs.Fields.{journal, IsKept};

    ghost Value = { ChannelJournal };

    ghost view = { journal };

    ghost invariant = { IsKept };
}

impl Journal {
    /// The journal without notes of a channel from 0 to 15, whose tail is sealed at `seal_rows` rows, 1
    /// to 65,536. Want of memory is the only error.
    pub fn new(alloc: Global, channel: u32, seal_rows: u32) -> Result<Journal, Memory>
        requires channel { channel < 16 }
        requires least { 1 ≤ seal_rows }
        requires most { seal_rows ≤ 65536 }
        ensures channel { IfOk result (λ j. j.channel ≡ record { number = channel; seal_rows = seal_rows }) }
        ensures state { IfOk result (λ j. j.state ≡ record { notes = []; floor = 0 }) }
    {
        let notes = Notes::new(alloc)?;
        let index = KeyIndex::new(alloc)?;
        Ok(Journal {
            channel,
            seal_rows,
            floor: Timestamp(0),
            tick: Timestamp(0),
            taken: 0,
            tail_rows: 0,
            live: 0,
            spare: 0,
            notes,
            index,
        })
    }

    /// Room for `n` more notes. Want of memory leaves all but the room as it was; it is the answer too
    /// where there would be more than 2^56 notes.
    pub fn reserve(&mut self, alloc: Global, n: u32) -> Result<(), Memory>
        ensures room { OnOk result (n ≤ self.new.spare) }
        ensures few { OnOk result (length self.old.state.notes + n ≤ 2 ^ 56) }
        ensures state { self.new.state ≡ self.old.state }
        ensures channel { self.new.channel ≡ self.old.channel }
        ensures spare { self.old.spare ≤ self.new.spare }
    {
        self.notes.reserve(alloc, n)?;
        self.index.reserve(alloc, n)?;
        self.spare = self.spare.max(u64::from(n));
        Ok(())
    }

    /// Appends the put of a row, which adds the row unless it is an insert of a live key; takes no
    /// memory. The timestamp is above all others, or that of the batch which the last notes began.
    pub fn put(
        &mut self,
        by: u64,
        line: u32,
        ts: Timestamp,
        how: PutKind,
        row: SharedRow,
    ) -> PutOutcome
        requires room { 1 ≤ self.old.spare }
        requires dated { 1 ≤ ts.0 }
        requires follows { may_follow self.old.state.notes (note_of by line (Put ts how row)) ≡ true }
        ensures note { Appends self.old self.new (note_of by line (Put ts how row)) }
        ensures answer { answer_at self.old.channel self.old.state.notes (Put ts how row) ≡ Written (was_live result) }
        ensures added { effective self.old.state.notes (Put ts how row) ≡ added_row (placed (length self.old.state.notes) ts.0 row) result }
        ensures ended { ends self.old.state.notes (Put ts how row) ≡ ended_at ts.0 (ended_row result) }
        ensures sealed { number_between self.old self.new ≡ sealed_number result }
    {
        let key = row.get().key;
        let found = self.index.find(key);
        let position = self.notes.len();
        self.spare -= 1;
        self.notes.push(Note {
            by,
            line,
            kind: Kind::Put { ts, how, row },
        });
        if !is_admitted(how, found) {
            return PutOutcome::Exists;
        }
        self.index.set(key, position);
        self.live = count_put(found, self.live);
        let sealed = count_row(
            self.channel,
            self.seal_rows,
            &mut self.tail_rows,
            &mut self.taken,
        );
        PutOutcome::Added {
            ended: found,
            sealed,
        }
    }

    /// Appends the remove of a key's row; takes no memory. The timestamp is above all others, or that of
    /// the batch which the last notes began.
    pub fn remove_key(&mut self, by: u64, line: u32, ts: Timestamp, key: Key) -> RemoveOutcome
        requires room { 1 ≤ self.old.spare }
        requires dated { 1 ≤ ts.0 }
        requires follows { may_follow self.old.state.notes (note_of by line (Remove ts key)) ≡ true }
        ensures note { Appends self.old self.new (note_of by line (Remove ts key)) }
        ensures answer { answer_at self.old.channel self.old.state.notes (Remove ts key) ≡ Written (is_some result.ended) }
        ensures ended { ends self.old.state.notes (Remove ts key) ≡ ended_at ts.0 result.ended }
    {
        let found = self.index.find(key);
        self.spare -= 1;
        self.notes.push(Note {
            by,
            line,
            kind: Kind::Remove { ts, key },
        });
        self.index.clear(key);
        self.live = count_remove(found, self.live);
        RemoveOutcome { ended: found }
    }

    /// Appends a tick, at a timestamp above all others; takes no memory.
    pub fn tick(&mut self, by: u64, line: u32, ts: Timestamp)
        requires room { 1 ≤ self.old.spare }
        requires below { AreBelow ts.0 self.old.state.notes }
        ensures note { Appends self.old self.new (note_of by line (Tick ts)) }
    {
        self.spare -= 1;
        self.notes.push(Note {
            by,
            line,
            kind: Kind::Tick { ts },
        });
        self.tick = ts;
    }

    /// Appends a seal, at a timestamp above all others; takes no memory. A tail that has rows becomes a
    /// segment.
    pub fn seal(&mut self, by: u64, line: u32, ts: Timestamp) -> SealOutcome
        requires room { 1 ≤ self.old.spare }
        requires below { AreBelow ts.0 self.old.state.notes }
        ensures note { Appends self.old self.new (note_of by line (Seal ts)) }
        ensures answer { answer_at self.old.channel self.old.state.notes (Seal ts) ≡ Sealed (segment_rows result) }
        ensures sealed { number_between self.old self.new ≡ segment_number result }
    {
        self.spare -= 1;
        self.notes.push(Note {
            by,
            line,
            kind: Kind::Seal { ts },
        });
        count_seal(self.channel, &mut self.tail_rows, &mut self.taken)
    }

    /// Appends a look, and tells whether it is served; takes no memory.
    pub fn note_look(&mut self, by: u64, line: u32, guarantee: Timestamp) -> LookOutcome
        requires room { 1 ≤ self.old.spare }
        ensures note { Appends self.old self.new (note_of by line (Look guarantee)) }
        ensures answer { answer_at self.old.channel self.old.state.notes (Look guarantee) ≡ look_reply result }
    {
        self.spare -= 1;
        self.notes.push(Note {
            by,
            line,
            kind: Kind::Look { guarantee },
        });
        if self.tick < guarantee {
            return LookOutcome::Pending { tick: self.tick };
        }
        LookOutcome::Served
    }

    /// Appends a note that moves or merges segments; takes no memory.
    pub fn append(&mut self, by: u64, line: u32, kind: Kind)
        requires room { 1 ≤ self.old.spare }
        requires upkeep { is_upkeep kind ≡ true }
        requires step { is_step self.old.channel self.old.state (note_of by line kind) ≡ true }
        ensures note { Appends self.old self.new (note_of by line kind) }
    {
        let numbers = count_upkeep(&kind);
        self.spare -= 1;
        self.notes.push(Note { by, line, kind });
        self.taken += numbers;
    }

    /// Raises the floor, up to the tick.
    pub fn set_floor(&mut self, ts: Timestamp)
        requires least { self.old.state.floor ≤ ts.0 }
        requires most { ts.0 ≤ tick_of self.old.state.notes }
        ensures state { self.new.state ≡ record { notes = self.old.state.notes; floor = ts.0 } }
        ensures channel { self.new.channel ≡ self.old.channel }
        ensures spare { self.new.spare ≡ self.old.spare }
    {
        self.floor = ts;
    }

    /// How many notes there are. The state of a journal is always sound.
    pub fn len(&self) -> u64
        ensures len { result ≡ length self.now.state.notes }
        ensures few { result ≤ 2 ^ 56 }
        ensures sound { IsSound self.now.channel self.now.state }
    {
        self.notes.len()
    }

    /// The note at a position.
    pub fn note(&self, position: u64) -> &Note
        requires { position < length self.now.state.notes }
        ensures { slice_get self.now.state.notes position ≡ Some result.now }
    {
        self.notes.note(position)
    }

    /// The timestamp of the last tick, or 0.
    pub fn tick_now(&self) -> Timestamp
        ensures { result.0 ≡ tick_of self.now.state.notes }
    {
        self.tick
    }

    pub fn floor(&self) -> Timestamp
        ensures { result.0 ≡ self.now.state.floor }
    {
        self.floor
    }

    /// The number of the channel.
    pub fn channel(&self) -> u32
        ensures number { result ≡ self.now.channel.number }
        ensures low { result < 16 }
    {
        self.channel
    }

    /// The rows at which a tail is sealed.
    pub fn seal_rows(&self) -> u32
        ensures rows { result ≡ self.now.channel.seal_rows }
        ensures least { 1 ≤ result }
        ensures most { result ≤ 65536 }
    {
        self.seal_rows
    }

    /// How many rows the tail has.
    pub fn tail_rows(&self) -> u32
        ensures rows { result ≡ length (layout_of self.now.channel self.now.state.notes).tail }
        ensures short { result < self.now.channel.seal_rows }
    {
        self.tail_rows
    }

    /// How many segment numbers were taken.
    pub fn taken(&self) -> u64
        ensures taken { result ≡ (layout_of self.now.channel self.now.state.notes).taken }
        ensures few { result ≤ length self.now.state.notes }
    {
        self.taken
    }

    /// The number that is taken next.
    pub fn next_number(&self) -> u64
        ensures { result ≡ number_at self.now.channel (layout_of self.now.channel self.now.state.notes).taken }
    {
        next_number(self.channel, self.taken)
    }

    /// How many keys are live.
    pub fn live(&self) -> u64
        ensures live { result ≡ fin.len (live_in self.now.state.notes) }
        ensures few { result ≤ length self.now.state.notes }
    {
        self.live
    }

    /// How many more notes are taken without memory.
    pub fn spare(&self) -> u64
        ensures { result ≡ self.now.spare }
    {
        self.spare
    }
}
