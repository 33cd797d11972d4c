//! The shard behind turns: its journal grows by the notes of a turn, and its base stays.

ghost use Rattle.std.specs.Prelude.{◌≡◌, [], ◌∷◌, ◌++◌};
ghost use Rattle.journal_model.specs.declared.notes.Note.{Note};
ghost use Rattle.shard_core.specs.Shards.{ChannelShard, Steps, base_of};

use crate::shard::Shard;
use coarse_lists::Collection;
use hybrid_time::Timestamp;
use journal_model::Note;
use std::alloc::Global;
use std::marker::Model;
use std::sync::Arc;
use turn_table::Journalled;

/// What no turn changes of a shard: its channel, its collection and its floor. No value of it is made.
#[derive(Drop)]
pub struct ShardBase {
    number: u32,
    seal_rows: u32,
    collection: Arc<Collection, Global>,
    floor: Timestamp,
}

impl Model for ShardBase {
    ghost use Rattle.std.specs.Arc.{arc_value};
    ghost use Rattle.shard_core.specs.Shards.{ChannelBase};

    ghost Value = { ChannelBase };

    ghost view = { λ b. record { channel = record { number = b.number; seal_rows = b.seal_rows }; collection = arc_value b.collection; floor = b.floor.0 } };
}

impl Journalled for Shard {
    type Note = Note;

    type Base = ShardBase;

    ghost use Rattle.journal_model.specs.Notes.{ts_of};
    ghost use Rattle.shard_core.specs.Shards.{base_of};

    ghost journal = { λ s. s.state.notes };

    ghost base = { base_of };

    ghost number_of = { λ note. note.by };

    ghost time_of = { λ note. ts_of note.kind };

    fn notes(&self) -> u64 {
        self.len()
    }
}

/// What a note does to a shard that is behind a turn: its journal is longer by the note, and its base
/// stays. This call does nothing.
pub fn turn_notes()
    ensures notes { (old new : ChannelShard) (note : Note) → Steps old new note → new.state.notes ≡ old.state.notes ++ note ∷ [] }
    ensures base { (old new : ChannelShard) (note : Note) → Steps old new note → base_of new ≡ base_of old }
{}
