//! Entries behind turns, and the journal that contracts see in them.
ghost use Rattle.std.specs.Prelude.{◌≡◌, ◌-◌, ◌+◌, ◌^◌, ◌≤◌, [], ◌∷◌, ◌++◌, OnOk, OnErr};

use row_types::Memory;
use std::alloc::Global;
use std::marker::Model;
use turn_table::Journalled;

/// An entry: the number of the seat that wrote it, and the number that the seat drew for it.
#[derive(Clone, Copy)]
pub struct Entry {
    pub by: u64,
    pub at: u64,
}

/// Entries in the order in which they were written, and a channel.
#[derive(Drop)]
pub struct Board {
    entries: Vec<Entry>,
    channel: u64,
}

impl Model for Board {
    ghost use Rattle.std.specs.Prelude.{◌-◌, ◌^◌, ◌<◌, min, vec_len, vec_capacity};
    ghost use Rattle.turn_board.specs.Boards.{Written};

    ghost Value = { Written };

    ghost view = { λ b. record { entries = b.entries.items; channel = b.channel; room = min (vec_capacity b.entries) (2 ^ 56 - 1) - vec_len b.entries } };

    ghost invariant = { λ b. vec_len b.entries < 2 ^ 56 };
}

impl Board {
    /// A board with no entry.
    pub fn new(alloc: Global, channel: u64) -> Board
        ensures { (result.entries ≡ []) × (result.channel ≡ channel) }
    {
        Board {
            entries: Vec::new(alloc),
            channel,
        }
    }

    /// The entries.
    pub fn entries(&self) -> &[Entry]
        ensures { result.now ≡ self.now.entries }
    {
        self.entries.as_slice()
    }

    /// Makes room for one entry. It is refused only where there is none.
    pub fn reserve(&mut self) -> Result<(), Memory>
        ensures same { (self.new.entries ≡ self.old.entries) × (self.new.channel ≡ self.old.channel) }
        ensures room { OnOk result (1 ≤ self.new.room) }
        ensures full { OnErr result (self.old.room ≡ 0) }
    {
        if self.entries.len() >= (1 << 56) - 1 {
            return Err(Memory);
        }
        self.entries.reserve(1)?;
        Ok(())
    }

    /// Writes an entry.
    pub fn add(&mut self, entry: Entry)
        requires { 1 ≤ self.old.room }
        ensures { (self.new.entries ≡ self.old.entries ++ entry ∷ []) × (self.new.channel ≡ self.old.channel) }
    {
        self.entries.push_reserved(entry);
    }
}

impl Journalled for Board {
    type Note = Entry;

    type Base = u64;

    ghost use Rattle.std.specs.Prelude.{Some};

    ghost journal = { λ b. b.entries };

    ghost base = { λ b. b.channel };

    ghost number_of = { λ e. e.by };

    ghost time_of = { λ e. Some e.at };

    fn notes(&self) -> u64 {
        self.entries.len() as u64
    }
}
