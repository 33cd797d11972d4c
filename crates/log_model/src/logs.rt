//! Writes, and the log of them.

ghost use Rattle.std.specs.Prelude.{◌≡◌};
ghost use Rattle.log_model.specs.Logs.{key_of};

use hybrid_time::Timestamp;
use row_types::{Key, Row};

/// A change of the row of one key.
#[derive(Debug, Drop)]
pub enum Write {
    /// Adds the row, unless its key is live.
    Insert(Row),
    /// Sets the row of its key.
    Upsert(Row),
    /// Takes the row of the key away.
    Delete(Key),
}

impl Write {
    /// The key of the row that the write changes.
    pub fn key(&self) -> Key
        ensures { result.0 ≡ key_of self.now }
    {
        match self {
            Write::Insert(row) => row.key,
            Write::Upsert(row) => row.key,
            Write::Delete(key) => *key,
        }
    }
}

/// A write at its timestamp.
#[derive(Debug, Drop)]
pub struct Entry {
    pub ts: Timestamp,
    pub write: Write,
}
