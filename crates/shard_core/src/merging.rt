//! Merges that were begun.

ghost use Rattle.std.specs.Prelude.{◌≡◌};

use hybrid_time::Timestamp;
use seg_sealed::Part;
use std::marker::Model;

/// A merge of segments that was begun: their parts as they stood then, to be merged while the channel
/// goes on. Contracts see the parts, the number that the merge took, the seat that began it, the
/// floor, and how many notes the journal had.
#[derive(Drop)]
pub struct Merging {
    pub(crate) parts: Vec<Part>,
    pub(crate) number: u64,
    pub(crate) by: u64,
    pub(crate) floor: Timestamp,
    pub(crate) begun: u64,
}

impl Model for Merging {
    ghost use Rattle.shard_core.specs.Merging.{BegunMerging};

    ghost Value = { BegunMerging };

    ghost view = { λ m. record { parts = m.parts.items; number = m.number; by = m.by; floor = m.floor.0; begun = m.begun } };
}

impl Merging {
    /// The parts of the sources, with the marks of the deaths up to where the merge began.
    pub fn parts(&self) -> &[Part]
        ensures { result.now ≡ self.now.parts }
    {
        self.parts.as_slice()
    }

    /// The number that the merge took, for the segment that it gives.
    pub fn number(&self) -> u64
        ensures { result ≡ self.now.number }
    {
        self.number
    }

    /// The number of the seat that began the merge.
    pub fn by(&self) -> u64
        ensures { result ≡ self.now.by }
    {
        self.by
    }

    /// The floor at which the merge began.
    pub fn floor(&self) -> Timestamp
        ensures { result.0 ≡ self.now.floor }
    {
        self.floor
    }

    /// The position of the journal behind the note of the merge's beginning.
    pub fn begun(&self) -> u64
        ensures { result ≡ self.now.begun }
    {
        self.begun
    }
}
