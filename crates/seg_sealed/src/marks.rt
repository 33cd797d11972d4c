//! Which rows of a segment died, and when.

ghost use Rattle.std.specs.Prelude.{◌≡◌, ◌+◌, ◌≤◌, ◌++◌, [], length, map, None, IfOk, OnOk, OnErr};
ghost use Rattle.std.specs.Option.{option_map};
ghost use Rattle.binlog_format.specs.Deletes.{IsDeleteLog};
ghost use Rattle.seg_sealed.specs.Marks.{RowsRise, death_of, death_at, with_death, deaths_in, delete_log_of};

use crate::frozen::Frozen;
use crate::latest::Latest;
use binlog_format::DeleteLog;
use hybrid_time::Timestamp;
use row_types::{List, Memory};
use std::alloc::Global;
use std::marker::Model;

/// How many marks may stand apart from the sorted ones when marks are shared.
const LATEST_MARKS: usize = 64;

/// Room is made with the latest marks apart from the sorted ones up to this part of those, so that the
/// sorted ones are copied once for many deaths.
const SORTED_TO_LATEST: usize = 4;

/// Which rows of a segment died, each with the timestamp of its death, up to a position of the
/// journal. Contracts see the deaths by rising row numbers, the position, and how many
/// more marks are taken without memory.
#[derive(Debug, Drop)]
pub struct Marks {
    applied: u64,
    frozen: Frozen,
    latest: Latest,
}

impl Model for Marks {
    ghost use Rattle.std.specs.Prelude.{◌++◌};
    ghost use Rattle.seg_sealed.specs.Marks.{Marked, deaths_in};
    ghost use Rattle.seg_sealed.specs.Fields.{KeepsMarks};

    ghost Value = { Marked };

    ghost view = { λ m. record { deaths = deaths_in (m.frozen ++ m.latest.marks); applied = m.applied; spare = m.latest.spare } };

    ghost invariant = { λ m. KeepsMarks m.frozen m.latest.marks };
}

/// The marks of a segment: those that stand sorted by their rows, and those that were made since.
#[derive(Debug, Clone, Copy)]
pub struct Deaths<'a> {
    pub sorted: &'a [(u32, Timestamp)],
    pub latest: &'a [(u32, Timestamp)],
}

impl Marks {
    /// No marks, up to a position.
    pub fn new(alloc: Global, applied: u64) -> Result<Marks, Memory>
        ensures deaths { IfOk result (λ m. m.deaths ≡ []) }
        ensures applied { IfOk result (λ m. m.applied ≡ applied) }
    {
        let frozen = Frozen::of(alloc, Vec::new(alloc))?;
        let latest = Latest::new(alloc, 0)?;
        Ok(Marks {
            applied,
            frozen,
            latest,
        })
    }

    /// The marks of a delete log, as one that was read.
    pub fn of_log(alloc: Global, log: DeleteLog) -> Result<Marks, Memory>
        requires { IsDeleteLog log }
        ensures deaths { IfOk result (λ m. m.deaths ≡ map death_of log.marks) }
        ensures applied { IfOk result (λ m. m.applied ≡ log.applied) }
    {
        let frozen = Frozen::of(alloc, log.marks.into_vec())?;
        let latest = Latest::new(alloc, 0)?;
        Ok(Marks {
            applied: log.applied,
            frozen,
            latest,
        })
    }

    /// The delete log of the marks of a segment.
    pub fn to_log(&self, alloc: Global, segment: u64) -> Result<DeleteLog, Memory>
        ensures log { IfOk result (λ log. log ≡ delete_log_of segment self.now.applied self.now.deaths) }
        ensures rise { IfOk result (λ log. RowsRise log.marks) }
    {
        let marks = self.frozen.with(alloc, self.latest.as_slice())?;
        Ok(DeleteLog {
            segment,
            applied: self.applied,
            marks: List::of(marks),
        })
    }

    /// Room for `n` more marks. Want of memory leaves the marks as they were.
    pub fn reserve(&mut self, alloc: Global, n: u32) -> Result<(), Memory>
        ensures room { OnOk result (n ≤ self.new.spare) }
        ensures deaths { self.new.deaths ≡ self.old.deaths }
        ensures applied { self.new.applied ≡ self.old.applied }
        ensures spare { self.old.spare ≤ self.new.spare }
    {
        let most = LATEST_MARKS.max(self.frozen.len() / SORTED_TO_LATEST);
        self.freeze(alloc, most)?;
        self.latest.reserve(alloc, n)
    }

    /// Marks a row as dead from a timestamp on; takes no memory.
    pub fn mark(&mut self, row: u32, ts: Timestamp)
        requires room { 1 ≤ self.old.spare }
        requires unmarked { death_at row self.old.deaths ≡ None }
        ensures deaths { self.new.deaths ≡ with_death row ts.0 self.old.deaths }
        ensures applied { self.new.applied ≡ self.old.applied }
        ensures spare { self.old.spare ≡ self.new.spare + 1 }
    {
        self.latest.push(row, ts);
    }

    /// Says that deaths are marked up to a position.
    pub fn advance(&mut self, position: u64)
        ensures deaths { self.new.deaths ≡ self.old.deaths }
        ensures applied { self.new.applied ≡ position }
        ensures spare { self.new.spare ≡ self.old.spare }
    {
        self.applied = position;
    }

    /// The position up to which deaths are marked.
    pub fn applied(&self) -> u64
        ensures { result ≡ self.now.applied }
    {
        self.applied
    }

    /// How many rows are marked; takes no walk.
    pub fn len(&self) -> u64
        ensures { result ≡ length self.now.deaths }
    {
        (self.frozen.len() + self.latest.len()) as u64
    }

    /// When a row died; `None` exactly where it has no mark. Looks the row up among the sorted marks by
    /// halves, and then among the latest in a few steps.
    pub fn dead_at(&self, row: u32) -> Option<Timestamp>
        ensures { option_map (λ ts. ts.0) result ≡ death_at row self.now.deaths }
    {
        match self.frozen.find(row) {
            Some(ts) => Some(ts),
            None => self.latest.find(row),
        }
    }

    /// All marks, for a walk along the rows of a segment: those that stand sorted, and at most 64 more
    /// where `share` gave these marks.
    pub fn deaths(&self) -> Deaths<'_>
        ensures all { deaths_in (result.sorted.now ++ result.latest.now) ≡ self.now.deaths }
        ensures rise { RowsRise result.sorted.now }
    {
        Deaths {
            sorted: self.frozen.marks(),
            latest: self.latest.as_slice(),
        }
    }

    /// Equal marks, which share the sorted ones. Want of memory leaves these marks as they were.
    pub fn share(&mut self, alloc: Global) -> Result<Marks, Memory>
        ensures deaths { IfOk result (λ m. m.deaths ≡ self.old.deaths) }
        ensures applied { IfOk result (λ m. m.applied ≡ self.old.applied) }
        ensures same_deaths { self.new.deaths ≡ self.old.deaths }
        ensures same_applied { self.new.applied ≡ self.old.applied }
        ensures spare { self.old.spare ≤ self.new.spare }
    {
        self.freeze(alloc, LATEST_MARKS)?;
        let latest = Latest::of(alloc, self.latest.as_slice(), 0)?;
        let frozen = self.frozen.share()?;
        Ok(Marks {
            applied: self.applied,
            frozen,
            latest,
        })
    }

    // Sorts the latest marks in among the others, where there are more than so many.
    fn freeze(&mut self, alloc: Global, most: usize) -> Result<(), Memory>
        ensures deaths { self.new.deaths ≡ self.old.deaths }
        ensures applied { self.new.applied ≡ self.old.applied }
        ensures spare { self.old.spare ≤ self.new.spare }
    {
        if self.latest.len() > most {
            let marks = self.frozen.with(alloc, self.latest.as_slice())?;
            self.frozen = Frozen::of(alloc, marks)?;
            self.latest.clear();
        }
        Ok(())
    }
}
