//! The tail of a channel with the marks of its rows.

ghost use Rattle.std.specs.Prelude.{◌≡◌, ◌<◌, ◌≤◌, [], ◌∷◌, ◌++◌, length, map, None, IfOk, OnOk, OnErr};
ghost use Rattle.std.specs.List.{AllByRecursion};
ghost use Rattle.log_model.specs.Places.{placed, PlacedBefore, Rise};
ghost use Rattle.seg_sealed.specs.Segments.{IsSealed, sealed_rows};
ghost use Rattle.seg_sealed.specs.Parts.{AreDeathsOf, shown_as, shown_from};
ghost use Rattle.channel_pieces.specs.Pieces.{placed_of};
ghost use Rattle.channel_pieces.specs.Fields.{Climb, places_in, tail_readied, tail_committed};

use crate::marking::with_deaths;
use growing_segment::{Growing, SharedTail};
use hybrid_time::Timestamp;
use log_model::{SharedRow, TailRows};
use row_types::Memory;
use seg_sealed::{Marks, Sealed};
use std::alloc::Global;
use std::marker::Model;
use std::mem;

/// The rows that no segment has yet, each with its mark. Contracts see their dimension, the rows, and
/// the rows with the marks that are prepared, if any are.
#[derive(Debug, Drop)]
pub(crate) struct Tail {
    rows: Growing,
    // A column of the rows' positions, for look-ups.
    positions: Vec<u64>,
    marks: Marks,
    next: Option<Marks>,
}

impl Model for Tail {
    ghost use Rattle.seg_sealed.specs.Parts.{shown_from};
    ghost use Rattle.channel_pieces.specs.Fields.{MarkedTail, KeepsTail, deaths_next};

    ghost Value = { MarkedTail };

    ghost view = { λ t. record { dim = t.rows.dim; rows = shown_from t.marks.deaths 0 t.rows.rows; next = shown_from (deaths_next t.next t.marks) 0 t.rows.rows } };

    ghost invariant = { λ t. KeepsTail t.rows.rows t.positions.items t.marks t.next };
}

impl Tail {
    /// A tail without rows, for vectors of `dim` bits.
    pub(crate) fn new(alloc: Global, dim: u32) -> Result<Tail, Memory>
        requires { dim ≤ 4096 }
        ensures dim { IfOk result (λ tail. tail.dim ≡ dim) }
        ensures rows { IfOk result (λ tail. tail.rows ≡ []) }
    {
        let marks = Marks::new(alloc, 0)?;
        Ok(Tail {
            rows: Growing::new(alloc, dim),
            positions: Vec::new(alloc),
            marks,
            next: None,
        })
    }

    /// How many rows there are.
    pub(crate) fn len(&self) -> u32
        ensures len { result ≡ length self.now.rows }
        ensures few { length self.now.rows ≤ 65536 }
        ensures rise { Rise (map placed_of self.now.rows) }
    {
        let _dim = self.rows.dim();
        self.positions.len() as u32
    }

    /// Puts a row behind all others, without a mark. Room grows in powers. Want of memory leaves the
    /// rows as they were.
    pub(crate) fn push(
        &mut self,
        alloc: Global,
        position: u64,
        ts: Timestamp,
        row: SharedRow,
    ) -> Result<(), Memory>
        requires few { length self.old.rows < 65536 }
        requires fits { length row.vector ≡ self.old.dim }
        requires last { AllByRecursion (λ s. PlacedBefore (placed_of s) (placed position ts.0 row)) self.old.rows }
        ensures ok { OnOk result (self.new.rows ≡ self.old.rows ++ shown_as (placed position ts.0 row) None ∷ []) }
        ensures err { OnErr result (self.new.rows ≡ self.old.rows) }
        ensures dim { self.new.dim ≡ self.old.dim }
    {
        self.positions.reserve(1)?;
        self.rows.reserve(alloc, 1)?;
        self.positions.push_reserved(position);
        self.rows.push(position, ts, row);
        Ok(())
    }

    /// The rows and their marks as they stand now. Want of memory leaves the tail as it was.
    pub(crate) fn share(&mut self, alloc: Global) -> Result<(SharedTail, Marks), Memory>
        ensures rows { IfOk result (λ shared. shown_from shared.1.deaths 0 shared.0.rows ≡ self.old.rows) }
        ensures dim { IfOk result (λ shared. shared.0.dim ≡ self.old.dim) }
        ensures marks { IfOk result (λ shared. AreDeathsOf (length shared.0.rows) shared.1.deaths) }
        ensures same { self.new ≡ self.old }
    {
        let marks = self.marks.share(alloc)?;
        let rows = self.rows.share(alloc)?;
        Ok((rows, marks))
    }

    /// The segment of this number of the rows.
    pub(crate) fn seal(&self, alloc: Global, number: u64) -> Result<Sealed, Memory>
        requires { IsSealed (sealed_rows number (map placed_of self.now.rows)) }
        ensures { IfOk result (λ sealed. sealed ≡ sealed_rows number (map placed_of self.now.rows)) }
    {
        Sealed::build(alloc, number, &self.rows)
    }

    /// Drops all rows, keeps the room, and gives their marks; `fresh` are the marks of no rows. Takes
    /// no memory.
    pub(crate) fn clear(&mut self, fresh: Marks) -> Marks
        requires { fresh.deaths ≡ [] }
        ensures rows { self.new.rows ≡ [] }
        ensures dim { self.new.dim ≡ self.old.dim }
        ensures marks { shown_from result.deaths 0 (map placed_of self.old.rows) ≡ self.old.rows }
        ensures within { AreDeathsOf (length self.old.rows) result.deaths }
    {
        self.rows.clear();
        self.positions.clear();
        self.next = None;
        mem::replace(&mut self.marks, fresh)
    }

    /// Prepares the marks of some deaths, which rise by position. Want of memory leaves the tail as it
    /// was.
    pub(crate) fn prepare(
        &mut self,
        alloc: Global,
        deaths: &[(u64, Timestamp)],
    ) -> Result<(), Memory>
        requires { Climb (places_in deaths.now) }
        ensures ok { OnOk result (self.new ≡ tail_readied deaths.now self.old) }
        ensures err { OnErr result (self.new ≡ self.old) }
    {
        // Its contract says that positions rise.
        let _dim = self.rows.dim();
        let positions = self.positions.as_slice();
        self.next = with_deaths(alloc, &mut self.marks, positions, deaths)?;
        Ok(())
    }

    /// Makes the marks that are prepared; takes no memory.
    pub(crate) fn commit(&mut self)
        ensures { self.new ≡ tail_committed self.old }
    {
        if let Some(next) = self.next.take() {
            self.marks = next;
        }
    }
}
