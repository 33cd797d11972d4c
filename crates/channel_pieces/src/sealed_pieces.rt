//! A sealed segment of a channel with the marks of its rows.

ghost use Rattle.std.specs.Prelude.{◌≡◌, ℕ, List, ◌++◌, length, map, None, IfOk, OnOk, OnErr};
ghost use Rattle.std.specs.List.{AllByRecursion, count_by};
ghost use Rattle.std.specs.Arc.{arc_value};
ghost use Rattle.seg_sealed.specs.Parts.{AreDeathsOf, shown_rows};
ghost use Rattle.row_types.specs.declared.rows.Kind.{Kind};
ghost use Rattle.channel_pieces.specs.Pieces.{HasShape, places_of};
ghost use Rattle.channel_pieces.specs.Counting.{is_unmarked};
ghost use Rattle.channel_pieces.specs.Keeping.{outlives};
ghost use Rattle.channel_pieces.specs.Fields.{Climb, places_in, readied, committed, settled, piece_of, homed, IsPiece, IsPartOf, IsPartOfPiece};

use crate::keeping::count_dead;
use crate::marking::with_deaths;
use hybrid_time::Timestamp;
use journal_model::Home;
use place_table::Places;
use row_types::Memory;
use seg_sealed::{Marks, Part, Sealed};
use std::alloc::Global;
use std::marker::Model;
use std::sync::Arc;

/// A sealed segment with the marks of its rows. Contracts see its number, its shape, its rows, and the
/// rows with the marks that are prepared, if any are.
#[derive(Debug, Drop)]
pub(crate) struct SealedPiece {
    sealed: Arc<Sealed, Global>,
    marks: Marks,
    next: Option<Marks>,
    // What readers share, until a row is marked.
    part: Option<Part>,
}

impl Model for SealedPiece {
    ghost use Rattle.std.specs.Arc.{arc_value};
    ghost use Rattle.channel_pieces.specs.Fields.{Piece, KeepsPiece, piece_of};

    ghost Value = { Piece };

    ghost view = { λ s. piece_of (arc_value s.sealed) s.marks s.next };

    ghost invariant = { λ s. KeepsPiece (arc_value s.sealed) s.marks s.next s.part };
}

impl SealedPiece {
    /// A segment with the marks of its rows; takes no memory.
    pub(crate) fn of(sealed: Arc<Sealed, Global>, marks: Marks) -> SealedPiece
        requires { AreDeathsOf (length (arc_value sealed).rows) marks.deaths }
        ensures { result ≡ piece_of (arc_value sealed) marks None }
    {
        SealedPiece {
            sealed,
            marks,
            next: None,
            part: None,
        }
    }

    pub(crate) fn number(&self) -> u64
        ensures { result ≡ self.now.number }
    {
        self.sealed.number()
    }

    /// How many rows there are.
    pub(crate) fn len(&self) -> u32
        ensures { result ≡ length self.now.rows }
    {
        self.sealed.len()
    }

    /// How many rows did not die; takes no walk.
    pub(crate) fn live(&self) -> u64
        ensures { result ≡ count_by is_unmarked self.now.rows }
    {
        // Its contract says that deaths rise by their rows.
        let _deaths = self.marks.deaths();
        u64::from(self.sealed.len()) - self.marks.len()
    }

    /// How many rows are not dead at or before a floor; walks over the marks alone. Want of memory is
    /// the only error.
    pub(crate) fn kept(&self, alloc: Global, floor: Timestamp) -> Result<u64, Memory>
        ensures { IfOk result (λ kept. kept ≡ count_by (outlives floor.0) self.now.rows) }
    {
        let log = self.marks.to_log(alloc, self.sealed.number())?;
        let dead = count_dead(log.marks.as_slice(), floor);
        Ok(u64::from(self.sealed.len()) - dead as u64)
    }

    /// A part for a reader. Want of memory leaves the piece as it was.
    pub(crate) fn part(&mut self, alloc: Global) -> Result<Part, Memory>
        ensures part { IfOk result (IsPartOfPiece self.old) }
        ensures same { self.new ≡ self.old }
    {
        if let Some(part) = &self.part {
            return part.share();
        }
        let part = new_part(alloc, &self.sealed, &mut self.marks, 0)?;
        let shared = part.share()?;
        self.part = Some(part);
        Ok(shared)
    }

    /// A part that says that deaths are marked up to a position. Want of memory leaves the piece as it
    /// was.
    pub(crate) fn part_up_to(&mut self, alloc: Global, applied: u64) -> Result<Part, Memory>
        ensures part { IfOk result (IsPartOfPiece self.old) }
        ensures applied { IfOk result (λ part. part.applied ≡ applied) }
        ensures same { self.new ≡ self.old }
    {
        new_part(alloc, &self.sealed, &mut self.marks, applied)
    }

    /// Prepares the marks of some deaths, which rise by position. Want of memory leaves the piece as
    /// it was.
    pub(crate) fn prepare(
        &mut self,
        alloc: Global,
        deaths: &[(u64, Timestamp)],
    ) -> Result<(), Memory>
        requires { Climb (places_in deaths.now) }
        ensures ok { OnOk result (self.new ≡ readied deaths.now self.old) }
        ensures err { OnErr result (self.new ≡ self.old) }
    {
        // Its contract says that positions rise.
        let _number = self.sealed.number();
        let positions = self.sealed.positions();
        self.next = with_deaths(alloc, &mut self.marks, positions, deaths)?;
        Ok(())
    }

    /// Makes the marks that are prepared; takes no memory.
    pub(crate) fn commit(&mut self)
        ensures { self.new ≡ committed self.old }
    {
        if let Some(next) = self.next.take() {
            self.marks = next;
            self.part = None;
        }
    }
}

/// A part of a segment and equal marks. Want of memory leaves the marks as they were.
fn new_part(
    alloc: Global,
    sealed: &Arc<Sealed, Global>,
    marks: &mut Marks,
    applied: u64,
) -> Result<Part, Memory>
    requires { AreDeathsOf (length (arc_value sealed.now).rows) marks.old.deaths }
    ensures part { IfOk result (IsPartOf (arc_value sealed.now) marks.old) }
    ensures applied { IfOk result (λ part. part.applied ≡ applied) }
    ensures same { marks.new.deaths ≡ marks.old.deaths }
{
    let mut shared = marks.share(alloc)?;
    shared.advance(applied);
    let shared = Arc::new(alloc, shared)?;
    let sealed = Arc::try_clone(sealed)?;
    Ok(Part::new(sealed, shared))
}

/// Prepares the marks of some deaths in all pieces. Want of memory leaves the rows as they were.
pub(crate) fn prepare_all(
    alloc: Global,
    pieces: &mut Vec<SealedPiece>,
    deaths: &[(u64, Timestamp)],
) -> Result<(), Memory>
    requires { Climb (places_in deaths.now) }
    ensures ok { OnOk result (pieces.new.items ≡ map (readied deaths.now) pieces.old.items) }
    ensures same { map settled pieces.new.items ≡ map settled pieces.old.items }
{
    'pieces: for i in 0..pieces.len() {
        pieces[i].prepare(alloc, deaths)?;
    }
    Ok(())
}

/// Makes the marks that are prepared in all pieces; takes no memory.
pub(crate) fn commit_all(pieces: &mut Vec<SealedPiece>)
    ensures { pieces.new.items ≡ map committed pieces.old.items }
{
    'pieces: for i in 0..pieces.len() {
        pieces[i].commit();
    }
}

/// A part of each piece for each of its homes.
pub(crate) fn parts_of(
    alloc: Global,
    pieces: &mut Vec<SealedPiece>,
    places: &Places,
) -> Result<Vec<Part>, Memory>
    ensures rows { IfOk result (λ parts. map shown_rows parts.items ≡ places_of (map (homed places.now.segments) pieces.old.items)) }
    ensures shapes { IfOk result (λ parts. (dim : ℕ) (kinds : List Kind) → AllByRecursion (IsPiece dim kinds) pieces.old.items
        → AllByRecursion (HasShape dim kinds) parts.items) }
    ensures same { pieces.new.items ≡ pieces.old.items }
{
    let mut parts = Vec::with_capacity(alloc, pieces.len())?;
    'pieces: for i in 0..pieces.len() {
        place_piece(alloc, &mut pieces[i], places, &mut parts)?;
    }
    Ok(parts)
}

/// A part of a piece for each of its homes.
fn place_piece(
    alloc: Global,
    piece: &mut SealedPiece,
    places: &Places,
    parts: &mut Vec<Part>,
) -> Result<(), Memory>
    ensures rows { OnOk result (map shown_rows parts.new.items ≡ map shown_rows parts.old.items ++ map (λ home. piece.old.rows) (homed places.now.segments piece.old).homes) }
    ensures shapes { OnOk result ((dim : ℕ) (kinds : List Kind) → IsPiece dim kinds piece.old
        → AllByRecursion (HasShape dim kinds) parts.old.items → AllByRecursion (HasShape dim kinds) parts.new.items) }
    ensures same { piece.new ≡ piece.old }
{
    match places.homes(piece.number()) {
        Some(homes) => place_all(alloc, piece, homes, parts),
        None => Ok(()),
    }
}

/// A part of a piece for each of some homes.
fn place_all(
    alloc: Global,
    piece: &mut SealedPiece,
    homes: &[Home],
    parts: &mut Vec<Part>,
) -> Result<(), Memory>
    ensures rows { OnOk result (map shown_rows parts.new.items ≡ map shown_rows parts.old.items ++ map (λ home. piece.old.rows) homes.now) }
    ensures shapes { OnOk result ((dim : ℕ) (kinds : List Kind) → IsPiece dim kinds piece.old
        → AllByRecursion (HasShape dim kinds) parts.old.items → AllByRecursion (HasShape dim kinds) parts.new.items) }
    ensures same { piece.new ≡ piece.old }
{
    'homes: for _ in homes {
        parts.push(piece.part(alloc)?)?;
    }
    Ok(())
}
