//! The pieces of a channel.

ghost use Rattle.std.specs.Prelude.{◌≡◌, ℕ, ◌<◌, ◌≤◌, ◌^◌, ◌∷◌, [], length, map, true, false, Some, None, IfOk, OnOk, OnErr};
ghost use Rattle.std.specs.Arc.{arc_value};
ghost use Rattle.std.specs.Option.{option_map, is_some, IfSome, IsSome};
ghost use Rattle.std.specs.List.{AllByRecursion, count_by};
ghost use Rattle.row_types.specs.Bits.{IsDimension};
ghost use Rattle.log_model.specs.Places.{placed, PlacedBefore};
ghost use Rattle.journal_model.specs.declared.notes.Home.TheVariants.{Leader, Node};
ghost use Rattle.journal_model.specs.Layouts.{homes_after_load, homes_after_release};
ghost use Rattle.seg_sealed.specs.Segments.{IsRowOf};
ghost use Rattle.seg_sealed.specs.Parts.{AreDeathsOf, shown_from, shown_rows};
ghost use Rattle.channel_pieces.specs.Pieces.{no_pieces, placed_of, with_row, after_close, AreOnce, after_deaths, segment_in, with_homes, is_at, is_elsewhere, numbers_at, places_of, HasShape};
ghost use Rattle.channel_pieces.specs.Counting.{rows_of, counted, IsLeast};
ghost use Rattle.channel_pieces.specs.Keeping.{kept_on_nodes};

use crate::counting::{PieceCounts, count_pieces};
use crate::finds::{find, numbers_with};
use crate::keeping::{KeptRows, kept_on_nodes};
use crate::marking::by_position;
use crate::sealed_pieces::{SealedPiece, commit_all, parts_of, prepare_all};
use crate::tails::Tail;
use growing_segment::SharedTail;
use hybrid_time::Timestamp;
use journal_model::Home;
use log_model::SharedRow;
use place_table::Places;
use row_types::{Kind, List, Memory};
use seg_sealed::{Marks, Part};
use std::alloc::Global;
use std::marker::Model;
use std::sync::Arc;

/// The tail and the segments of a channel, with the marks of their dead rows and the segments' homes.
/// Contracts see the dimension and the column kinds of the rows, the number of nodes, the tail's rows
/// and the segments in rising order of numbers, each row with its mark.
#[derive(Drop)]
pub struct Pieces {
    kinds: List<Kind>,
    tail: Tail,
    segments: Vec<SealedPiece>,
    places: Places,
    // What readers share, until a segment or its homes change.
    list: Option<Arc<Vec<Part>, Global>>,
}

impl Model for Pieces {
    ghost use Rattle.std.specs.Arc.{arc_value};
    ghost use Rattle.std.specs.Option.{option_map};
    ghost use Rattle.channel_pieces.specs.Pieces.{MarkedLayout};
    ghost use Rattle.channel_pieces.specs.Fields.{seen, KeepsAll};

    ghost Value = { MarkedLayout };

    ghost view = { λ p. seen p.kinds p.tail p.segments.items p.places };

    ghost invariant = { λ p. KeepsAll p.kinds p.tail p.segments.items p.places (option_map arc_value p.list) };
}

impl Pieces {
    /// No rows, for vectors of `dim` bits, at most 16 columns of these kinds, and 1 to 16 nodes.
    pub fn new(alloc: Global, dim: u32, kinds: List<Kind>, nodes: u32) -> Result<Pieces, Memory>
        requires dim { IsDimension dim }
        requires width { length kinds ≤ 16 }
        requires some { 1 ≤ nodes }
        requires few { nodes ≤ 16 }
        ensures { IfOk result (λ pieces. pieces ≡ no_pieces dim kinds nodes) }
    {
        let tail = Tail::new(alloc, dim)?;
        let places = Places::new(alloc, nodes)?;
        Ok(Pieces {
            kinds,
            tail,
            segments: Vec::new(alloc),
            places,
            list: None,
        })
    }

    /// Puts a row behind all others of the tail, without a mark. Want of memory leaves the pieces as
    /// they were.
    pub fn push(
        &mut self,
        alloc: Global,
        position: u64,
        ts: Timestamp,
        row: SharedRow,
    ) -> Result<(), Memory>
        requires few { length self.old.tail < 65536 }
        requires fits { IsRowOf self.old.dim self.old.kinds (placed position ts.0 row) }
        requires last { AllByRecursion (λ s. PlacedBefore (placed_of s) (placed position ts.0 row)) self.old.tail }
        ensures ok { OnOk result (self.new ≡ with_row (placed position ts.0 row) self.old) }
        ensures err { OnErr result (self.new ≡ self.old) }
    {
        self.tail.push(alloc, position, ts, row)
    }

    /// The tail's rows become a segment, which waits at the leader, with their marks. The number is
    /// below 2^60 and above those of all segments. Want of memory leaves the pieces as they were.
    pub fn close(&mut self, alloc: Global, number: u64) -> Result<(), Memory>
        requires some { 0 < length self.old.tail }
        requires above { AllByRecursion (λ s. s.number < number) self.old.segments }
        requires low { number < 2 ^ 60 }
        ensures ok { OnOk result (self.new ≡ after_close number self.old) }
        ensures err { OnErr result (self.new ≡ self.old) }
    {
        self.list = None;
        let rows = self.tail.len();
        self.segments.reserve(1)?;
        let fresh = Marks::new(alloc, 0)?;
        let sealed = self.tail.seal(alloc, number)?;
        let sealed = Arc::new(alloc, sealed)?;
        self.places.add(alloc, number, rows)?;
        let marks = self.tail.clear(fresh);
        self.segments.push_reserved(SealedPiece::of(sealed, marks));
        Ok(())
    }

    /// Marks the rows of the tail and of all segments that died, each by its position: a row that has
    /// a mark keeps it. Want of memory leaves the pieces as they were.
    pub fn mark(&mut self, alloc: Global, deaths: &[(u64, Timestamp)]) -> Result<(), Memory>
        requires { AreOnce deaths.now }
        ensures ok { OnOk result (self.new ≡ after_deaths deaths.now self.old) }
        ensures err { OnErr result (self.new ≡ self.old) }
    {
        self.list = None;
        let sorted = by_position(alloc, deaths)?;
        self.tail.prepare(alloc, sorted.as_slice())?;
        prepare_all(alloc, &mut self.segments, sorted.as_slice())?;
        self.tail.commit();
        commit_all(&mut self.segments);
        Ok(())
    }

    /// The tail's rows and their marks as they stand now. Want of memory leaves the pieces as they
    /// were.
    pub fn tail(&mut self, alloc: Global) -> Result<(SharedTail, Marks), Memory>
        ensures rows { IfOk result (λ shared. shown_from shared.1.deaths 0 shared.0.rows ≡ self.old.tail) }
        ensures dim { IfOk result (λ shared. shared.0.dim ≡ self.old.dim) }
        ensures marks { IfOk result (λ shared. AreDeathsOf (length shared.0.rows) shared.1.deaths) }
        ensures same { self.new ≡ self.old }
    {
        self.tail.share(alloc)
    }

    /// A part for each home of each segment, in order; calls share the list until a segment or its homes
    /// change. Up to where their deaths are marked, the parts do not say. Want of memory leaves the
    /// pieces as they were.
    pub fn parts(&mut self, alloc: Global) -> Result<Arc<Vec<Part>, Global>, Memory>
        ensures rows { IfOk result (λ parts. map shown_rows (arc_value parts).items ≡ places_of self.old.segments) }
        ensures shapes { IfOk result (λ parts. AllByRecursion (HasShape self.old.dim self.old.kinds) (arc_value parts).items) }
        ensures same { self.new ≡ self.old }
    {
        if let Some(list) = &self.list {
            return Ok(Arc::try_clone(list)?);
        }
        let parts = parts_of(alloc, &mut self.segments, &self.places)?;
        let list = Arc::new(alloc, parts)?;
        let shared = Arc::try_clone(&list)?;
        self.list = Some(list);
        Ok(shared)
    }

    /// Where a segment stands: at its leader, or on nodes; `None` exactly where it is not there.
    pub fn homes(&self, number: u64) -> Option<&[Home]>
        ensures homes { option_map (λ homes. homes.now) result ≡ option_map (λ s. s.homes) (segment_in self.now.segments number) }
        ensures placed { IfSome result (λ homes. 0 < length homes.now) }
    {
        self.places.homes(number)
    }

    /// A part of a segment, which says that deaths are marked up to a position; `None` exactly where the
    /// segment is not there. Want of memory leaves the pieces as they were.
    pub fn part(&mut self, alloc: Global, number: u64, applied: u64) -> Result<Option<Part>, Memory>
        ensures rows { IfOk result (λ found. option_map shown_rows found ≡ option_map (λ s. s.rows) (segment_in self.old.segments number)) }
        ensures part { IfOk result (λ found. IfSome found (λ part. part.sealed.number ≡ number)) }
        ensures shape { IfOk result (λ found. IfSome found (HasShape self.old.dim self.old.kinds)) }
        ensures applied { IfOk result (λ found. IfSome found (λ part. part.applied ≡ applied)) }
        ensures same { self.new ≡ self.old }
    {
        let Some(at) = find(self.segments.as_slice(), number) else {
            return Ok(None);
        };
        let piece = &mut self.segments[at];
        let part = piece.part_up_to(alloc, applied)?;
        Ok(Some(part))
    }

    /// Adds a node to the homes of a segment that is there and not on it, and takes the leader's place
    /// away. Want of memory leaves the pieces as they were.
    pub fn load(&mut self, number: u64, node: u32) -> Result<(), Memory>
        requires node { node < self.old.nodes }
        requires elsewhere { option_map (is_at (Node node)) (segment_in self.old.segments number) ≡ Some false }
        ensures ok { OnOk result (self.new ≡ with_homes number (homes_after_load node) self.old) }
        ensures err { OnErr result (self.new ≡ self.old) }
    {
        self.list = None;
        // Nothing but memory refuses a load that is asked for so.
        let Ok(()) = self.places.load(number, node) else {
            return Err(Memory);
        };
        Ok(())
    }

    /// Takes a node from the homes of a segment that is there, on this node and elsewhere; takes no
    /// memory.
    pub fn release(&mut self, number: u64, node: u32)
        requires node { node < self.old.nodes }
        requires there { option_map (is_at (Node node)) (segment_in self.old.segments number) ≡ Some true }
        requires more { option_map (is_elsewhere (Node node)) (segment_in self.old.segments number) ≡ Some true }
        ensures { self.new ≡ with_homes number (homes_after_release node) self.old }
    {
        self.list = None;
        match self.places.release(number, node) {
            Ok(()) => {}
            Err(_) => unreachable!(),
        }
    }

    /// The node with the fewest rows, and of several such nodes the least; takes no memory.
    pub fn choose_node(&self) -> u32
        ensures least { IsLeast self.now.nodes self.now.segments result }
    {
        self.places.choose_node()
    }

    /// What the pieces count; walks over segments, and over no rows.
    pub fn counts(&self) -> PieceCounts
        requires few { rows_of self.now.segments < 2 ^ 64 }
        ensures { result ≡ counted self.now }
    {
        count_pieces(self.tail.len(), self.segments.as_slice(), &self.places)
    }

    /// The segments on nodes, rising: how many rows each has, and how many of them are not dead at or
    /// before a floor. Walks over marks, and over no rows. Want of memory is the only error.
    pub fn kept(&self, alloc: Global, floor: Timestamp) -> Result<Vec<KeptRows>, Memory>
        ensures { IfOk result (λ kept. kept.items ≡ kept_on_nodes floor.0 self.now.segments) }
    {
        kept_on_nodes(alloc, self.segments.as_slice(), &self.places, floor)
    }

    /// The numbers of the segments that wait at the leader, rising.
    pub fn waiting(&self, alloc: Global) -> Result<Vec<u64>, Memory>
        ensures { IfOk result (λ numbers. numbers.items ≡ numbers_at Leader self.now.segments) }
    {
        numbers_with(alloc, self.segments.as_slice(), &self.places, Home::Leader)
    }

    /// The numbers of the segments on a node, rising.
    pub fn on_node(&self, alloc: Global, node: u32) -> Result<Vec<u64>, Memory>
        ensures { IfOk result (λ numbers. numbers.items ≡ numbers_at (Node node) self.now.segments) }
    {
        numbers_with(
            alloc,
            self.segments.as_slice(),
            &self.places,
            Home::Node(node),
        )
    }
}
