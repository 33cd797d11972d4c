//! Pieces that lag behind their journal, and how they are brought up.

ghost use Rattle.std.specs.Prelude.{◌≡◌, ◌+◌, ◌^◌, ◌<◌, ◌≤◌, ◌++◌, ◌∷◌, [], length, map, drop, true, false, Some, None, is_some, option_to_list, vec_len, vec_capacity, IfOk, OnOk, OnErr};
ghost use Rattle.std.specs.Arc.{arc_value};
ghost use Rattle.std.specs.Option.{option_map};
ghost use Rattle.std.specs.List.{AllByRecursion, list_any};
ghost use Rattle.journal_model.specs.Layouts.{homes_after_load, homes_after_release};
ghost use Rattle.channel_journal.specs.Outcomes.{ended_row, sealed_number, segment_number};
ghost use Rattle.seg_sealed.specs.Parts.{AreDeathsOf, shown_from, shown_rows};
ghost use Rattle.journal_model.specs.declared.notes.Home.TheVariants.{Leader, Node};
ghost use Rattle.channel_pieces.specs.Pieces.{no_pieces, placed_of, places_of, numbers_at, segment_in, with_homes, is_at, is_elsewhere, HasShape};
ghost use Rattle.channel_pieces.specs.Counting.{rows_of, counted, IsLeast};
ghost use Rattle.channel_pieces.specs.Keeping.{kept_on_nodes};
ghost use Rattle.shard_core.specs.Shelves.{shelves_in_pieces};
ghost use Rattle.shard_core.specs.Steps.{after_pending, after_all, pending_end, is_closing, counted_after, counted_all, Fit};
ghost use Rattle.shard_core.specs.Found.{found_with, rows_found, found_of};
ghost use Rattle.shard_core.specs.Told.{pending_told, deaths_told};
ghost use Rattle.shard_core.specs.Kept.{IsShapedAs, IsSource, IsBehindOf, Pends, IsNext};

use crate::pending::Pending;
use channel_journal::{Journal, PutOutcome, RemoveOutcome};
use channel_pieces::{KeptRows, PieceCounts, Pieces};
use growing_segment::SharedTail;
use hybrid_time::Timestamp;
use journal_model::{Home, Kind};
use row_types::Memory;
use seg_sealed::{Marks, Part};
use std::alloc::Global;
use std::marker::Model;
use std::sync::Arc;

/// The pieces of a channel with what they lack of its journal: rows and boundaries in their order, and
/// the deaths that are no marks yet. A write adds to these without memory.
#[derive(Drop)]
pub(crate) struct Lagging {
    pieces: Pieces,
    pending: Vec<Pending>,
    deaths: Vec<(u64, Timestamp)>,
    room: u64,
}

impl Model for Lagging {
    ghost use Rattle.std.specs.Prelude.{vec_len, vec_capacity};
    ghost use Rattle.shard_core.specs.Kept.{LaggingPieces, HasSpace};

    ghost Value = { LaggingPieces };

    ghost view = { λ l. record { pieces = l.pieces; pending = l.pending.items; deaths = l.deaths.items; room = l.room } };

    ghost invariant = { λ l. HasSpace l.room (vec_len l.pending) (vec_capacity l.pending) (vec_len l.deaths) (vec_capacity l.deaths) };
}

impl Lagging {
    /// Pieces that lack nothing, with no room for notes.
    pub(crate) fn of(alloc: Global, pieces: Pieces) -> Lagging
        ensures { result ≡ record { pieces = pieces; pending = []; deaths = []; room = 0 } }
    {
        Lagging {
            pieces,
            pending: Vec::new(alloc),
            deaths: Vec::new(alloc),
            room: 0,
        }
    }

    /// Room for what `n` more notes leave to be brought up.
    pub(crate) fn reserve(&mut self, n: u32) -> Result<(), Memory>
        ensures room { OnOk result (n ≤ self.new.room) }
        ensures grows { self.old.room ≤ self.new.room }
        ensures pieces { self.new.pieces ≡ self.old.pieces }
        ensures pending { self.new.pending ≡ self.old.pending }
        ensures deaths { self.new.deaths ≡ self.old.deaths }
    {
        let wanted = u64::from(n);
        if wanted <= self.room {
            return Ok(());
        }
        self.pending.reserve(wanted as usize * 2)?;
        self.deaths.reserve(wanted as usize)?;
        self.room = wanted;
        Ok(())
    }

    /// What a put at a position told is to be brought up.
    pub(crate) fn put(&mut self, position: u64, ts: Timestamp, outcome: PutOutcome)
        requires { 1 ≤ self.old.room }
        ensures pending { self.new.pending ≡ self.old.pending ++ pending_told position outcome }
        ensures deaths { self.new.deaths ≡ self.old.deaths ++ deaths_told ts (ended_row outcome) }
        ensures pieces { self.new.pieces ≡ self.old.pieces }
        ensures room { self.old.room ≤ self.new.room + 1 }
    {
        let PutOutcome::Added { ended, sealed } = outcome else {
            return;
        };
        self.room -= 1;
        self.pending.push_reserved(Pending::Row { position });
        push_end(&mut self.pending, sealed);
        push_death(&mut self.deaths, ts, ended);
    }

    /// What a remove told is to be brought up.
    pub(crate) fn remove(&mut self, ts: Timestamp, outcome: RemoveOutcome)
        requires { 1 ≤ self.old.room }
        ensures pending { self.new.pending ≡ self.old.pending }
        ensures deaths { self.new.deaths ≡ self.old.deaths ++ deaths_told ts outcome.ended }
        ensures pieces { self.new.pieces ≡ self.old.pieces }
        ensures room { self.old.room ≤ self.new.room + 1 }
    {
        self.room -= 1;
        push_death(&mut self.deaths, ts, outcome.ended);
    }

    /// That the tail became the segment of a number is to be brought up.
    pub(crate) fn close(&mut self, number: u64)
        requires { 1 ≤ self.old.room }
        ensures pending { self.new.pending ≡ self.old.pending ++ Pending.Closed number ∷ [] }
        ensures deaths { self.new.deaths ≡ self.old.deaths }
        ensures pieces { self.new.pieces ≡ self.old.pieces }
        ensures room { self.old.room ≤ self.new.room + 1 }
    {
        self.room -= 1;
        self.pending.push_reserved(Pending::Closed { number });
    }

    /// Brings the pieces up to their journal. Want of memory leaves them behind it by less, or as they
    /// were.
    pub(crate) fn catch_up(&mut self, alloc: Global, journal: &Journal) -> Result<(), Memory>
        requires source { IsSource journal.now self.old.pieces }
        requires behind { IsBehindOf journal.now self.old }
        ensures behind { IsBehindOf journal.now self.new }
        ensures ok { OnOk result ((self.new.pending ≡ []) × (self.new.deaths ≡ [])) }
        ensures shape { IsShapedAs self.old.pieces self.new.pieces }
        ensures room { self.new.room ≡ self.old.room }
    {
        let done = apply_some(alloc, journal, &mut self.pieces, self.pending.as_slice());
        drop_front(&mut self.pending, done);
        if !self.pending.is_empty() {
            return Err(Memory);
        }
        if !self.deaths.is_empty() {
            self.pieces.mark(alloc, self.deaths.as_slice())?;
            self.deaths.clear();
        }
        Ok(())
    }

    /// Brings the pieces up where deaths are open, so that none is. Want of memory leaves the pieces behind
    /// by less, or as they were.
    pub(crate) fn close_deaths(&mut self, alloc: Global, journal: &Journal) -> Result<(), Memory>
        requires source { IsSource journal.now self.old.pieces }
        requires behind { IsBehindOf journal.now self.old }
        ensures behind { IsBehindOf journal.now self.new }
        ensures ok { OnOk result (self.new.deaths ≡ []) }
        ensures shape { IsShapedAs self.old.pieces self.new.pieces }
        ensures room { self.new.room ≡ self.old.room }
    {
        if self.deaths.is_empty() {
            return Ok(());
        }
        self.catch_up(alloc, journal)
    }

    /// What the pieces count, with what is pending.
    pub(crate) fn counts(&self) -> PieceCounts
        requires few { rows_of self.now.pieces.segments < 2 ^ 64 }
        requires fits { Fit (counted self.now.pieces) self.now.pending }
        ensures { result ≡ counted_all (counted self.now.pieces) self.now.pending }
    {
        count_pending(self.pieces.counts(), self.pending.as_slice())
    }

    /// The segments on nodes, as the pieces have them: how many rows each has, and how many of them are
    /// not dead at or before a floor.
    pub(crate) fn kept(&self, alloc: Global, floor: Timestamp) -> Result<Vec<KeptRows>, Memory>
        ensures { IfOk result (λ kept. kept.items ≡ kept_on_nodes floor.0 self.now.pieces.segments) }
    {
        self.pieces.kept(alloc, floor)
    }

    /// The numbers of the segments that wait at the leader, as the pieces have them.
    pub(crate) fn waiting(&self, alloc: Global) -> Result<Vec<u64>, Memory>
        ensures { IfOk result (λ numbers. numbers.items ≡ numbers_at Leader self.now.pieces.segments) }
    {
        self.pieces.waiting(alloc)
    }

    /// The numbers of the segments on a node, as the pieces have them.
    pub(crate) fn on_node(&self, alloc: Global, node: u32) -> Result<Vec<u64>, Memory>
        ensures { IfOk result (λ numbers. numbers.items ≡ numbers_at (Node node) self.now.pieces.segments) }
    {
        self.pieces.on_node(alloc, node)
    }

    /// The node with the fewest rows, as the pieces stand; what is pending changes nothing of that.
    pub(crate) fn choose_node(&self) -> u32
        ensures { IsLeast self.now.pieces.nodes self.now.pieces.segments result }
    {
        self.pieces.choose_node()
    }

    /// The rows of the tail and their marks, as the pieces have them.
    pub(crate) fn tail(&mut self, alloc: Global) -> Result<(SharedTail, Marks), Memory>
        ensures rows { IfOk result (λ shared. shown_from shared.1.deaths 0 shared.0.rows ≡ self.old.pieces.tail) }
        ensures dim { IfOk result (λ shared. shared.0.dim ≡ self.old.pieces.dim) }
        ensures marks { IfOk result (λ shared. AreDeathsOf (length shared.0.rows) shared.1.deaths) }
        ensures same { self.new ≡ self.old }
    {
        self.pieces.tail(alloc)
    }

    /// A part for each home of each segment, as the pieces have them; calls share the list until a segment
    /// or its homes change.
    pub(crate) fn parts(&mut self, alloc: Global) -> Result<Arc<Vec<Part>, Global>, Memory>
        ensures rows { IfOk result (λ parts. map shown_rows (arc_value parts).items ≡ places_of self.old.pieces.segments) }
        ensures same { self.new ≡ self.old }
    {
        self.pieces.parts(alloc)
    }

    /// Where a segment stands once the pieces are brought up; `None` exactly where it is not there.
    pub(crate) fn homes(&self, number: u64) -> Option<&[Home]>
        ensures { option_map (λ homes. homes.now) result ≡ found_with self.now.pieces.segments self.now.pending number }
    {
        if let Some(homes) = self.pieces.homes(number) {
            return Some(homes);
        }
        if closes(self.pending.as_slice(), number) {
            return Some(&[Home::Leader]);
        }
        None
    }

    /// A part of a segment that the pieces have, which says that deaths are marked up to a position.
    pub(crate) fn part(&mut self, alloc: Global, number: u64, applied: u64) -> Result<Part, Memory>
        requires there { is_some (segment_in self.old.pieces.segments number) ≡ true }
        ensures rows { IfOk result (λ part. Some (shown_rows part) ≡ option_map (λ s. s.rows) (segment_in self.old.pieces.segments number)) }
        ensures number { IfOk result (λ part. part.sealed.number ≡ number) }
        ensures shape { IfOk result (HasShape self.old.pieces.dim self.old.pieces.kinds) }
        ensures applied { IfOk result (λ part. part.applied ≡ applied) }
        ensures same { self.new ≡ self.old }
    {
        match self.pieces.part(alloc, number, applied)? {
            Some(part) => Ok(part),
            None => unreachable!(),
        }
    }

    /// The parts of segments that the pieces have, in order, which say that deaths are marked up to a
    /// position.
    pub(crate) fn lend(
        &mut self,
        alloc: Global,
        numbers: &[u64],
        applied: u64,
    ) -> Result<Vec<Part>, Memory>
        requires there { AllByRecursion (λ number. is_some (segment_in self.old.pieces.segments number) ≡ true) numbers.now }
        ensures rows { IfOk result (λ parts. found_of parts.items ≡ map (rows_found self.old.pieces.segments) numbers.now) }
        ensures numbers { IfOk result (λ parts. map (λ part. part.sealed.number) parts.items ≡ numbers.now) }
        ensures applied { IfOk result (λ parts. AllByRecursion (λ part. part.applied ≡ applied) parts.items) }
        ensures shapes { IfOk result (λ parts. AllByRecursion (HasShape self.old.pieces.dim self.old.pieces.kinds) parts.items) }
        ensures same { self.new ≡ self.old }
    {
        let mut parts = Vec::with_capacity(alloc, numbers.len())?;
        'numbers: for number in numbers {
            let part = self.part(alloc, *number, applied)?;
            parts.push(part)?;
        }
        Ok(parts)
    }

    /// Adds a node to the homes of a segment that the pieces have. Want of memory leaves the homes as
    /// they were.
    pub(crate) fn load(&mut self, number: u64, node: u32) -> Result<(), Memory>
        requires node { node < self.old.pieces.nodes }
        requires elsewhere { option_map (is_at (Node node)) (segment_in self.old.pieces.segments number) ≡ Some false }
        ensures ok { OnOk result (self.new.pieces ≡ with_homes number (homes_after_load node) self.old.pieces) }
        ensures err { OnErr result (self.new.pieces ≡ self.old.pieces) }
        ensures pending { self.new.pending ≡ self.old.pending }
        ensures deaths { self.new.deaths ≡ self.old.deaths }
        ensures room { self.new.room ≡ self.old.room }
    {
        self.pieces.load(number, node)
    }

    /// Takes a node from the homes of a segment that the pieces have, on this node and elsewhere.
    pub(crate) fn release(&mut self, number: u64, node: u32)
        requires node { node < self.old.pieces.nodes }
        requires there { option_map (is_at (Node node)) (segment_in self.old.pieces.segments number) ≡ Some true }
        requires more { option_map (is_elsewhere (Node node)) (segment_in self.old.pieces.segments number) ≡ Some true }
        ensures pieces { self.new.pieces ≡ with_homes number (homes_after_release node) self.old.pieces }
        ensures pending { self.new.pending ≡ self.old.pending }
        ensures deaths { self.new.deaths ≡ self.old.deaths }
        ensures room { self.new.room ≡ self.old.room }
    {
        self.pieces.release(number, node);
    }
}

/// Whether the tail is to become the segment of a number.
fn closes(pending: &[Pending], number: u64) -> bool
    ensures { result ≡ list_any (is_closing number) pending.now }
{
    pending.iter().any(|next| is_boundary(*next, number))
}

fn is_boundary(next: Pending, number: u64) -> bool
    ensures { result ≡ is_closing number next }
{
    match next {
        Pending::Row { .. } => false,
        Pending::Closed { number: other } => other == number,
    }
}

/// The counts of pieces with what is pending.
fn count_pending(pieces: PieceCounts, pending: &[Pending]) -> PieceCounts
    requires { Fit pieces pending.now }
    ensures { result ≡ counted_all pieces pending.now }
{
    let mut counts = pieces;
    'pending: for next in pending {
        counts = count_next(counts, *next);
    }
    counts
}

/// A row joins the tail; a boundary makes the tail a segment that waits.
fn count_next(counts: PieceCounts, next: Pending) -> PieceCounts
    requires tail { counts.tail + 1 < 2 ^ 64 }
    requires waiting { counts.waiting + 1 < 2 ^ 64 }
    ensures { result ≡ counted_after counts next }
{
    match next {
        Pending::Row { .. } => PieceCounts {
            tail: counts.tail + 1,
            ..counts
        },
        Pending::Closed { .. } => PieceCounts {
            tail: 0,
            waiting: counts.waiting + 1,
            ..counts
        },
    }
}

fn push_end(pending: &mut Vec<Pending>, number: Option<u64>)
    requires { vec_len pending.old < vec_capacity pending.old }
    ensures items { pending.new.items ≡ pending.old.items ++ pending_end number }
    ensures len { vec_len pending.new ≤ vec_len pending.old + 1 }
    ensures capacity { vec_capacity pending.new ≡ vec_capacity pending.old }
{
    if let Some(number) = number {
        pending.push_reserved(Pending::Closed { number });
    }
}

fn push_death(deaths: &mut Vec<(u64, Timestamp)>, ts: Timestamp, ended: Option<u64>)
    requires { vec_len deaths.old < vec_capacity deaths.old }
    ensures items { deaths.new.items ≡ deaths.old.items ++ deaths_told ts ended }
    ensures len { vec_len deaths.new ≤ vec_len deaths.old + 1 }
    ensures capacity { vec_capacity deaths.new ≡ vec_capacity deaths.old }
{
    if let Some(position) = ended {
        deaths.push_reserved((position, ts));
    }
}

/// Drops the first `n` items and keeps the capacity.
fn drop_front(pending: &mut Vec<Pending>, n: usize)
    requires { n ≤ vec_len pending.old }
    ensures items { pending.new.items ≡ drop n pending.old.items }
    ensures len { vec_len pending.new ≤ vec_len pending.old }
    ensures capacity { vec_capacity pending.new ≡ vec_capacity pending.old }
{
    pending.rotate_left(n);
    pending.truncate(pending.len() - n);
}

/// Applies what is pending, from the front on, as far as the memory goes. How many were applied.
fn apply_some(alloc: Global, journal: &Journal, pieces: &mut Pieces, pending: &[Pending]) -> usize
    requires source { IsSource journal.now pieces.old }
    requires pends { Pends journal.now.channel journal.now.state.notes pending.now (shelves_in_pieces pieces.old) }
    ensures count { result ≤ length pending.now }
    ensures rest { after_all journal.now.state.notes (shelves_in_pieces pieces.new) (drop result pending.now)
        ≡ after_all journal.now.state.notes (shelves_in_pieces pieces.old) pending.now }
    ensures shape { IsShapedAs pieces.old pieces.new }
{
    let mut done = 0;
    'pending: for next in pending {
        if apply(alloc, journal, pieces, *next).is_err() {
            return done;
        }
        done += 1;
    }
    done
}

/// Applies the next of what is pending.
fn apply(alloc: Global, journal: &Journal, pieces: &mut Pieces, next: Pending) -> Result<(), Memory>
    requires source { IsSource journal.now pieces.old }
    requires next { IsNext journal.now.channel journal.now.state.notes (shelves_in_pieces pieces.old) next }
    ensures ok { OnOk result (shelves_in_pieces pieces.new ≡ after_pending journal.now.state.notes (shelves_in_pieces pieces.old) next) }
    ensures err { OnErr result (pieces.new ≡ pieces.old) }
    ensures shape { IsShapedAs pieces.old pieces.new }
{
    match next {
        Pending::Row { position } => push_row(alloc, journal, pieces, position),
        Pending::Closed { number } => pieces.close(alloc, number),
    }
}

/// Puts the row of a position behind the tail.
fn push_row(
    alloc: Global,
    journal: &Journal,
    pieces: &mut Pieces,
    position: u64,
) -> Result<(), Memory>
    requires source { IsSource journal.now pieces.old }
    requires next { IsNext journal.now.channel journal.now.state.notes (shelves_in_pieces pieces.old) (Pending.Row position) }
    ensures ok { OnOk result (shelves_in_pieces pieces.new ≡ after_pending journal.now.state.notes (shelves_in_pieces pieces.old) (Pending.Row position)) }
    ensures err { OnErr result (pieces.new ≡ pieces.old) }
    ensures shape { IsShapedAs pieces.old pieces.new }
{
    match &journal.note(position).kind {
        Kind::Put { ts, row, .. } => pieces.push(alloc, position, *ts, row.share()?),
        _ => unreachable!(),
    }
}
