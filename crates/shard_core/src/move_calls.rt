//! Moves of segments between their homes.

ghost use Rattle.std.specs.Prelude.{◌≡◌, ◌+◌, ◌^◌, ◌<◌, ◌≤◌, ◌⊎◌, ◌++◌, ℕ, List, [], Some, None, Err, length, IfOk, IfErr, OnOk, OnErr};
ghost use Rattle.std.specs.Option.{IfSome};
ghost use Rattle.journal_model.specs.declared.notes.Kind.TheVariants.{Load, Release};
ghost use Rattle.journal_model.specs.declared.notes.Note.{Note};
ghost use Rattle.journal_model.specs.declared.refusals.MoveError.TheVariants as error;
ghost use Rattle.journal_model.specs.Notes.{note_of};
ghost use Rattle.journal_model.specs.Layouts.{Channel, layout_of};
ghost use Rattle.journal_model.specs.Refusals.{move_refusal, load_refusal, release_refusal};
ghost use Rattle.shard_core.specs.Kept.{IsShapedAs, IsSource, IsBehindOf};
ghost use Rattle.shard_core.specs.Moves.{BegunMove, IsMoveOf, IsLike, StandsAt, Commits};

use crate::lagging::Lagging;
use crate::moving::{Back, Moving};
use crate::refusals::{why_not_loaded, why_not_moved, why_not_released};
use crate::shard::Shard;
use channel_journal::Journal;
use journal_model::{Home, Kind, MoveError};
use row_types::Memory;
use seg_sealed::Part;
use std::alloc::Global;

impl Shard {
    /// Begins to move a segment from a home, which it keeps: lends its part, with all deaths up to the
    /// end of the journal. A refusal is `Gone`, where the segment is not there; `NotThere`, where it is
    /// not on that node; `Already` with its least node, where it does not wait at the leader; and then
    /// `Memory`. The shard stays as it was.
    pub fn begin_move(
        &mut self,
        alloc: Global,
        segment: u64,
        from: Home,
    ) -> Result<Moving, MoveError>
        ensures lent { IfOk result (IsMoveOf self.old.channel self.old.state.notes) }
        ensures segment { IfOk result (λ moving. moving.part.sealed.number ≡ segment) }
        ensures home { IfOk result (λ moving. moving.home ≡ from) }
        ensures begun { IfOk result (λ moving. moving.begun ≡ length self.old.state.notes) }
        ensures refused { IfSome (move_refusal (layout_of self.old.channel self.old.state.notes) segment from) (λ why. result ≡ Err why) }
        ensures cause { IfErr result (λ why. (why ≡ error.Memory) ⊎ (move_refusal (layout_of self.old.channel self.old.state.notes) segment from ≡ Some why)) }
        ensures same { self.new ≡ self.old }
    {
        if let Some(why) = self.refuse_move(segment, from) {
            return Err(why);
        }
        let begun = self.journal.len();
        self.lagging.catch_up(alloc, &self.journal)?;
        let part = self.lagging.part(alloc, segment, begun)?;
        Ok(Moving {
            part,
            home: from,
            begun,
        })
    }

    /// Appends the load of a moved segment on a node: the node becomes a home of it, and the leader is
    /// one no longer. The part is the one that was lent, as it came back; deaths since then are marked.
    /// A refusal hands both back and leaves the shard as it was: `Gone`, where the segment is there no
    /// longer; `NotThere`, where its home node has it no longer; `Already` with its least node, where
    /// it is from the leader and waits there no longer, and with this node, where this one has it;
    /// and then `Memory`.
    pub fn commit_load(
        &mut self,
        alloc: Global,
        by: u64,
        line: u32,
        moving: Moving,
        part: Part,
        node: u32,
    ) -> Result<(), Back<(Moving, Part)>>
        requires node { node < self.old.collection.nodes }
        requires lent { IsMoveOf self.old.channel self.old.state.notes moving }
        requires part { IsLike part moving.part }
        ensures step { OnOk result (Commits self.old self.new (note_of by line (Load moving.part.sealed.number node))) }
        ensures free { OnOk result (load_refusal (layout_of self.old.channel self.old.state.notes) moving.part.sealed.number moving.home node ≡ None) }
        ensures stands { OnOk result (StandsAt self.new.channel self.new.state.notes moving.begun part) }
        ensures refused { IfSome (load_refusal (layout_of self.old.channel self.old.state.notes) moving.part.sealed.number moving.home node)
            (λ why. result ≡ Err (record { value = (moving, part); why = why })) }
        ensures cause { IfErr result (λ back. (back.why ≡ error.Memory)
            ⊎ (load_refusal (layout_of self.old.channel self.old.state.notes) moving.part.sealed.number moving.home node ≡ Some back.why)) }
        ensures given_back { IfErr result (λ back. back.value ≡ (moving, part)) }
        ensures err { OnErr result (self.new ≡ self.old) }
    {
        // Its contract says that the state is sound.
        let _ = self.journal.len();
        let segment = moving.part.sealed().number();
        match self.add_place(alloc, by, line, segment, moving.home, node) {
            Ok(()) => Ok(()),
            Err(why) => Err(Back {
                value: (moving, part),
                why,
            }),
        }
    }

    /// Appends the release of a segment from a node, which is a home of it no longer. A refusal leaves
    /// the shard as it was: `Gone`, where the segment is not there; `NotThere`, where the node does not
    /// have it; `LastPlace`, where nothing else has it; and then `Memory`.
    pub fn commit_release(
        &mut self,
        alloc: Global,
        by: u64,
        line: u32,
        segment: u64,
        node: u32,
    ) -> Result<(), MoveError>
        requires node { node < self.old.collection.nodes }
        ensures step { OnOk result (Commits self.old self.new (note_of by line (Release segment node))) }
        ensures free { OnOk result (release_refusal (layout_of self.old.channel self.old.state.notes) segment node ≡ None) }
        ensures refused { IfSome (release_refusal (layout_of self.old.channel self.old.state.notes) segment node) (λ why. result ≡ Err why) }
        ensures cause { IfErr result (λ why. (why ≡ error.Memory)
            ⊎ (release_refusal (layout_of self.old.channel self.old.state.notes) segment node ≡ Some why)) }
        ensures err { OnErr result (self.new ≡ self.old) }
    {
        // Its contract says that the state is sound.
        let _notes = self.journal.len();
        if let Some(why) = self.refuse_release(segment, node) {
            return Err(why);
        }
        make_ready(alloc, &mut self.journal, &mut self.lagging)?;
        self.lagging.release(segment, node);
        self.journal
            .append(by, line, Kind::Release { segment, node });
        self.spare = self.spare.saturating_sub(1);
        Ok(())
    }

    // Adds a home to a segment that is moved from another one.
    fn add_place(
        &mut self,
        alloc: Global,
        by: u64,
        line: u32,
        segment: u64,
        from: Home,
        node: u32,
    ) -> Result<(), MoveError>
        requires node { node < self.old.collection.nodes }
        ensures step { OnOk result (Commits self.old self.new (note_of by line (Load segment node))) }
        ensures free { OnOk result (load_refusal (layout_of self.old.channel self.old.state.notes) segment from node ≡ None) }
        ensures refused { IfSome (load_refusal (layout_of self.old.channel self.old.state.notes) segment from node) (λ why. result ≡ Err why) }
        ensures cause { IfErr result (λ why. (why ≡ error.Memory)
            ⊎ (load_refusal (layout_of self.old.channel self.old.state.notes) segment from node ≡ Some why)) }
        ensures err { OnErr result (self.new ≡ self.old) }
    {
        // Its contract says that the state is sound.
        let _notes = self.journal.len();
        if let Some(why) = self.refuse_load(segment, from, node) {
            return Err(why);
        }
        make_ready(alloc, &mut self.journal, &mut self.lagging)?;
        self.lagging.load(segment, node)?;
        self.journal.append(by, line, Kind::Load { segment, node });
        self.spare = self.spare.saturating_sub(1);
        Ok(())
    }

    fn refuse_move(&self, segment: u64, from: Home) -> Option<MoveError>
        ensures { result ≡ move_refusal (layout_of self.now.channel self.now.state.notes) segment from }
    {
        why_not_moved(segment, self.lagging.homes(segment), from)
    }

    fn refuse_load(&self, segment: u64, from: Home, node: u32) -> Option<MoveError>
        ensures { result ≡ load_refusal (layout_of self.now.channel self.now.state.notes) segment from node }
    {
        why_not_loaded(segment, self.lagging.homes(segment), from, node)
    }

    fn refuse_release(&self, segment: u64, node: u32) -> Option<MoveError>
        ensures { result ≡ release_refusal (layout_of self.now.channel self.now.state.notes) segment node }
    {
        why_not_released(segment, self.lagging.homes(segment), node)
    }
}

/// Brings the pieces up, and makes room for a note. Want of memory leaves both worth what they were.
pub(crate) fn make_ready(
    alloc: Global,
    journal: &mut Journal,
    lagging: &mut Lagging,
) -> Result<(), Memory>
    requires source { IsSource journal.old lagging.old.pieces }
    requires behind { IsBehindOf journal.old lagging.old }
    ensures up { OnOk result ((lagging.new.pending ≡ []) × (lagging.new.deaths ≡ [])) }
    ensures room { OnOk result (1 ≤ journal.new.spare) }
    ensures few { OnOk result (length journal.old.state.notes + 1 < 2 ^ 56) }
    ensures state { journal.new.state ≡ journal.old.state }
    ensures channel { journal.new.channel ≡ journal.old.channel }
    ensures spare { journal.old.spare ≤ journal.new.spare }
    ensures behind { IsBehindOf journal.new lagging.new }
    ensures shape { IsShapedAs lagging.old.pieces lagging.new.pieces }
    ensures pending_room { lagging.new.room ≡ lagging.old.room }
{
    lagging.catch_up(alloc, journal)?;
    if journal.len() + 1 >= 1 << 56 {
        return Err(Memory);
    }
    journal.reserve(alloc, 1)
}

/// A move that was begun stays one while the journal goes on. This call does nothing.
pub fn begun_moves()
    ensures later { (channel : Channel) (notes more : List Note) (m : BegunMove) → IsMoveOf channel notes m → IsMoveOf channel (notes ++ more) m }
{}
