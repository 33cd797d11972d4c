//! Merges of segments, and lists of their rows.

ghost use Rattle.std.specs.Prelude.{◌≡◌, ◌+◌, ◌<◌, ◌≤◌, ◌⊎◌, ◌++◌, ℕ, List, None, Some, Err, length, map, drop, true, IfOk, IfErr, OnOk, OnErr};
ghost use Rattle.std.specs.List.{sum_by};
ghost use Rattle.std.specs.Option.{IfSome};
ghost use Rattle.journal_model.specs.declared.notes.Kind.TheVariants.{Number, Merge, Lists};
ghost use Rattle.journal_model.specs.declared.notes.Note.{Note};
ghost use Rattle.journal_model.specs.declared.refusals.MoveError.TheVariants as error;
ghost use Rattle.journal_model.specs.Notes.{note_of};
ghost use Rattle.journal_model.specs.Layouts.{Channel, number_at, sources_in, merged_piece, layout_of};
ghost use Rattle.journal_model.specs.Groups.{kept_rows};
ghost use Rattle.journal_model.specs.Refusals.{begin_merge_refusal, merge_refusal};
ghost use Rattle.journal_model.specs.Runs.{State, IsSound, is_step};
ghost use Rattle.journal_model.specs.Lawful.{IsBegun, given_of};
ghost use Rattle.journal_model.specs.Views.{StandsFor, advanced};
ghost use Rattle.seg_sealed.specs.Parts.{SegmentPart, IsMergedPart, shown_rows};
ghost use Rattle.seg_sealed.specs.Parts as lent;
ghost use Rattle.shard_core.specs.Moves.{Commits};
ghost use Rattle.shard_core.specs.Merging.{AreRising, BegunMerging, IsMergingOf, sources_of, begun_as};

use crate::merging::Merging;
use crate::move_calls::make_ready;
use crate::refusals::why_not_merged;
use crate::shard::Shard;
use journal_model::{Kind, MoveError};
use std::alloc::Global;

impl Shard {
    /// Begins to merge segments, which stay where they are: takes a number, notes the floor, and lends
    /// their parts, with all deaths up to the end of the journal. The numbers rise, and the segments
    /// keep at most `seal_rows` rows, as the floor stands. A refusal is `Gone`, for the first that is
    /// on no node, and then `Memory`; it leaves the shard as it was.
    pub fn begin_merge(
        &mut self,
        alloc: Global,
        by: u64,
        line: u32,
        segments: &[u64],
    ) -> Result<Merging, MoveError>
        requires rise { AreRising segments.now }
        requires some { 0 < length segments.now }
        requires few { sum_by (kept_rows self.old.state.notes self.old.state.floor) (sources_in segments.now (layout_of self.old.channel self.old.state.notes).segments)
            ≤ self.old.channel.seal_rows }
        ensures step { IfOk result (λ merging. Commits self.old self.new (note_of by line (Number merging.number (record { 0 = merging.floor })))) }
        ensures begun { IfOk result (IsMergingOf self.new.channel self.new.state.notes) }
        ensures sources { IfOk result (λ merging. sources_of merging ≡ segments.now) }
        ensures number { IfOk result (λ merging. merging.number ≡ number_at self.old.channel (layout_of self.old.channel self.old.state.notes).taken) }
        ensures seat { IfOk result (λ merging. merging.by ≡ by) }
        ensures floor { IfOk result (λ merging. merging.floor ≡ self.old.state.floor) }
        ensures at { IfOk result (λ merging. merging.begun ≡ length self.old.state.notes + 1) }
        ensures refused { IfSome (begin_merge_refusal (layout_of self.old.channel self.old.state.notes) segments.now) (λ why. result ≡ Err why) }
        ensures cause { IfErr result (λ why. (why ≡ error.Memory) ⊎ (begin_merge_refusal (layout_of self.old.channel self.old.state.notes) segments.now ≡ Some why)) }
        ensures err { OnErr result (self.new ≡ self.old) }
    {
        // Its contract says that the state is sound.
        let notes = self.journal.len();
        if let Some(why) = self.refuse_merge(segments) {
            return Err(why);
        }
        make_ready(alloc, &mut self.journal, &mut self.lagging)?;
        // Its contract says that there are at most as many numbers as notes.
        let _taken = self.journal.taken();
        let begun = notes + 1;
        let parts = self.lagging.lend(alloc, segments, begun)?;
        let number = self.journal.next_number();
        let floor = self.journal.floor();
        self.journal.append(
            by,
            line,
            Kind::Number {
                segment: number,
                floor,
            },
        );
        self.spare = self.spare.saturating_sub(1);
        Ok(Merging {
            parts,
            number,
            by,
            floor,
            begun,
        })
    }

    fn refuse_merge(&self, segments: &[u64]) -> Option<MoveError>
        ensures { result ≡ begin_merge_refusal (layout_of self.now.channel self.now.state.notes) segments.now }
    {
        'segments: for segment in segments {
            if let Some(why) = why_not_merged(*segment, self.lagging.homes(*segment)) {
                return Some(why);
            }
        }
        None
    }
}

/// A merge that was begun stays one while the journal goes on. This call does nothing.
pub fn begun_merges()
    ensures later { (channel : Channel) (notes more : List Note) (m : BegunMerging) → IsMergingOf channel notes m → IsMergingOf channel (notes ++ more) m }
{}

/// What a merge gives of the parts that were lent stands for its piece while its sources are there, with
/// the marks of the deaths since it began; and the Merge note that gives a segment exactly where rows are
/// kept is a step then. This call does nothing.
pub fn merged_parts()
    ensures stands { (channel : Channel) (s : State) (m : BegunMerging) (part : SegmentPart) → IsSound channel s → IsMergingOf channel s.notes m
        → IsMergedPart m.number m.begun m.floor m.parts part → merge_refusal (layout_of channel s.notes) (sources_of m) ≡ None
        → StandsFor s.notes (map (advanced (drop m.begun s.notes)) (shown_rows part)) (merged_piece s.notes (layout_of channel s.notes) (sources_of m) (begun_as m)) }
    ensures step { (channel : Channel) (s : State) (m : BegunMerging) (line node : ℕ) → IsSound channel s → IsMergingOf channel s.notes m
        → IsBegun s.notes (begun_as m) → merge_refusal (layout_of channel s.notes) (sources_of m) ≡ None
        → is_step channel s (note_of m.by line (Merge (sources_of m) (given_of m.number (length (lent.kept_rows m.floor m.parts))) node)) ≡ true }
{}
