//! Which segments are merged together.

ghost use Rattle.std.specs.Prelude.{◌≡◌, [], map, IfOk};
ghost use Rattle.journal_model.specs.Groups.{numbers_of, small_groups, meet_groups};
ghost use Rattle.shard_core.specs.Kept.{IsBehindOf};

use crate::grouping::{grouped, is_mostly_dead, small_of};
use crate::lagging::Lagging;
use crate::shard::Shard;
use channel_journal::Journal;
use row_types::Memory;
use std::alloc::Global;

impl Shard {
    /// Brings the pieces up and gives the groups of segments that a compaction merges, as the floor
    /// stands: of the segments on nodes that keep at most half of `seal_rows` rows, rising, a group
    /// takes the next while it keeps at most `seal_rows` rows; those of two and more. Walks over marks,
    /// and over no rows. Want of memory is the only error.
    pub fn small_groups(&mut self, alloc: Global) -> Result<Vec<Vec<u64>>, Memory>
        ensures groups { IfOk result (λ groups. map (λ group. group.items) groups.items ≡ numbers_of (small_groups self.old.channel self.old.state.notes self.old.state.floor)) }
        ensures same { self.new ≡ self.old }
    {
        let _ = self.journal.len();
        self.lagging.catch_up(alloc, &self.journal)?;
        take_small_groups(alloc, &self.journal, &self.lagging)
    }

    /// Brings the pieces up and gives the groups of segments that a meet merges, as the floor stands:
    /// none, unless less than half of the rows on nodes are kept; else of all segments on nodes,
    /// rising, a group takes the next while it keeps at most `seal_rows` rows. Walks over marks, and
    /// over no rows. Want of memory is the only error.
    pub fn meet_groups(&mut self, alloc: Global) -> Result<Vec<Vec<u64>>, Memory>
        ensures groups { IfOk result (λ groups. map (λ group. group.items) groups.items ≡ numbers_of (meet_groups self.old.channel self.old.state.notes self.old.state.floor)) }
        ensures same { self.new ≡ self.old }
    {
        let _ = self.journal.len();
        self.lagging.catch_up(alloc, &self.journal)?;
        take_meet_groups(alloc, &self.journal, &self.lagging)
    }
}

/// The groups of a compaction, of pieces that are brought up.
fn take_small_groups(
    alloc: Global,
    journal: &Journal,
    lagging: &Lagging,
) -> Result<Vec<Vec<u64>>, Memory>
    requires behind { IsBehindOf journal.now lagging.now }
    requires pending { lagging.now.pending ≡ [] }
    requires deaths { lagging.now.deaths ≡ [] }
    ensures { IfOk result (λ groups. map (λ group. group.items) groups.items ≡ numbers_of (small_groups journal.now.channel journal.now.state.notes journal.now.state.floor)) }
{
    let most = journal.seal_rows();
    let kept = lagging.kept(alloc, journal.floor())?;
    let small = small_of(alloc, most, kept.as_slice())?;
    grouped(alloc, 2, most, small.as_slice())
}

/// The groups of a meet, of pieces that are brought up.
fn take_meet_groups(
    alloc: Global,
    journal: &Journal,
    lagging: &Lagging,
) -> Result<Vec<Vec<u64>>, Memory>
    requires behind { IsBehindOf journal.now lagging.now }
    requires pending { lagging.now.pending ≡ [] }
    requires deaths { lagging.now.deaths ≡ [] }
    ensures { IfOk result (λ groups. map (λ group. group.items) groups.items ≡ numbers_of (meet_groups journal.now.channel journal.now.state.notes journal.now.state.floor)) }
{
    let kept = lagging.kept(alloc, journal.floor())?;
    if !is_mostly_dead(kept.as_slice()) {
        return Ok(Vec::new(alloc));
    }
    grouped(alloc, 1, journal.seal_rows(), kept.as_slice())
}
