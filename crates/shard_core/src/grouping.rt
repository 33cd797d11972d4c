//! Groups of segments that are merged together.

ghost use Rattle.std.specs.Prelude.{◌≡◌, ◌+◌, ◌^◌, ◌≤◌, map, IfOk, OnOk};
ghost use Rattle.std.specs.List.{filter};
ghost use Rattle.shard_core.specs.Grouping.{groups_of, no_groups, with_next, after_close, is_small, are_mostly_dead};

use channel_pieces::KeptRows;
use row_types::Memory;
use std::alloc::Global;
use std::marker::Model;
use std::mem;

/// Groups that are made one segment after another.
#[derive(Drop)]
struct Groups {
    least: usize,
    most: u32,
    done: Vec<Vec<u64>>,
    group: Vec<u64>,
    sum: u64,
}

impl Model for Groups {
    ghost use Rattle.std.specs.Prelude.{map};
    ghost use Rattle.shard_core.specs.Grouping.{GroupsSoFar};

    ghost Value = { GroupsSoFar };

    ghost view = { λ g. record { least = g.least; most = g.most; done = map (λ group. group.items) g.done.items; open_members = g.group.items; sum = g.sum } };
}

impl Groups {
    fn new(alloc: Global, least: usize, most: u32) -> Groups
        ensures { result ≡ no_groups least most }
    {
        Groups {
            least,
            most,
            done: Vec::new(alloc),
            group: Vec::new(alloc),
            sum: 0,
        }
    }

    /// Adds a segment to the open group, or to the next.
    fn add(&mut self, alloc: Global, segment: KeptRows) -> Result<(), Memory>
        ensures { OnOk result (self.new ≡ with_next segment self.old) }
    {
        let sum = self.sum.saturating_add(segment.kept);
        if sum <= u64::from(self.most) {
            self.group.push(segment.number)?;
            self.sum = sum;
            return Ok(());
        }
        self.close(alloc)?;
        self.group.push(segment.number)?;
        self.sum = segment.kept;
        Ok(())
    }

    /// Ends the open group, which counts if it has enough members.
    fn close(&mut self, alloc: Global) -> Result<(), Memory>
        ensures { OnOk result (self.new ≡ after_close self.old) }
    {
        let group = mem::replace(&mut self.group, Vec::new(alloc));
        if group.len() >= self.least {
            self.done.push(group)?;
        }
        Ok(())
    }

    /// The groups that are done.
    fn into_done(self) -> Vec<Vec<u64>>
        ensures { map (λ group. group.items) result.items ≡ self.done }
    {
        self.done
    }
}

/// The groups of at least `least` segments: each takes the next segment while its members keep at most
/// `most` rows.
pub(crate) fn grouped(
    alloc: Global,
    least: usize,
    most: u32,
    segments: &[KeptRows],
) -> Result<Vec<Vec<u64>>, Memory>
    ensures { IfOk result (λ groups. map (λ group. group.items) groups.items ≡ groups_of least most segments.now) }
{
    let mut groups = Groups::new(alloc, least, most);
    'segments: for segment in segments {
        groups.add(alloc, *segment)?;
    }
    groups.close(alloc)?;
    Ok(groups.into_done())
}

/// The segments that keep at most half of so many rows.
pub(crate) fn small_of(
    alloc: Global,
    most: u32,
    segments: &[KeptRows],
) -> Result<Vec<KeptRows>, Memory>
    ensures { IfOk result (λ small. small.items ≡ filter (is_small most) segments.now) }
{
    let mut small = Vec::new(alloc);
    'segments: for segment in segments {
        if is_small(*segment, most) {
            small.push(*segment)?;
        }
    }
    Ok(small)
}

/// Whether a segment keeps at most half of so many rows.
fn is_small(segment: KeptRows, most: u32) -> bool
    ensures { result ≡ is_small most segment }
{
    segment.kept <= u64::from(most / 2)
}

/// Whether segments keep less than half of their rows.
pub(crate) fn is_mostly_dead(segments: &[KeptRows]) -> bool
    ensures { result ≡ are_mostly_dead segments.now }
{
    // So many numbers of 64 bits have a sum of fewer than 128.
    let _count = segments.len();
    let mut rows: u128 = 0;
    let mut kept: u128 = 0;
    'segments: for segment in segments {
        rows = plus(rows, segment.rows);
        kept = plus(kept, segment.kept);
    }
    kept < rows.saturating_sub(kept)
}

fn plus(sum: u128, more: u64) -> u128
    requires { sum + 2 ^ 64 ≤ 2 ^ 128 }
    ensures sum { result ≡ sum + more }
    ensures most { result ≤ sum + 2 ^ 64 }
{
    sum + u128::from(more)
}
