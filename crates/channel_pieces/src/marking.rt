//! Marks that are made of deaths by position.

ghost use Rattle.std.specs.Prelude.{◌≡◌, ◌+◌, ◌<◌, ◌≤◌, ℕ, List, [], ◌++◌, length, map, take, drop, IfOk, OnOk};
ghost use Rattle.std.specs.Option.{option_map, IfSome};
ghost use Rattle.std.specs.List.{AllByRecursion};
ghost use Rattle.channel_pieces.specs.Pieces.{AreOnce, death_in};
ghost use Rattle.channel_pieces.specs.Fields.{Climb, places_in, index_in, hit_at, hits_of, with_hits, AreOpen, deaths_next};

use hybrid_time::Timestamp;
use row_types::Memory;
use seg_sealed::Marks;
use std::alloc::Global;

/// The deaths in rising order of their positions.
pub(crate) fn by_position(
    alloc: Global,
    deaths: &[(u64, Timestamp)],
) -> Result<Vec<(u64, Timestamp)>, Memory>
    requires { AreOnce deaths.now }
    ensures rise { IfOk result (λ sorted. Climb (places_in sorted.items)) }
    ensures same { IfOk result (λ sorted. (position : ℕ) → death_in sorted.items position ≡ death_in deaths.now position) }
{
    let mut sorted = Vec::from_slice(alloc, deaths)?;
    sorted.sort_unstable_by_key(|death| death.0);
    Ok(sorted)
}

/// These marks with those of the rows that some deaths hit; `None` where they hit none. Rows and
/// deaths rise by position. Want of memory leaves the marks as they were.
pub(crate) fn with_deaths(
    alloc: Global,
    marks: &mut Marks,
    positions: &[u64],
    deaths: &[(u64, Timestamp)],
) -> Result<Option<Marks>, Memory>
    requires few { length positions.now ≤ 65536 }
    requires rows_rise { Climb positions.now }
    requires deaths_rise { Climb (places_in deaths.now) }
    ensures next { IfOk result (λ next. deaths_next next marks.old ≡ with_hits (hits_of positions.now marks.old.deaths deaths.now) marks.old.deaths) }
    ensures same { marks.new.deaths ≡ marks.old.deaths }
{
    let within = window(positions, deaths);
    if within.is_empty() {
        return Ok(None);
    }
    // What is shared has few marks that do not stand sorted, so looking one up is quick.
    let mut next = marks.share(alloc)?;
    let hits = find_hits(alloc, &next, positions, within)?;
    if hits.is_empty() {
        return Ok(None);
    }
    let Ok(count) = u32::try_from(hits.len()) else {
        return Err(Memory);
    };
    next.reserve(alloc, count)?;
    add_marks(&mut next, hits.as_slice());
    Ok(Some(next))
}

/// The deaths from the first to the last of some positions.
fn window<'a>(positions: &[u64], deaths: &'a [(u64, Timestamp)]) -> &'a [(u64, Timestamp)]
    requires rows_rise { Climb positions.now }
    requires deaths_rise { Climb (places_in deaths.now) }
    ensures rise { Climb (places_in result.now) }
    ensures hits { (marks : List (ℕ × ℕ)) → hits_of positions.now marks result.now ≡ hits_of positions.now marks deaths.now }
{
    if positions.is_empty() {
        return &[];
    }
    let first = positions[0];
    let last = positions[positions.len() - 1];
    let (_, above) = deaths.split_at(count_below(deaths, first));
    let (within, _) = above.split_at(count_up_to(above, last));
    within
}

/// How many of the deaths are below a position.
fn count_below(deaths: &[(u64, Timestamp)], position: u64) -> usize
    requires { Climb (places_in deaths.now) }
    ensures bound { result ≤ length deaths.now }
    ensures below { AllByRecursion (λ d. d.0 < position) (take result deaths.now) }
{
    deaths.partition_point(|death| death.0 < position)
}

/// How many of the deaths are at a position or below it.
fn count_up_to(deaths: &[(u64, Timestamp)], position: u64) -> usize
    requires { Climb (places_in deaths.now) }
    ensures bound { result ≤ length deaths.now }
    ensures above { AllByRecursion (λ d. position < d.0) (drop result deaths.now) }
{
    deaths.partition_point(|death| death.0 <= position)
}

/// The rows that some deaths hit and that have no mark yet.
fn find_hits(
    alloc: Global,
    marks: &Marks,
    positions: &[u64],
    deaths: &[(u64, Timestamp)],
) -> Result<Vec<(u32, Timestamp)>, Memory>
    requires few { length positions.now ≤ 65536 }
    requires rise { Climb positions.now }
    ensures { IfOk result (λ hits. hits.items ≡ hits_of positions.now marks.now.deaths deaths.now) }
{
    let mut hits = Vec::new(alloc);
    'deaths: for death in deaths {
        push_hit(&mut hits, marks, positions, *death)?;
    }
    Ok(hits)
}

/// The row that a death hits, if there is one and it has no mark yet.
fn push_hit(
    hits: &mut Vec<(u32, Timestamp)>,
    marks: &Marks,
    positions: &[u64],
    death: (u64, Timestamp),
) -> Result<(), Memory>
    requires few { length positions.now ≤ 65536 }
    requires rise { Climb positions.now }
    ensures { OnOk result (hits.new.items ≡ hits.old.items ++ hit_at marks.now.deaths death.1 (index_in positions.now death.0)) }
{
    let (position, ts) = death;
    if let Some(row) = find_row(positions, position) {
        if marks.dead_at(row).is_none() {
            hits.push((row, ts))?;
        }
    }
    Ok(())
}

/// The row at a position.
fn find_row(positions: &[u64], position: u64) -> Option<u32>
    requires few { length positions.now ≤ 65536 }
    requires rise { Climb positions.now }
    ensures { result ≡ index_in positions.now position }
{
    match positions.binary_search(&position) {
        Ok(row) => Some(row as u32),
        Err(_) => None,
    }
}

/// Marks the rows that were hit; there is room for them.
fn add_marks(marks: &mut Marks, hits: &[(u32, Timestamp)])
    requires room { length hits.now ≤ marks.old.spare }
    requires open { AreOpen hits.now marks.old.deaths }
    ensures { marks.new.deaths ≡ with_hits hits.now marks.old.deaths }
{
    'hits: for hit in hits {
        marks.mark(hit.0, hit.1);
    }
}
