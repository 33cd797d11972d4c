//! The counters of a journal, as its calls change them.

ghost use Rattle.std.specs.Prelude.{◌≡◌, ◌+◌, ◌^◌, ◌<◌, ◌≤◌, IsTrue, is_some};
ghost use Rattle.journal_model.specs.Layouts.{number_at};
ghost use Rattle.channel_journal.specs.Outcomes.{segment_number, segment_rows};
ghost use Rattle.channel_journal.specs.Kept.{admits, live_after_put, live_after_remove, tail_after_put, taken_after_put, number_after_put, taken_after_seal, number_after_seal, numbers_of};

use crate::outcomes::SealOutcome;
use journal_model::{Kind, PutKind};
use std::mem;

/// Whether a put adds its row, by the position of its key's live row.
pub fn is_admitted(how: PutKind, found: Option<u64>) -> bool
    ensures { result ≡ admits how found }
{
    match (how, found) {
        (PutKind::Insert, Some(_)) => false,
        _ => true,
    }
}

/// How many keys are live behind a put that adds its row.
pub fn count_put(found: Option<u64>, live: u64) -> u64
    requires { live < 2 ^ 56 }
    ensures { result ≡ live_after_put found live }
{
    if found.is_some() { live } else { live + 1 }
}

/// How many keys are live behind a remove.
pub fn count_remove(found: Option<u64>, live: u64) -> u64
    ensures { result ≡ live_after_remove found live }
{
    if found.is_some() {
        live.saturating_sub(1)
    } else {
        live
    }
}

/// The number that is taken next.
pub fn next_number(channel: u32, taken: u64) -> u64
    requires channel { channel < 16 }
    requires taken { taken ≤ 2 ^ 56 }
    ensures { result ≡ number_at (record { number = channel; seal_rows = 0 }) taken }
{
    taken * 16 + u64::from(channel)
}

/// One row more in the tail, which is sealed where it has `seal_rows` rows then. The number of the
/// segment that it becomes.
pub fn count_row(channel: u32, seal_rows: u32, tail: &mut u32, taken: &mut u64) -> Option<u64>
    requires channel { channel < 16 }
    requires tail { tail.old < seal_rows }
    requires taken { taken.old < 2 ^ 56 }
    ensures tail { tail.new ≡ tail_after_put seal_rows tail.old }
    ensures taken { taken.new ≡ taken_after_put seal_rows tail.old taken.old }
    ensures number { result ≡ number_after_put (record { number = channel; seal_rows = seal_rows }) tail.old taken.old }
{
    *tail += 1;
    if *tail != seal_rows {
        return None;
    }
    *tail = 0;
    let number = next_number(channel, *taken);
    *taken += 1;
    Some(number)
}

/// A tail that has rows is sealed.
pub fn count_seal(channel: u32, tail: &mut u32, taken: &mut u64) -> SealOutcome
    requires channel { channel < 16 }
    requires taken { taken.old < 2 ^ 56 }
    ensures tail { tail.new ≡ 0 }
    ensures taken { taken.new ≡ taken_after_seal tail.old taken.old }
    ensures number { segment_number result ≡ number_after_seal (record { number = channel; seal_rows = 0 }) tail.old taken.old }
    ensures rows { segment_rows result ≡ tail.old }
{
    let rows = mem::replace(tail, 0);
    if rows == 0 {
        return SealOutcome::Empty;
    }
    let number = next_number(channel, *taken);
    *taken += 1;
    SealOutcome::Segment { number, rows }
}

/// How many numbers a note takes that moves or merges segments.
pub fn count_upkeep(kind: &Kind) -> u64
    ensures numbers { result ≡ numbers_of kind.now }
    ensures most { result ≤ 1 }
{
    match kind {
        Kind::Number { .. } => 1,
        _ => 0,
    }
}
