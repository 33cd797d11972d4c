//! Meets.

ghost use Rattle.std.specs.Prelude.{◌≡◌, ℕ, ◌+◌, ◌*◌, ◌≤◌, [], List, map, nat_lt, length, IfOk, OnOk, OnErr};
ghost use Rattle.turn_facts.specs.Prefixes.{IsAt};
ghost use Rattle.coarse_lists.specs.declared.collections.Collection.{Collection};
ghost use Rattle.journal_model.specs.Counts.{counts_of};
ghost use Rattle.journal_model.specs.Journals.{AreBelow};
ghost use Rattle.journal_model.specs.Runs.{IsSound};
ghost use Rattle.phase_model.specs.Rests.{Rest};
ghost use Rattle.phase_model.specs.Meets.{Meets};
ghost use Rattle.shard_core.specs.Counting.{counts_told};
ghost use Rattle.shard_core.specs.Keys.{AreKeysIn};
ghost use Rattle.shard_core.specs.Shards.{ChannelShard, base_of};
ghost use Rattle.shard_calls.specs.Fronts.{notes_of, AreBases};
ghost use Rattle.phase_run.specs.Meets.{met_notes, IsMet, Stays, MayHaveMet, AreCountsOf, Adds, due_of, met_rest};

use answer_lines::MeetReply;
use hybrid_time::Timestamp;
use row_types::Memory;
use shard_core::{Counts, Shard};
use std::alloc::Global;

/// Brings the shards of all channels to rest: a tick in each at `ts`, which is above all their timestamps
/// and becomes their floor. It answers the counts of all channels together; `failed` counts the channels
/// where most rows on nodes are dead, since their segments are not merged. Want of memory may leave ticks
/// and floors in the first channels only, each channel whole; it is the answer too where a count would
/// pass 2^64 - 1.
pub fn meet(alloc: Global, shards: &mut [Shard], ts: Timestamp) -> Result<MeetReply, Memory>
    requires above { (k : ℕ) (x : ChannelShard) → IsAt shards.old k x → AreBelow ts.0 x.state.notes }
    ensures meets { IfOk result (λ counted. (collection : Collection) (least floor : ℕ) (old : Rest) → AreBases collection floor (map base_of shards.old)
        → old.journals ≡ map notes_of shards.old → old.clock ≤ ts.0 → least ≤ ts.0
        → Meets collection least old (met_rest old ts.0 (map notes_of shards.new)) counted) }
    ensures bases { IfOk result (λ _. (collection : Collection) (floor : ℕ) → AreBases collection floor (map base_of shards.old) → AreBases collection ts.0 (map base_of shards.new)) }
    ensures counted { IfOk result (AreCountsOf ts.0 shards.old) }
    ensures err { OnErr result ((k : ℕ) (old new : ChannelShard) → IsAt shards.old k old → IsAt shards.new k new → MayHaveMet ts.0 old new) }
{
    let mut counted = MeetReply {
        ts,
        live: 0,
        tail: 0,
        waiting: 0,
        node_rows: 0,
        node_live: 0,
        failed: 0,
    };
    'channels: for k in 0..shards.len() {
        let counts = meet_channel(alloc, &mut shards[k], ts)?;
        counted = add(counted, counts)?;
    }
    Ok(counted)
}

// The tick and the floor of one channel, and its counts behind them.
fn meet_channel(alloc: Global, shard: &mut Shard, ts: Timestamp) -> Result<Counts, Memory>
    requires below { AreBelow ts.0 shard.old.state.notes }
    ensures met { OnOk result (IsMet ts.0 shard.old shard.new) }
    ensures err { OnErr result (MayHaveMet ts.0 shard.old shard.new) }
    ensures counts { IfOk result (λ counts. counts_told counts ≡ counts_of shard.old.channel (met_notes ts.0 shard.old)) }
{
    come_to_rest(alloc, shard, ts)?;
    shard.counts(alloc)
}

fn come_to_rest(alloc: Global, shard: &mut Shard, ts: Timestamp) -> Result<(), Memory>
    requires below { AreBelow ts.0 shard.old.state.notes }
    ensures met { OnOk result (IsMet ts.0 shard.old shard.new) }
    ensures err { OnErr result (Stays shard.old shard.new) }
{
    let _ = shard.floor();
    shard.reserve(alloc, 1)?;
    shard.tick(0, 0, ts);
    shard.set_floor(ts);
    tell_kept(shard);
    Ok(())
}

/// What a shard keeps of its journal; this does nothing.
pub(crate) fn tell_kept(shard: &Shard)
    ensures sound { IsSound shard.now.channel shard.now.state }
    ensures keys { AreKeysIn shard.now.collection.channels shard.now.channel.number shard.now.state.notes }
{
    let _ = shard.floor();
    let _ = shard.channel();
}

// The counts with those of one channel more.
fn add(counted: MeetReply, counts: Counts) -> Result<MeetReply, Memory>
    ensures { IfOk result (λ sums. Adds (counts_told counts) counted sums) }
{
    Ok(MeetReply {
        ts: counted.ts,
        live: sum(counted.live, counts.live)?,
        tail: sum(counted.tail, counts.tail)?,
        waiting: sum(counted.waiting, counts.waiting)?,
        node_rows: sum(counted.node_rows, counts.node_rows)?,
        node_live: sum(counted.node_live, counts.node_live)?,
        failed: sum(counted.failed, due(&counts))?,
    })
}

fn sum(one: u64, other: u64) -> Result<u64, Memory>
    ensures { IfOk result (λ total. total ≡ one + other) }
{
    match one.checked_add(other) {
        Some(total) => Ok(total),
        None => Err(Memory),
    }
}

// 1 where more than half of the rows on nodes are dead.
fn due(counts: &Counts) -> u64
    ensures { result ≡ due_of (counts_told counts.now) }
{
    u64::from(is_due(counts))
}

fn is_due(counts: &Counts) -> bool
    ensures { result ≡ nat_lt (2 * counts.now.node_live) counts.now.node_rows }
{
    2 * u128::from(counts.node_live) < u128::from(counts.node_rows)
}
