//! A front of two channels.

ghost use Rattle.std.specs.Prelude.{◌≡◌, ◌+◌, ◌^◌, IfOk, length};
ghost use Rattle.coarse_lists.specs.Collections.{IsInRange};
ghost use Rattle.shard_calls.specs.Fronts.{IsReady};

use coarse_lists::{Collection, Index};
use row_types::{List, Memory, Metric, Schema};
use shard_calls::Front;
use shard_core::Shard;
use std::alloc::Global;
use std::sync::Arc;
use turn_table::Seat;

fn small_collection(alloc: Global) -> Collection
    ensures range { IsInRange result }
    ensures channels { result.channels ≡ 2 }
{
    Collection {
        dim: 8,
        metric: Metric::Hamming,
        channels: 2,
        nodes: 1,
        seal_rows: 4,
        index: Index::Flat,
        schema: Schema {
            columns: List::empty(alloc),
        },
    }
}

/// Two empty channels of vectors of 8 bits without columns, behind turns, and the only seat, which has
/// not drawn yet.
pub(crate) fn two_channels(alloc: Global) -> Result<(Front, Seat<Shard>), Memory>
    ensures channels { IfOk result (λ made. made.0.collection.channels ≡ 2) }
    ensures seat { IfOk result (λ made. IsReady made.0.table 10000 made.1) }
    ensures whole { IfOk result (λ made. made.1.allowance + (length made.1.drawn + length made.1.joined) ≡ 2 ^ 40) }
{
    let collection = Arc::new(alloc, small_collection(alloc))?;
    let copy = Arc::try_clone(&collection)?;
    let first = Shard::new(alloc, copy, 0)?;
    let second = Shard::new(alloc, collection, 1)?;
    let mut shards = Vec::new(alloc);
    shards.push(first)?;
    shards.push(second)?;
    let Ok(made) = Front::new(alloc, shards, 1) else {
        return Err(Memory);
    };
    Ok(made)
}
