//! A front of two channels.

ghost use Rattle.std.specs.Prelude.{◌≡◌, IfOk, [], ◌∷◌};
ghost use Rattle.coarse_lists.specs.Collections.{IsInRange};
ghost use Rattle.turn_table.specs.Seats.{first_seat};

use coarse_lists::{Collection, Index};
use row_types::{List, Memory, Metric, Schema};
use shard_calls::Front;
use shard_core::Shard;
use std::alloc::Global;
use std::sync::Arc;
use turn_table::Seat;

fn small_collection(alloc: Global) -> Collection
    ensures range { IsInRange result }
    ensures channels { result.channels ≡ 2 }
{
    Collection {
        dim: 8,
        metric: Metric::Jaccard,
        channels: 2,
        nodes: 1,
        seal_rows: 2,
        index: Index::Flat,
        schema: Schema {
            columns: List::of(Vec::new(alloc)),
        },
    }
}

/// Two empty channels behind turns, and the first seat.
pub fn two_channels(alloc: Global) -> Result<(Front, Seat<Shard>), Memory>
    ensures channels { IfOk result (λ made. made.0.collection.channels ≡ 2) }
    ensures seat { IfOk result (λ made. made.1 ≡ first_seat made.0.table ([] ∷ [] ∷ [])) }
{
    let collection = Arc::new(alloc, small_collection(alloc))?;
    let first = Shard::new(alloc, Arc::try_clone(&collection)?, 0)?;
    let second = Shard::new(alloc, collection, 1)?;
    let mut shards = Vec::new(alloc);
    shards.push(first)?;
    shards.push(second)?;
    let Ok(made) = Front::new(alloc, shards, 1) else {
        return Err(Memory);
    };
    Ok(made)
}
