//! Searches of views.

ghost use Rattle.std.specs.Prelude.{◌≡◌, ◌<◌};

use bit_distance::Steps;
use channel_view::View;
use hybrid_time::Timestamp;
use log_model::Query;
use row_types::{BitVector, Key, Memory, Row};
use std::alloc::Global;
use std::marker::Brand;
use std::sync::ledger::{Blank, Ledger};
use top_list::TopList;
use view_scan::{find, run};

/// The `k` nearest to `00` at a timestamp.
pub(crate) fn nearest(alloc: Global, view: &View, ts: u64, k: u32) -> Result<TopList, Memory> {
    counted::<Brand>(alloc, view, ts, k, Blank::new(1))
}

fn counted<L: Ledger>(
    alloc: Global,
    view: &View,
    ts: u64,
    k: u32,
    blank: Blank,
) -> Result<TopList, Memory>
    requires name { blank.name ≡ L.name }
    requires parts { blank.parts ≡ L.parts }
    requires open { 0 < L.parts }
{
    let vector = BitVector::from_bytes(alloc, &[0])?;
    if ts < view.floor().0 || view.tick().0 < ts {
        return Err(Memory);
    }
    if vector.dim() != view.collection().dim || k < 1 || k > 16384 {
        return Err(Memory);
    }
    let query = Query {
        vector,
        k,
        filter: None,
    };
    let mut steps: Steps<L> = Steps::none(blank);
    run(alloc, view, Timestamp(ts), &query, &mut steps)
}

/// The row of a key at a timestamp.
pub(crate) fn row_at(alloc: Global, view: &View, ts: u64, key: Key) -> Result<Option<Row>, Memory> {
    if ts < view.floor().0 || view.tick().0 < ts {
        return Err(Memory);
    }
    find(alloc, view, Timestamp(ts), key)
}
