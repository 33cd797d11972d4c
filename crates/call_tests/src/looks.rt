//! Looks, and the search of the views that they give.

ghost use Rattle.std.specs.Prelude.{◌≡◌, ◌+◌, ◌<◌, ◌≤◌, true, IfOk};
ghost use Rattle.shard_calls.specs.Fronts.{IsReady, Spends};

use crate::fronts::two_channels;
use crate::steps::{row, two_nearest};
use bit_distance::Steps;
use channel_search::search;
use channel_view::View;
use hybrid_time::Timestamp;
use log_model::{Plan, Write};
use manu_edge::{FixedMoments, Gate, OpenGate};
use row_types::{Distance, Hit, Key, Memory};
use shard_calls::{Call, Front};
use shard_core::{Looked, Shard};
use std::alloc::Global;
use std::marker::Brand;
use std::sync::Wait;
use std::sync::ledger::{Blank, Ledger};
use std::test::Fail;
use top_list::TopList;
use turn_table::Seat;

type PlainCall<'a, R> = Call<'a, R, FixedMoments, OpenGate>;

// Inserts a row, at the timestamp that is told.
fn insert<R: Wait>(
    alloc: Global,
    front: &Front,
    call: &PlainCall<'_, R>,
    seat: &mut Seat<Shard>,
    key: i64,
    byte: u8,
) -> Result<Timestamp, Memory>
    requires seat { IsReady front.now.table 2 seat.old }
    ensures { Spends 1 seat.old seat.new }
{
    let row = row(alloc, front.collection(), key, byte)?;
    let reply = front.write(alloc, call, seat, Write::Insert(row))?;
    Ok(reply.ts)
}

// The view of a look that waits, at a number that the seat draws.
fn view_now<R: Wait>(
    alloc: Global,
    front: &Front,
    call: &PlainCall<'_, R>,
    seat: &mut Seat<Shard>,
    channel: u32,
) -> Result<View, Memory>
    requires seat { IsReady front.now.table 3 seat.old }
    requires channel { channel < front.now.collection.channels }
    ensures { Spends 2 seat.old seat.new }
{
    let now = front.draw(seat);
    match front.look(alloc, call, seat, channel, now, true)? {
        Looked::Served(view) => Ok(view),
        Looked::Pending { .. } => Err(Memory),
    }
}

// The tick of a look that does not wait, where it is below the guarantee.
fn tick_below<R: Wait>(
    alloc: Global,
    front: &Front,
    call: &PlainCall<'_, R>,
    seat: &mut Seat<Shard>,
    channel: u32,
    guarantee: Timestamp,
) -> Result<Option<Timestamp>, Memory>
    requires seat { IsReady front.now.table 2 seat.old }
    requires channel { channel < front.now.collection.channels }
    ensures { Spends 1 seat.old seat.new }
{
    match front.look(alloc, call, seat, channel, guarantee, false)? {
        Looked::Served(_) => Ok(None),
        Looked::Pending { tick } => Ok(Some(tick)),
    }
}

// The two rows of both views that are nearest to `00`, at two timestamps.
fn nearest(
    alloc: Global,
    front: &Front,
    one: View,
    other: View,
    at: (u64, u64),
) -> Result<(TopList, TopList), Memory> {
    counted::<Brand>(alloc, front, one, other, at, Blank::new(1))
}

fn counted<L: Ledger>(
    alloc: Global,
    front: &Front,
    one: View,
    other: View,
    at: (u64, u64),
    blank: Blank,
) -> Result<(TopList, TopList), Memory>
    requires name { blank.name ≡ L.name }
    requires parts { blank.parts ≡ L.parts }
    requires open { 0 < L.parts }
{
    let query = two_nearest(alloc, front.collection())?;
    let dim = query.vector.dim();
    if one.collection().dim != dim || other.collection().dim != dim {
        return Err(Memory);
    }
    let plan = Plan {
        metric: front.collection().metric,
    };
    let mut steps: Steps<L> = Steps::none(blank);
    let views = [one, other];
    let early = search(alloc, &views, Timestamp(at.0), &plan, &query, &mut steps)?;
    let late = search(alloc, &views, Timestamp(at.1), &plan, &query, &mut steps)?;
    Ok((early, late))
}

fn hit(bits: u32, key: i64) -> Hit {
    Hit {
        distance: Distance::Hamming(bits),
        key: Key(key),
    }
}

#[test]
fn a_look_waits_or_is_pending(rt: HostRuntime) -> Result<(), Fail> {
    let alloc = rt.alloc();
    let (front, mut seat) = two_channels(alloc)?;
    let call = Call {
        rt: &rt,
        moments: &FixedMoments(10_000),
        gate: &OpenGate,
        caller: 0,
        line: 2,
    };
    front.start(&call, &mut seat);
    let first = 10_000 << 18;
    assert_eq!(rt;
        insert(alloc, &front, &call, &mut seat, 2, 0x03)?,
        Timestamp(first)
    );
    assert_eq!(rt;
        insert(alloc, &front, &call, &mut seat, 1, 0x01)?,
        Timestamp(first + 1)
    );
    let pending = tick_below(alloc, &front, &call, &mut seat, 0, Timestamp(1))?;
    assert_eq!(rt; pending, Some(Timestamp(0)));
    let one = view_now(alloc, &front, &call, &mut seat, 0)?;
    assert_eq!(rt; (one.channel(), one.tick()), (0, Timestamp(first + 3)));
    let other = view_now(alloc, &front, &call, &mut seat, 1)?;
    assert_eq!(rt; (other.channel(), other.tick()), (1, Timestamp(first + 5)));
    let (early, late) = nearest(alloc, &front, one, other, (first, first + 1))?;
    assert_eq!(rt; early.hits(), [hit(2, 2)].as_slice());
    assert_eq!(rt; late.hits(), [hit(1, 1), hit(2, 2)].as_slice());
    assert_eq!(rt; front.floor(), Timestamp(0));
    Ok(())
}
