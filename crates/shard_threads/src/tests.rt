ghost use Rattle.std.specs.Prelude.{◌≡◌, ◌+◌, ◌^◌, ◌<◌, [], ◌∷◌, length};
ghost use Rattle.turn_table.specs.Seats.{first_seat};
ghost use Rattle.shard_calls.specs.Fronts.{IsReady};

use crate::fronts::two_channels;
use crate::jobs::{Job, run_all};
use crate::meetings::Meeting;
use manu_edge::{Gate, OpenGate};
use row_types::Memory;
use shard_calls::Front;
use shard_core::Shard;
use std::alloc::Global;
use std::sync::Wait;
use std::thread::Threads;
use turn_table::Seat;

// What two threads were answered, and what stands once both have ended.
#[derive(Drop)]
struct Ticked {
    one: Vec<u64>,
    two: Vec<u64>,
    shards: Vec<Shard>,
    next: u64,
}

// The seats join, and the front ends.
fn end(front: Front, mut one: Seat<Shard>, two: Seat<Shard>) -> (Vec<Shard>, u64)
    requires seats { IsReady front.table 0 one × IsReady front.table 0 two }
    requires joined { (one.joined ≡ []) × (two.joined ≡ []) }
    requires all { one.allowance + length one.drawn + (two.allowance + length two.drawn) + 1 ≡ 2 ^ 40 }
{
    front.turns().join(&mut one, two);
    front.close(one)
}

fn job_of(alloc: Global, seat: Seat<Shard>, channel: u32, times: u32) -> Job
    ensures { (result.seat ≡ seat) × (result.channel ≡ channel) × (result.times ≡ times) }
{
    Job {
        seat,
        channel,
        times,
        answers: Vec::new(alloc),
        done: Ok(()),
    }
}

// Two threads tick side by side, each its channel and as often as `times`.
fn tick_from_two<R: Threads + Wait + Sync, G: Gate + Sync>(
    rt: &R,
    alloc: Global,
    front: Front,
    mut seat: Seat<Shard>,
    gate: &G,
    channels: (u32, u32),
    times: u32,
) -> Result<Ticked, Memory>
    requires seat { seat ≡ first_seat front.table ([] ∷ [] ∷ []) }
    requires channels { (channels.0 < front.collection.channels) × (channels.1 < front.collection.channels) }
{
    let other = front.turns().split(&mut seat, u64::from(times) + 1);
    let mut jobs = [
        job_of(alloc, seat, channels.0, times),
        job_of(alloc, other, channels.1, times),
    ];
    run_all(rt, alloc, &front, gate, &mut jobs);
    let [one, two] = jobs;
    let (shards, next) = end(front, one.seat, two.seat);
    one.done?;
    two.done?;
    Ok(Ticked {
        one: one.answers,
        two: two.answers,
        shards,
        next,
    })
}

fn rises(numbers: &[u64]) -> bool {
    let mut last = 0;
    for &number in numbers {
        if number <= last {
            return false;
        }
        last = number;
    }
    true
}

// Both in one list, in order.
fn merged(mut one: Vec<u64>, two: &[u64]) -> Result<Vec<u64>, Memory> {
    for &number in two {
        one.push(number)?;
    }
    one.sort()?;
    Ok(one)
}

#[test]
fn two_threads_tick_one_channel(rt: HostRuntime) -> Result<(), Memory> {
    let alloc = rt.alloc();
    let (front, seat) = two_channels(alloc)?;
    let ticked = tick_from_two(&rt, alloc, front, seat, &OpenGate, (0, 0), 1000)?;
    assert!(&rt; ticked.one.len() == 1000 && rises(ticked.one.as_slice()));
    assert!(&rt; ticked.two.len() == 1000 && rises(ticked.two.as_slice()));
    let all = merged(ticked.one, ticked.two.as_slice())?;
    assert!(&rt; all.len() == 2000 && rises(all.as_slice()));
    let [ticks, empty] = ticked.shards.as_slice() else {
        panic!(&rt; "two channels were made")
    };
    assert!(&rt; ticks.len() == 2000 && empty.len() == 0);
    assert!(&rt; all.last() == Some(&ticks.tick_now().0));
    assert!(&rt; ticked.next == 2001);
    Ok(())
}

#[test]
fn two_threads_are_inside_of_two_channels_at_once(rt: HostRuntime) -> Result<(), Memory> {
    let alloc = rt.alloc();
    let (front, seat) = two_channels(alloc)?;
    let meeting = Meeting::new();
    let ticked = tick_from_two(&rt, alloc, front, seat, &meeting, (0, 1), 1)?;
    assert!(&rt; meeting.was_held());
    for shard in &ticked.shards {
        assert!(&rt; shard.len() == 1);
    }
    Ok(())
}
