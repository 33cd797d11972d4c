//! What a thread does on a front.

ghost use Rattle.std.specs.Prelude.{◌≡◌, ℕ, ◌+◌, ◌<◌, ◌≤◌, ◌++◌, List, length, All, OnOk, slice_index_or};
ghost use Rattle.shard_calls.specs.Fronts.{IsReady, Spends};
ghost use Rattle.shard_threads.specs.Jobs.{Ticked, HasTicked};

use manu_edge::{FixedMoments, Gate};
use row_types::Memory;
use shard_calls::{Call, Front};
use shard_core::Shard;
use std::alloc::Global;
use std::sync::Wait;
use std::thread;
use std::thread::Threads;
use turn_table::Seat;

/// A seat, the channel that it ticks, and how often. `answers` has the timestamps of its ticks, and `done` tells
/// whether memory was wanting.
#[derive(Drop)]
pub struct Job {
    pub seat: Seat<Shard>,
    pub channel: u32,
    pub times: u32,
    pub answers: Vec<u64>,
    pub done: Result<(), Memory>,
}

fn tick_often<R: Wait, G: Gate>(
    alloc: Global,
    front: &Front,
    call: &Call<'_, R, FixedMoments, G>,
    seat: &mut Seat<Shard>,
    channel: u32,
    times: u32,
    answers: &mut Vec<u64>,
) -> Result<(), Memory>
    requires seat { IsReady front.now.table (times + 1) seat.old }
    requires channel { channel < front.now.collection.channels }
    ensures ticked { (numbers : List ℕ) × Ticked call.now.line channel numbers seat.old seat.new × (length numbers ≤ times)
        × OnOk result ((length numbers ≡ times) × (answers.new.items ≡ answers.old.items ++ numbers)) }
    ensures spends { Spends times seat.old seat.new }
{
    for _ in 0..times {
        let ts = front.tick(alloc, call, seat, channel)?;
        answers.push(ts.0)?;
    }
    Ok(())
}

fn run_job<R: Wait, G: Gate>(rt: &R, alloc: Global, front: &Front, gate: &G, job: &mut Job)
    requires seat { IsReady front.now.table (job.old.times + 1) job.old.seat }
    requires channel { job.old.channel < front.now.collection.channels }
    ensures { HasTicked job.old job.new }
{
    let call = Call {
        rt,
        moments: &FixedMoments(0),
        gate,
        caller: 0,
        line: 0,
    };
    let (channel, times) = (job.channel, job.times);
    job.done = tick_often(
        alloc,
        front,
        &call,
        &mut job.seat,
        channel,
        times,
        &mut job.answers,
    );
}

/// Runs each job on a thread of its own. Of the notes of its own number on the job's channel, each seat has then
/// seen those that it had and, behind them, a tick at each number that it drew, in their order; `done` tells whether
/// it ticked as often as it was to, and then `answers` has those numbers.
pub fn run_all<R: Threads + Wait + Sync, G: Gate + Sync>(
    rt: &R,
    alloc: Global,
    front: &Front,
    gate: &G,
    jobs: &mut [Job],
)
    requires { All (λ job. IsReady front.now.table (job.times + 1) job.seat × (job.channel < front.now.collection.channels)) jobs.old }
    ensures { (i : ℕ) (d : Job) → i < length jobs.old → HasTicked (slice_index_or jobs.old i d) (slice_index_or jobs.new i d) }
{
    let threads = jobs.len().max(1);
    thread::for_each_mut(
        rt,
        jobs,
        threads,
        &|_, job| { run_job(rt, alloc, front, gate, job) },
    );
}
