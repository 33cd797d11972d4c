//! Seats with what they are to do, each on a thread of its own.

ghost use Rattle.std.specs.Prelude.{◌≡◌, ℕ, ◌≤◌, ◌<◌, [], List, All, length, map, slice_index_or};
ghost use Rattle.hybrid_time.specs.Times.{of_moment};
ghost use Rattle.answer_lines.specs.declared.answers.Answer.{Answer};
ghost use Rattle.request_lines.specs.declared.requests.Request.{Request};
ghost use Rattle.legal_output.specs.Lines.{Line};
ghost use Rattle.legal_output.specs.Printed.{write_behind};
ghost use Rattle.shard_calls.specs.Fronts.{IsReady};
ghost use Rattle.phase_run.specs.Callers.{MayAsk, IsKnown, answered};
ghost use Rattle.phase_run.specs.Jobs.{draws_of, IsSet, Worked, HasWorked};
ghost use Rattle.phase_run.specs.Phases.{caller_number};

use crate::callers::{serve_all, tick_rounds};
use answer_lines::Answer;
use hybrid_time::Timestamp;
use manu_edge::{Gate, Moments};
use request_lines::Request;
use row_types::Memory;
use shard_calls::{Call, Front};
use shard_core::Shard;
use std::alloc::Global;
use std::sync::Wait;
use std::thread::Threads;
use std::{mem, thread};
use turn_table::Seat;

/// What a seat is for.
#[derive(Debug, Clone, Copy, PartialEq, Eq)]
pub(crate) enum Task {
    /// The lines of the caller with this number.
    Caller(u32),
    /// So many rounds of ticks.
    Ticker(u32),
}

/// A seat and its work. `done` tells whether memory was wanting.
#[derive(Drop)]
pub(crate) struct Job {
    pub seat: Seat<Shard>,
    pub task: Task,
    /// The caller's last write, or 0.
    pub mine: Timestamp,
    /// Requests that are not served yet, each at the number of its line.
    pub requests: Vec<(u32, Request)>,
    pub answers: Vec<(u32, Answer)>,
    pub done: Result<(), Memory>,
}

/// Runs each job on a thread of its own.
pub(crate) fn run_all<R: Threads + Wait + Sync, M: Moments + Sync, G: Gate + Sync>(
    rt: &R,
    alloc: Global,
    front: &Front,
    moments: &M,
    gate: &G,
    jobs: &mut [Job],
)
    requires jobs { All (IsSet front.now) jobs.old }
    ensures { (i : ℕ) (d : Job) → i < length jobs.old → HasWorked front.now (of_moment (M.least moments.now)) (slice_index_or jobs.old i d) (slice_index_or jobs.new i d) }
{
    let threads = jobs.len().max(1);
    thread::for_each_mut(
        rt,
        jobs,
        threads,
        &|_, job| { run_job(rt, alloc, front, moments, gate, job) },
    );
}

fn run_job<R: Wait, M: Moments, G: Gate>(
    rt: &R,
    alloc: Global,
    front: &Front,
    moments: &M,
    gate: &G,
    job: &mut Job,
)
    requires { IsSet front.now job.old }
    ensures { HasWorked front.now (of_moment (M.least moments.now)) job.old job.new }
{
    let call = Call {
        rt,
        moments,
        gate,
        caller: caller_of(job.task),
        line: 0,
    };
    let requests = mem::replace(&mut job.requests, Vec::new(alloc));
    job.done = do_task(
        front,
        alloc,
        &call,
        job.task,
        &mut job.seat,
        &mut job.mine,
        requests,
        &mut job.answers,
    );
}

/// The caller that a gate sees; 0 for work that no caller asked for.
pub(crate) fn caller_of(task: Task) -> u32
    ensures { result ≡ caller_number task }
{
    match task {
        Task::Caller(number) => number,
        Task::Ticker(_) => 0,
    }
}

fn do_task<R: Wait, M: Moments, G: Gate>(
    front: &Front,
    alloc: Global,
    call: &Call<'_, R, M, G>,
    task: Task,
    seat: &mut Seat<Shard>,
    mine: &mut Timestamp,
    requests: Vec<(u32, Request)>,
    answers: &mut Vec<(u32, Answer)>,
) -> Result<(), Memory>
    requires seat { IsReady front.now.table (draws_of task requests.items) seat.old }
    requires may { All (λ (request : ℕ × Request). MayAsk front.now.collection request.1.what) requests.items }
    requires mine { IsKnown front.now.table.first mine.old.0 seat.old }
    requires none { answers.old.items ≡ [] }
    requires line { call.now.line ≡ 0 }
    ensures worked { Worked front.now.collection (of_moment (M.least call.now.moments.now)) mine.old.0 task seat.old requests.items answers.new.items result seat.new }
    ensures mine { mine.new.0 ≡ write_behind mine.old.0 (answered requests.items answers.new.items) }
    ensures numbers { map (λ (answer : ℕ × Answer). answer.0) answers.new.items ≡ map (λ (line : Line). line.number) (answered requests.items answers.new.items) }
{
    match task {
        Task::Caller(_) => serve_all(front, alloc, call, seat, mine, requests, answers),
        Task::Ticker(rounds) => tick_rounds(front, alloc, call, seat, rounds),
    }
}
