//! A phase: callers and tickers on threads, with seats that are split off, and joined at the end.

ghost use Rattle.std.specs.Prelude.{◌≡◌, ◌⊎◌, ℕ, ◌+◌, ◌*◌, ◌^◌, ◌<◌, ◌≤◌, [], ◌++◌, List, Ok, All as Every, map, length, slice_index_or, vec_capacity, IfOk};
ghost use Rattle.hybrid_time.specs.Times.{of_moment};
ghost use Rattle.coarse_lists.specs.declared.collections.Collection.{Collection};
ghost use Rattle.legal_output.specs.Lines.{Line};
ghost use Rattle.turn_facts.specs.Counts.{Among};
ghost use Rattle.turn_facts.specs.Notes.{times};
ghost use Rattle.turn_facts.specs.Prefixes.{IsAt};
ghost use Rattle.turn_table.specs.Seats.{first_seat};
ghost use Rattle.seat_walks.specs.Gathers.{Gathered, IsBack};
ghost use Rattle.seat_walks.specs.Tells.{Splits, Joins};
ghost use Rattle.shard_core.specs.Shards.{ChannelShard, ChannelBase, base_of};
ghost use Rattle.call_model.specs.Turns.{by_of, time_of};
ghost use Rattle.shard_calls.specs.Fronts.{notes_of, AreShards, AreBases, IsReady};
ghost use Rattle.phase_model.specs.Rests.{Rest};
ghost use Rattle.phase_model.specs.Phases.{IsPhase};
ghost use Rattle.phase_run.specs.declared.works.Stop.TheVariants.{All};
ghost use Rattle.phase_run.specs.Jobs.{IsSet, HasWorked};
ghost use Rattle.phase_run.specs.Phases.{MayRun, AreFew, AreLines, IsRestOf, ran_rest, AreDone, AreAnswered, IsNotBegun, plan_by, plan_in, seat_in, done_in, told_of, dones_of, IsPlan, IsTicker, Planned, ArePlans, IsFresh, SetOut, HaveTicked, KeepsJournal};

use crate::jobs::{Job, Task, caller_of, run_all};
use crate::meets::tell_kept;
use crate::works::{Done, PhaseEnd, Roles, Stop, Work};
use hybrid_time::Timestamp;
use manu_edge::{Gate, Moments};
use request_lines::Request;
use row_types::Memory;
use shard_calls::Front;
use shard_core::Shard;
use std::alloc::Global;
use std::sync::Wait;
use std::thread::Threads;
use turn_table::Seat;

/// What a seat is to do, before it has one.
#[derive(Drop)]
pub(crate) struct Plan {
    pub task: Task,
    pub mine: Timestamp,
    pub requests: Vec<(u32, Request)>,
}

// All that is needed before the table of turns is made.
#[derive(Drop)]
struct Prepared {
    plans: Vec<Plan>,
    jobs: Vec<Job>,
    done: Vec<Done>,
}

/// Runs a phase: each work by a caller on a thread of its own, and tickers beside them, whatever order
/// they act in. Where memory is wanting before any of them runs, the shards come back as they were and
/// nothing is done; where a caller or a ticker meets that, it stops there, and the others go on.
pub fn run_phase<R: Threads + Wait + Sync, M: Moments + Sync, G: Gate + Sync>(
    rt: &R,
    alloc: Global,
    shards: Vec<Shard>,
    clock: u64,
    works: Vec<Work>,
    roles: Roles,
    moments: &M,
    gate: &G,
) -> PhaseEnd
    requires shards { AreShards shards.items }
    requires clock { (1 ≤ clock) × (clock < 2 ^ 63 + 2 ^ 60) }
    requires above { (k : ℕ) (x : ChannelShard) (t : ℕ) → IsAt shards.items k x → Among t (times time_of x.state.notes) → t < clock }
    requires works { (collection : Collection) (floor : ℕ) → AreBases collection floor (map base_of shards.items) → MayRun collection clock works.items }
    requires roles { AreFew roles }
    ensures phase { result.stop ≡ All → (collection : Collection) (floor : ℕ) (old : Rest) (block : List Line) → AreBases collection floor (map base_of shards.items)
        → IsRestOf old clock floor (map notes_of shards.items) works.items → AreLines works.items result.done.items block
        → IsPhase ChannelBase collection (of_moment (M.least moments.now)) old (ran_rest old result.clock (map notes_of result.shards.items) block) block }
    ensures answered { result.stop ≡ All → AreDone works.items result.done.items × AreAnswered works.items result.done.items }
    ensures ticks { result.stop ≡ All → HaveTicked (length shards.items) roles.tickers roles.rounds (map notes_of shards.items) (map notes_of result.shards.items) }
    ensures stopped { IsNotBegun shards.items clock result ⊎ AreDone works.items result.done.items }
    ensures bases { map base_of result.shards.items ≡ map base_of shards.items }
    ensures clock { clock ≤ result.clock }
{
    let Ok(prepared) = prepare(alloc, works, roles) else {
        return not_begun(alloc, shards, clock);
    };
    match Front::new(alloc, shards, clock) {
        Err((shards, _)) => not_begun(alloc, shards, clock),
        Ok((front, seat)) => run(rt, alloc, front, seat, prepared, moments, gate),
    }
}

fn not_begun(alloc: Global, shards: Vec<Shard>, clock: u64) -> PhaseEnd
    ensures { IsNotBegun shards.items clock result }
{
    PhaseEnd {
        shards,
        clock,
        done: Vec::new(alloc),
        stop: Stop::Memory,
    }
}

// Nothing that is made here takes memory later on.
fn prepare(alloc: Global, works: Vec<Work>, roles: Roles) -> Result<Prepared, Memory>
    requires { (length works.items ≤ 16) × AreFew roles }
    ensures { IfOk result (ArePlans works.items roles) }
{
    let seats = works.len() + roles.tickers as usize;
    let jobs = Vec::with_capacity(alloc, seats)?;
    let done = Vec::with_capacity(alloc, seats)?;
    let mut plans = Vec::with_capacity(alloc, seats)?;
    plan_callers(works, &mut plans);
    plan_tickers(alloc, roles, &mut plans);
    Ok(Prepared { plans, jobs, done })
}

fn plan_callers(works: Vec<Work>, plans: &mut Vec<Plan>)
    requires none { plans.old.items ≡ [] }
    requires room { length works.items ≤ vec_capacity plans.old }
    ensures plans { plans.new.items ≡ map plan_by works.items }
    ensures room { vec_capacity plans.new ≡ vec_capacity plans.old }
{
    for work in works {
        plans.push_reserved(Plan {
            task: Task::Caller(work.caller),
            mine: work.mine,
            requests: work.requests,
        });
    }
}

fn plan_tickers(alloc: Global, roles: Roles, plans: &mut Vec<Plan>)
    requires { length plans.old.items + roles.tickers ≤ vec_capacity plans.old }
    ensures { (others : List Plan) × (plans.new.items ≡ plans.old.items ++ others) × (length others ≡ roles.tickers) × Every (IsTicker roles.rounds) others }
{
    'tickers: for _ in 0..roles.tickers {
        plans.push_reserved(Plan {
            task: Task::Ticker(roles.rounds),
            mine: Timestamp(0),
            requests: Vec::new(alloc),
        });
    }
}

// Runs the plans with a table that was just made.
fn run<R: Threads + Wait + Sync, M: Moments + Sync, G: Gate + Sync>(
    rt: &R,
    alloc: Global,
    front: Front,
    mut seat: Seat<Shard>,
    prepared: Prepared,
    moments: &M,
    gate: &G,
) -> PhaseEnd
    requires bases { AreBases front.collection front.floor front.table.bases }
    requires seat { seat ≡ first_seat front.table seat.seen }
    requires plans { (length prepared.plans.items ≤ 32) × Every (IsPlan front) prepared.plans.items }
    requires none { (prepared.jobs.items ≡ []) × (prepared.done.items ≡ []) }
    requires room { (length prepared.plans.items ≤ vec_capacity prepared.jobs) × (length prepared.plans.items ≤ vec_capacity prepared.done) }
    ensures phase { result.stop ≡ All → (works : List Work) (old : Rest) (block : List Line) → Planned works prepared.plans.items
        → IsRestOf old front.table.first front.floor seat.seen works → AreLines works result.done.items block
        → IsPhase ChannelBase front.collection (of_moment (M.least moments.now)) old (ran_rest old result.clock (map notes_of result.shards.items) block) block }
    ensures answered { result.stop ≡ All → (works : List Work) → Planned works prepared.plans.items → AreAnswered works result.done.items }
    ensures ticks { result.stop ≡ All → (works : List Work) (others : List Plan) (rounds : ℕ) → prepared.plans.items ≡ map plan_by works ++ others → Every (IsTicker rounds) others
        → HaveTicked front.collection.channels (length others) rounds seat.seen (map notes_of result.shards.items) }
    ensures done { (works : List Work) → Planned works prepared.plans.items → AreDone works result.done.items }
    ensures bases { map base_of result.shards.items ≡ front.table.bases }
    ensures clock { front.table.first ≤ result.clock }
{
    let Prepared {
        plans,
        mut jobs,
        mut done,
    } = prepared;
    set_out(alloc, &front, &mut seat, plans, &mut jobs);
    run_set(rt, alloc, &front, moments, gate, &mut jobs);
    let stop = gather(&front, &mut seat, jobs, &mut done);
    let (shards, clock) = front.close(seat);
    tell_all_kept(shards.as_slice());
    PhaseEnd {
        shards,
        clock,
        done,
        stop,
    }
}

// Runs each job on a thread of its own.
fn run_set<R: Threads + Wait + Sync, M: Moments + Sync, G: Gate + Sync>(
    rt: &R,
    alloc: Global,
    front: &Front,
    moments: &M,
    gate: &G,
    jobs: &mut Vec<Job>,
)
    requires jobs { Every (IsSet front.now) jobs.old.items }
    ensures many { length jobs.new.items ≡ length jobs.old.items }
    ensures each { (i : ℕ) (d : Job) → i < length jobs.old.items → HasWorked front.now (of_moment (M.least moments.now)) (slice_index_or jobs.old.items i d) (slice_index_or jobs.new.items i d) }
{
    run_all(rt, alloc, front, moments, gate, jobs.as_mut_slice());
}

// What shards keep of their journals; this does nothing.
fn tell_all_kept(shards: &[Shard])
    ensures { Every KeepsJournal shards.now }
{
    for shard in shards {
        tell_kept(shard);
    }
}

// Splits off a seat for each plan.
fn set_out(
    alloc: Global,
    front: &Front,
    seat: &mut Seat<Shard>,
    plans: Vec<Plan>,
    jobs: &mut Vec<Job>,
)
    requires seat { IsReady front.now.table (length plans.items * (2 ^ 30 + 1) + 2 ^ 31) seat.old }
    requires none { jobs.old.items ≡ [] }
    requires room { length plans.items ≤ vec_capacity jobs.old }
    ensures { SetOut plans.items seat.old jobs.new.items seat.new }
{
    for plan in plans {
        let job = set_off(alloc, front, seat, plan);
        jobs.push_reserved(job);
    }
}

// Splits off a seat for a plan.
fn set_off(alloc: Global, front: &Front, seat: &mut Seat<Shard>, plan: Plan) -> Job
    requires { (seat.old.table ≡ front.now.table) × (2 ^ 30 + 1 < seat.old.allowance) }
    ensures splits { Splits seat.old seat.new result.seat (2 ^ 30) }
    ensures plan { plan_in result ≡ plan }
    ensures fresh { IsFresh result }
{
    let other = front.turns().split(seat, 1 << 30);
    Job {
        seat: other,
        task: plan.task,
        mine: plan.mine,
        requests: plan.requests,
        answers: Vec::new(alloc),
        done: Ok(()),
    }
}

// Joins the seats of all jobs, and keeps what the callers did.
fn gather(front: &Front, seat: &mut Seat<Shard>, jobs: Vec<Job>, done: &mut Vec<Done>) -> Stop
    requires seat { IsReady front.now.table 0 seat.old }
    requires jobs { Every (λ job. IsBack front.now.table (length seat.old.seen) job.seat) jobs.items }
    requires none { done.old.items ≡ [] }
    requires room { length jobs.items ≤ vec_capacity done.old }
    ensures seat { Gathered by_of seat.old (map seat_in jobs.items) seat.new }
    ensures done { done.new.items ≡ dones_of jobs.items }
    ensures stop { result ≡ All → Every (λ job. job.done ≡ Ok tt) jobs.items }
{
    let mut stop = Stop::All;
    for job in jobs {
        stop = take_in(front, seat, job, done, stop);
    }
    stop
}

// Joins the seat of a job, and keeps what its caller did.
fn take_in(
    front: &Front,
    seat: &mut Seat<Shard>,
    job: Job,
    done: &mut Vec<Done>,
    stop: Stop,
) -> Stop
    requires seat { (seat.old.table ≡ front.now.table) × (seat.old.turns ≡ []) }
    requires job { (job.seat.table ≡ front.now.table) × (job.seat.turns ≡ []) }
    requires room { length done.old.items < vec_capacity done.old }
    ensures joins { Joins by_of seat.old seat.new job.seat }
    ensures done { done.new.items ≡ done.old.items ++ told_of job.task (done_in job) }
    ensures room { vec_capacity done.new ≡ vec_capacity done.old }
    ensures stop { result ≡ All → (stop ≡ All) × (job.done ≡ Ok tt) }
{
    let Job {
        seat: other,
        task,
        mine,
        requests: _,
        answers,
        done: whole,
    } = job;
    front.turns().join(seat, other);
    let did = Done {
        caller: caller_of(task),
        mine,
        answers,
    };
    tell(task, did, done);
    stop_behind(stop, whole)
}

// Keeps what a caller did.
fn tell(task: Task, did: Done, done: &mut Vec<Done>)
    requires { length done.old.items < vec_capacity done.old }
    ensures done { done.new.items ≡ done.old.items ++ told_of task did }
    ensures room { vec_capacity done.new ≡ vec_capacity done.old }
{
    match task {
        Task::Caller(_) => done.push_reserved(did),
        Task::Ticker(_) => {}
    }
}

fn stop_behind(stop: Stop, whole: Result<(), Memory>) -> Stop
    ensures { result ≡ All → (stop ≡ All) × (whole ≡ Ok tt) }
{
    match whole {
        Ok(()) => stop,
        Err(_) => Stop::Memory,
    }
}
