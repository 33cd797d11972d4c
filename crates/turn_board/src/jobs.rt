//! What a seat does on boards.
ghost use Rattle.std.specs.Prelude.{◌≡◌, ℕ, ◌<◌, ◌≤◌, [], ◌∷◌, List, length, Some, OnOk, OnErr, All, slice_index_or};
ghost use Rattle.turn_facts.specs.Notes.{Adds};
ghost use Rattle.turn_table.specs.Knowledge.{at_slot};
ghost use Rattle.turn_table.specs.Seats.{IsGiven, fresh};
ghost use Rattle.turn_board.specs.Jobs.{IsReady, Put, Wrote, Tells, Did};

use crate::boards::{Board, Entry};
use row_types::Memory;
use std::sync::Wait;
use std::thread;
use std::thread::Threads;
use turn_table::{Seat, Turn, Turns};

/// A seat, the slot of the board that it writes on, and how many entries it is to write. `done` tells whether memory was wanting.
#[derive(Drop)]
pub struct Job {
    pub seat: Seat<Board>,
    pub slot: usize,
    pub times: u64,
    pub done: Result<(), Memory>,
}

// Writes one entry under a turn that was just entered. Its number is drawn once there is room, so that no number is lost.
fn put(turns: &Turns<Board>, seat: &mut Seat<Board>, turn: &mut Turn<Board>) -> Result<(), Memory>
    requires seat { (seat.old.table ≡ turns.now) × (1 ≤ seat.old.allowance) × (seat.old.mark ≡ length seat.old.drawn) }
    requires turn { IsGiven seat.old turn.old }
    requires entries { turn.old.value.entries ≡ at_slot seat.old.seen turn.old.slot }
    ensures written { OnOk result ((at : ℕ) × Put at seat.old seat.new turn.old.value.entries turn.new.value.entries) }
    ensures refused { OnErr result ((seat.new ≡ seat.old) × (turn.new.value.entries ≡ turn.old.value.entries)) }
    ensures full { OnErr result (turn.old.value.room ≡ 0) }
    ensures turn { IsGiven seat.new turn.new × (turn.new.slot ≡ turn.old.slot) }
    ensures notes { Adds (λ e. e.by) (λ e. Some e.at) seat.new.number (fresh seat.new) (at_slot seat.new.seen turn.new.slot) turn.new.value.entries }
    ensures channel { turn.new.value.channel ≡ turn.old.value.channel }
{
    turn.value_mut().reserve()?;
    let at = turns.draw(seat);
    let by = seat.number();
    turn.value_mut().add(Entry { by, at });
    Ok(())
}

/// Writes one entry under a turn of its own, at a number that the seat draws for it. Where memory is wanting it draws no number and writes nothing.
pub fn write<R: Wait>(
    rt: &R,
    turns: &Turns<Board>,
    seat: &mut Seat<Board>,
    slot: usize,
) -> Result<(), Memory>
    requires seat { IsReady turns.now 1 seat.old }
    requires slot { slot < length turns.now.bases }
    ensures written { OnOk result ((at : ℕ) × Wrote (at ∷ []) slot seat.old seat.new) }
    ensures refused { OnErr result (Wrote [] slot seat.old seat.new) }
{
    let mut turn = turns.enter(rt, seat, slot);
    let done = put(turns, seat, &mut turn);
    turns.leave(seat, turn);
    done
}

fn write_all<R: Wait>(
    rt: &R,
    turns: &Turns<Board>,
    seat: &mut Seat<Board>,
    slot: usize,
    times: u64,
) -> Result<(), Memory>
    requires seat { IsReady turns.now times seat.old }
    requires slot { slot < length turns.now.bases }
    ensures { (numbers : List ℕ) × Wrote numbers slot seat.old seat.new × Tells result times numbers }
{
    for _ in 0..times {
        write(rt, turns, seat, slot)?;
    }
    Ok(())
}

fn run_job<R: Wait>(rt: &R, turns: &Turns<Board>, job: &mut Job)
    requires { IsReady turns.now job.old.times job.old.seat × (job.old.slot < length turns.now.bases) }
    ensures { Did job.old job.new }
{
    let times = job.times;
    let slot = job.slot;
    job.done = write_all(rt, turns, &mut job.seat, slot, times);
}

/// Runs each job on a thread of its own. Of the entries of its own number on the job's board, each seat has then seen those that it had and, behind them, one at each number that it drew, in their order.
pub fn run_all<R: Threads + Wait + Sync>(rt: &R, turns: &Turns<Board>, jobs: &mut [Job])
    requires { All (λ job. IsReady turns.now job.times job.seat × (job.slot < length turns.now.bases)) jobs.old }
    ensures { (i : ℕ) (d : Job) → i < length jobs.old → Did (slice_index_or jobs.old i d) (slice_index_or jobs.new i d) }
{
    let threads = jobs.len().max(1);
    thread::for_each_mut(rt, jobs, threads, &|_, job| run_job(rt, turns, job));
}
