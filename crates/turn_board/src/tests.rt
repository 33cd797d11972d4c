ghost use Rattle.std.specs.Prelude.{◌≡◌, ◌+◌, ◌^◌, ◌<◌, [], length};
ghost use Rattle.turn_board.specs.Jobs.{IsReady};

use crate::boards::{Board, Entry};
use crate::jobs::{Job, run_all};
use std::sync::Wait;
use std::sync::atomic::{AtomicU64, Ordering};
use std::test::Fail;
use std::thread;
use std::thread::Threads;
use turn_table::{Seat, Turns};

// The seats join, and the table ends.
fn end(turns: Turns<Board>, mut one: Seat<Board>, two: Seat<Board>) -> (Vec<Board>, u64)
    requires seats { IsReady turns 0 one × IsReady turns 0 two }
    requires joined { (one.joined ≡ []) × (two.joined ≡ []) }
    requires all { one.allowance + length one.drawn + (two.allowance + length two.drawn) + 1 ≡ 2 ^ 40 }
{
    turns.join(&mut one, two);
    turns.close(one)
}

// Two threads write on one board, as often as `times`.
fn write_from_two<R: Threads + Wait + Sync>(
    rt: &R,
    turns: Turns<Board>,
    mut seat: Seat<Board>,
    times: u64,
) -> (Vec<Board>, u64)
    requires seat { IsReady turns (2 ^ 40) seat × (seat.joined ≡ []) × (seat.drawn ≡ []) × (seat.allowance ≡ 2 ^ 40) }
    requires slot { 0 < length turns.bases }
    requires times { (0 < times) × (times < 2 ^ 30) }
{
    turns.lift(&mut seat, 5);
    let other = turns.split(&mut seat, times);
    let mut jobs = [
        Job {
            seat,
            slot: 0,
            times,
            done: Ok(()),
        },
        Job {
            seat: other,
            slot: 0,
            times,
            done: Ok(()),
        },
    ];
    run_all(rt, &turns, &mut jobs);
    let [one, two] = jobs;
    end(turns, one.seat, two.seat)
}

fn rises(entries: &[Entry]) -> bool {
    let mut last = 0;
    for entry in entries {
        if entry.at <= last {
            return false;
        }
        last = entry.at;
    }
    true
}

fn count_of(entries: &[Entry], by: u64) -> usize {
    entries.iter().filter(|entry| entry.by == by).count()
}

// Stays inside of a turn of an empty board until both are in one, or for 100,000,000 looks. Tells
// whether the turn is of the slot and both were in one.
fn stay<R: Wait>(
    rt: &R,
    turns: &Turns<Board>,
    seat: &mut Seat<Board>,
    slot: usize,
    inside: &AtomicU64,
) -> bool
    requires seat { IsReady turns.now 0 seat.old }
    requires slot { slot < length turns.now.bases }
{
    let turn = turns.enter(rt, seat, slot);
    let own = turn.slot() == slot && turn.value().entries().is_empty();
    inside.fetch_add(1, Ordering::SeqCst);
    let met = sees_two(inside);
    turns.leave(seat, turn);
    own && met
}

fn sees_two(inside: &AtomicU64) -> bool {
    for _ in 0..100_000_000u32 {
        if inside.load(Ordering::SeqCst) >= 2 {
            return true;
        }
    }
    false
}

fn stay_both<R: Threads + Wait + Sync>(
    rt: &R,
    turns: &Turns<Board>,
    mut one: Seat<Board>,
    mut two: Seat<Board>,
    inside: &AtomicU64,
) -> (bool, bool)
    requires seats { IsReady turns.now 0 one × IsReady turns.now 0 two }
    requires slots { 1 < length turns.now.bases }
{
    thread::join(
        rt,
        move || stay(rt, turns, &mut one, 0, inside),
        move || stay(rt, turns, &mut two, 1, inside),
    )
}

#[test]
fn two_threads_write_with_rising_numbers(rt: HostRuntime) -> Result<(), Fail> {
    let mut boards = Vec::new(rt.alloc());
    boards.push(Board::new(rt.alloc(), 7))?;
    let Ok((turns, seat)) = Turns::new(rt.alloc(), boards, 1) else {
        panic!(rt; "no memory")
    };
    let (boards, next) = write_from_two(&rt, turns, seat, 1000);
    assert!(rt; boards.len() == 1);
    for board in &boards {
        let entries = board.entries();
        assert!(rt; entries.len() == 2000 && rises(entries));
        assert!(rt; count_of(entries, 0) == 1000 && count_of(entries, 1) == 1000);
    }
    assert!(rt; next == 2005);
    Ok(())
}

#[test]
fn two_slots_are_inside_at_once(rt: HostRuntime) -> Result<(), Fail> {
    let mut boards = Vec::new(rt.alloc());
    boards.push(Board::new(rt.alloc(), 0))?;
    boards.push(Board::new(rt.alloc(), 1))?;
    let Ok((turns, mut seat)) = Turns::new(rt.alloc(), boards, 1) else {
        panic!(rt; "no memory")
    };
    let other = turns.split(&mut seat, 10);
    let inside = AtomicU64::new(0);
    let (one, two) = stay_both(&rt, &turns, seat, other, &inside);
    assert!(rt; one && two);
    Ok(())
}
