ghost use Rattle.std.specs.Prelude.{◌≢◌, ℕ, ◌<◌, ⊤};
ghost use mathlib.Core.Option.{none, some};
ghost use lib.ListN.{get_elem?};
ghost use Rattle.turn_lock.specs.Passes.{IsPassOf, IsAtRest, slot_count};

use crate::{Counts, Join, Learns, Leaves, Pass, Protocol, Split, Takes, TurnLock};
use std::sync::Wait;
use std::test::Fail;
use std::thread;
use std::thread::Threads;

// The rule that asks nothing and tells nothing.
struct Free;

impl<S> Protocol<S, (), ()> for Free {
    ghost holds = { λ _ _ _. ⊤ };

    ghost first = { λ _. tt };
}

impl<S> Takes<S, ()> for Free {
    ghost took = { λ _ _ _ _. ⊤ };
}

impl<S> Leaves<S, ()> for Free {
    ghost gave = { λ _ _ _ _. ⊤ };
}

impl Learns<()> for Free {
    ghost learnt = { λ _ _ _ _. ⊤ };
}

impl<S> Counts<S, ()> for Free {
    ghost counted = { λ _ _ _ _ _ _. ⊤ };
}

impl Split<()> for Free {
    ghost left = { λ _. tt };

    ghost right = { λ _. tt };
}

impl Join<()> for Free {
    ghost both = { λ _ _. tt };

    ghost spent = { tt };
}

// The rule that no value is ever out.
struct Resting;

impl<S> Protocol<S, (), ()> for Resting {
    ghost holds = { λ words homes knowns. (k : ℕ) → get_elem? homes k ≢ some none };

    ghost first = { λ _. tt };
}

fn take_turns<R: Wait>(
    rt: &R,
    lock: &TurnLock<u64, (), (), Free>,
    pass: &mut Pass<u64, ()>,
    slot: usize,
    turns: u32,
)
    requires { IsPassOf lock.now pass.old × IsAtRest pass.old × (slot < slot_count lock.now) }
    ensures { IsPassOf lock.now pass.new × IsAtRest pass.new }
{
    for _ in 0..turns {
        let mut turn = lock.enter_as::<Free, R>(rt, pass, slot);
        turn.value = turn.value.wrapping_add(1);
        lock.leave_as::<Free>(pass, turn);
    }
}

fn take_both<R: Threads + Wait + Sync>(
    rt: &R,
    lock: &TurnLock<u64, (), (), Free>,
    mut one: Pass<u64, ()>,
    mut two: Pass<u64, ()>,
)
    requires one { IsPassOf lock.now one × IsAtRest one }
    requires two { IsPassOf lock.now two × IsAtRest two }
    requires slot { 0 < slot_count lock.now }
{
    thread::join(
        rt,
        move || take_turns(rt, lock, &mut one, 0, 10_000),
        move || take_turns(rt, lock, &mut two, 0, 10_000),
    );
}

#[test]
fn a_seat_goes_through_two_slots(rt: HostRuntime) -> Result<(), Fail> {
    let mut values = Vec::new(rt.alloc());
    values.push(3u64)?;
    values.push(5u64)?;
    let made = TurnLock::<u64, (), (), Free>::new(rt.alloc(), values, &[], &());
    let Ok((lock, mut pass)) = made else {
        panic!(rt; "no memory")
    };
    take_turns(&rt, &lock, &mut pass, 0, 2);
    take_turns(&rt, &lock, &mut pass, 1, 3);
    let one = lock.enter_as::<Free, HostRuntime>(&rt, &mut pass, 0);
    let first = one.value;
    lock.leave_as::<Free>(&mut pass, one);
    let two = lock.enter_as::<Free, HostRuntime>(&rt, &mut pass, 1);
    let second = two.value;
    lock.leave_as::<Free>(&mut pass, two);
    assert!(rt; first == 5 && second == 8);
    Ok(())
}

// The threads race for tickets. A loser that didn't look again would spin forever, and no clause says that a call returns: the test would not end.
#[test]
fn two_threads_lose_no_turn(rt: HostRuntime) -> Result<(), Fail> {
    let mut values = Vec::new(rt.alloc());
    values.push(0u64)?;
    let made = TurnLock::<u64, (), (), Free>::new(rt.alloc(), values, &[], &());
    let Ok((lock, mut pass)) = made else {
        panic!(rt; "no memory")
    };
    let one = lock.split_as::<Free>(&mut pass);
    let two = lock.split_as::<Free>(&mut pass);
    take_both(&rt, &lock, one, two);
    let turn = lock.enter_as::<Free, HostRuntime>(&rt, &mut pass, 0);
    let total = turn.value;
    lock.leave_as::<Free>(&mut pass, turn);
    assert!(rt; total == 20_000);
    Ok(())
}

#[test]
fn closing_gives_the_values_and_a_word(rt: HostRuntime) -> Result<(), Fail> {
    let mut values = Vec::new(rt.alloc());
    values.push(6u64)?;
    values.push(7u64)?;
    let made = TurnLock::<u64, (), (), Resting>::new(rt.alloc(), values, &[40, 1], &());
    let Ok((lock, mut pass)) = made else {
        panic!(rt; "no memory")
    };
    let other = lock.split_as::<Free>(&mut pass);
    lock.join_as::<Free>(&mut pass, other);
    let found = [
        lock.add_as::<Free>(&mut pass, 1, 4),
        lock.raise_as::<Free>(&mut pass, 1, 9),
        lock.write_as::<Free>(&mut pass, 1, 8),
        lock.read_as::<Free>(&mut pass, 1, 2),
    ];
    let (back, last) = lock.close(pass, 1);
    assert!(rt; found == [1, 5, 9, 8] && last == 8);
    assert!(rt; back.as_slice() == [6, 7].as_slice());
    Ok(())
}
