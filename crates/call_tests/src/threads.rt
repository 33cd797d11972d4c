//! Two callers on two threads, of which one is held.

ghost use Rattle.std.specs.Prelude.{◌≡◌, All};
ghost use Rattle.shard_calls.specs.Fronts.{IsReady};

use crate::fronts::two_channels;
use crate::lines::serve_all;
use crate::steps::Step;
use hybrid_time::Level;
use line_gates::Hold;
use manu_edge::{At, Gate, OpenGate};
use row_types::Memory;
use shard_calls::Front;
use shard_core::Shard;
use std::alloc::Global;
use std::sync::Wait;
use std::test::Fail;
use std::thread::Threads;
use std::{str, thread};
use turn_table::Seat;

// A caller: its seat, its steps, which are the input lines from `first` on, and its answers.
#[derive(Drop)]
struct Caller {
    seat: Seat<Shard>,
    first: u32,
    steps: Vec<Step>,
    answers: Result<Vec<u8>, Memory>,
}

impl Caller {
    fn new(alloc: Global, seat: Seat<Shard>, first: u32, steps: Vec<Step>) -> Caller
        ensures { result.seat ≡ seat }
    {
        Caller {
            seat,
            first,
            steps,
            answers: Ok(Vec::new(alloc)),
        }
    }

    // The text of its answers; none where memory was wanting.
    fn text(&self) -> &[u8] {
        match &self.answers {
            Ok(answers) => answers.as_slice(),
            Err(_) => &[],
        }
    }
}

fn serve_caller<R: Wait, G: Gate>(
    rt: &R,
    alloc: Global,
    front: &Front,
    gate: &G,
    caller: &mut Caller,
)
    requires seat { IsReady front.now.table 1000 caller.old.seat }
    requires channels { front.now.collection.channels ≡ 2 }
{
    let first = caller.first;
    let steps = caller.steps.as_slice();
    caller.answers = serve_all(rt, alloc, front, gate, &mut caller.seat, first, steps);
}

// Serves callers beside each other, each on a thread of its own.
fn serve_callers<R: Threads + Wait + Sync, G: Gate + Sync>(
    rt: &R,
    alloc: Global,
    front: &Front,
    gate: &G,
    callers: &mut [Caller],
)
    requires seats { All (λ caller. IsReady front.now.table 1000 caller.seat) callers.old }
    requires channels { front.now.collection.channels ≡ 2 }
{
    let threads = callers.len().max(1);
    thread::for_each_mut(
        rt,
        callers,
        threads,
        &|_, caller| { serve_caller(rt, alloc, front, gate, caller) },
    );
}

// A seat for each of two callers.
fn two_seats(front: &Front, mut seat: Seat<Shard>) -> (Seat<Shard>, Seat<Shard>)
    requires { IsReady front.now.table 5000 seat }
    ensures one { IsReady front.now.table 1000 result.0 }
    ensures other { IsReady front.now.table 1000 result.1 }
{
    let other = front.turns().split(&mut seat, 1000);
    (seat, other)
}

#[test]
fn a_held_search_finds_a_row_that_is_deleted_meanwhile(rt: HostRuntime) -> Result<(), Fail> {
    let alloc = rt.alloc();
    let (front, mut seat) = two_channels(alloc)?;
    let before = [Step::Insert(1, 0x00), Step::Insert(2, 0xff), Step::Tick];
    serve_all(&rt, alloc, &front, &OpenGate, &mut seat, 2, &before)?;
    let (one, other) = two_seats(&front, seat);
    let hold = Hold::new(5, At::BeforeScan, 6);
    let searches = vec![in alloc;
        Step::Search {
            level: Level::Eventually,
            wait: true
        },
    ]?;
    let strong = Step::Search {
        level: Level::Strong,
        wait: true,
    };
    let deletes = vec![in alloc; Step::Delete(1), strong]?;
    let mut callers = [
        Caller::new(alloc, one, 5, searches),
        Caller::new(alloc, other, 6, deletes),
    ];
    serve_callers(&rt, alloc, &front, &hold, &mut callers);
    assert!(rt; hold.was_kept());
    let found = r#"{"answer":"hits","guarantee":0,"hits":[[0,1],[8,2]],"line":5,"now":5,"ts":3}
"#;
    assert_eq!(rt; str::from_utf8(callers[0].text()), Ok(found));
    let deleted = r#"{"answer":"ok","line":6,"ts":6,"was":true}
{"answer":"hits","guarantee":7,"hits":[[8,2]],"line":7,"now":7,"ts":8}
"#;
    assert_eq!(rt; str::from_utf8(callers[1].text()), Ok(deleted));
    Ok(())
}

#[test]
fn writes_of_two_channels_pass_each_other(rt: HostRuntime) -> Result<(), Fail> {
    let alloc = rt.alloc();
    let (front, seat) = two_channels(alloc)?;
    let (one, other) = two_seats(&front, seat);
    let hold = Hold::new(2, At::AfterEnter, 3);
    let held = vec![in alloc; Step::Insert(2, 0x00)]?;
    let meanwhile = vec![in alloc; Step::Insert(1, 0x01)]?;
    let mut callers = [
        Caller::new(alloc, one, 2, held),
        Caller::new(alloc, other, 3, meanwhile),
    ];
    serve_callers(&rt, alloc, &front, &hold, &mut callers);
    assert!(rt; hold.was_kept());
    let later = r#"{"answer":"ok","line":2,"ts":2}
"#;
    assert_eq!(rt; str::from_utf8(callers[0].text()), Ok(later));
    let sooner = r#"{"answer":"ok","line":3,"ts":1}
"#;
    assert_eq!(rt; str::from_utf8(callers[1].text()), Ok(sooner));
    Ok(())
}
