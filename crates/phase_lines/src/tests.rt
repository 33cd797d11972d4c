//! Lines of two callers and a refused one between them, from what was read to the text.

ghost use Rattle.std.specs.Prelude.{◌≡◌, ◌+◌, ◌^◌, ◌<◌, All, length, None, IfOk};
ghost use Rattle.legal_output.specs.Lines.{written_of};
ghost use Rattle.phase_run.specs.Phases.{IsDoneOf, AreDone, AreAnswered};
ghost use Rattle.phase_lines.specs.Waiting.{MayWait, AreHeld};

use crate::{PhaseLines, append_lines};
use answer_lines::{Answer, Reason};
use hybrid_time::Timestamp;
use phase_run::{Done, Work};
use request_lines::{Ask, Request};
use row_types::Memory;
use std::alloc::Global;
use std::test::Fail;

#[test]
fn answers_stand_in_the_order_of_the_lines(rt: HostRuntime) -> Result<(), Fail> {
    let mut reads = Vec::new(rt.alloc());
    reads.push(tick_of(3))?;
    reads.push(Err(Reason::NotJson))?;
    reads.push(tick_of(1))?;
    reads.push(tick_of(3))?;
    let text = text_for(rt.alloc(), 5, reads)?;
    let want = concat!(
        r#"{"answer":"pending","channel":3,"guarantee":0,"line":5,"now":5,"tick":0}"#,
        "\n",
        r#"{"answer":"refused","line":6,"reason":"NotJson"}"#,
        "\n",
        r#"{"answer":"pending","channel":1,"guarantee":0,"line":7,"now":7,"tick":0}"#,
        "\n",
        r#"{"answer":"pending","channel":3,"guarantee":0,"line":8,"now":8,"tick":0}"#,
        "\n",
    );
    assert_eq!(rt; text.as_slice(), want.as_bytes());
    Ok(())
}

fn tick_of(caller: u32) -> Result<Request, Reason>
    requires { caller < 16 }
    ensures { MayWait result }
{
    Ok(Request {
        caller,
        what: Ask::Tick,
    })
}

// Lines that wait, from the number `first` on.
fn held(
    alloc: Global,
    first: u32,
    reads: Vec<Result<Request, Reason>>,
) -> Result<PhaseLines, Memory>
    requires may { All MayWait reads.items }
    requires room { first + length reads.items < 2 ^ 32 }
    ensures { IfOk result (AreHeld first reads.items) }
{
    let mut lines = PhaseLines::new(alloc, first)?;
    for read in reads {
        lines.add(read)?;
    }
    Ok(lines)
}

// The text for lines that are answered by `done_of`.
fn text_for(
    alloc: Global,
    first: u32,
    reads: Vec<Result<Request, Reason>>,
) -> Result<Vec<u8>, Memory>
    requires may { All MayWait reads.items }
    requires room { first + length reads.items < 2 ^ 32 }
{
    let lines = held(alloc, first, reads)?;
    let mine = vec![in alloc; Timestamp(0); 16]?;
    let (slots, works) = lines.into_works(alloc, mine.as_slice())?;
    let done = done_all(alloc, works.as_slice())?;
    let mut text = Vec::new(alloc);
    append_lines(alloc, first, slots.as_slice(), done, &mut text)?;
    Ok(text)
}

fn done_all(alloc: Global, works: &[Work]) -> Result<Vec<Done>, Memory>
    ensures done { IfOk result (λ dones. AreDone works.now dones.items) }
    ensures answered { IfOk result (λ dones. AreAnswered works.now dones.items) }
{
    let mut dones = Vec::new(alloc);
    for work in works {
        dones.push(done_of(alloc, work)?)?;
    }
    Ok(dones)
}

// Answers each request by one that shows its caller and its number.
fn done_of(alloc: Global, work: &Work) -> Result<Done, Memory>
    ensures done { IfOk result (IsDoneOf work.now) }
    ensures answered { IfOk result (λ done. length done.answers.items ≡ length work.now.requests.items) }
{
    let mut answers = Vec::new(alloc);
    for request in work.requests.as_slice() {
        let number = request.0;
        answers.push((number, pending(work.caller, number)))?;
    }
    Ok(Done {
        caller: work.caller,
        mine: work.mine,
        answers,
    })
}

fn pending(channel: u32, number: u32) -> Answer
    ensures { written_of result ≡ None }
{
    Answer::Pending {
        now: Timestamp(u64::from(number)),
        guarantee: Timestamp(0),
        channel,
        tick: Timestamp(0),
    }
}
