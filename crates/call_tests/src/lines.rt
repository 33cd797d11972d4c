//! A caller whose steps are served, one after another.

ghost use Rattle.std.specs.Prelude.{◌≡◌};
ghost use Rattle.request_lines.specs.Requests.{FitsWrite};
ghost use Rattle.shard_calls.specs.Fronts.{IsReady, Spends};

use crate::steps::{Step, row, two_nearest};
use answer_lines::{Answer, line};
use hybrid_time::{Level, Timestamp};
use log_model::Write;
use manu_edge::{At, FixedMoments, Gate};
use proxy_search::{get, search};
use row_types::{Key, List, Memory};
use shard_calls::{Call, Front};
use shard_core::Shard;
use std::alloc::Global;
use std::sync::Wait;
use turn_table::Seat;

/// The answers to steps, at most 100, that are the input lines from `first` on. More are answered as where
/// memory is wanting.
pub(crate) fn serve_all<R: Wait, G: Gate>(
    rt: &R,
    alloc: Global,
    front: &Front,
    gate: &G,
    seat: &mut Seat<Shard>,
    first: u32,
    steps: &[Step],
) -> Result<Vec<u8>, Memory>
    requires seat { IsReady front.now.table 1000 seat.old }
    requires channels { front.now.collection.channels ≡ 2 }
    ensures { Spends 400 seat.old seat.new }
{
    if steps.len() > 100 {
        return Err(Memory);
    }
    let mut answers = Vec::new(alloc);
    let mut number = first;
    'steps: for step in steps {
        let call = Call {
            rt,
            moments: &FixedMoments(0),
            gate,
            caller: 0,
            line: number,
        };
        let answer = serve(alloc, front, &call, seat, *step)?;
        let text = line(alloc, number, &answer)?;
        answers.extend_from_slice(text.as_slice())?;
        number = number.wrapping_add(1);
    }
    Ok(answers)
}

fn serve<R: Wait, G: Gate>(
    alloc: Global,
    front: &Front,
    call: &Call<'_, R, FixedMoments, G>,
    seat: &mut Seat<Shard>,
    step: Step,
) -> Result<Answer, Memory>
    requires seat { IsReady front.now.table 4 seat.old }
    requires channels { front.now.collection.channels ≡ 2 }
    ensures { Spends 4 seat.old seat.new }
{
    front.start(call, seat);
    let answer = take(alloc, front, call, seat, step)?;
    call.pass(At::Answered);
    Ok(answer)
}

fn take<R: Wait, G: Gate>(
    alloc: Global,
    front: &Front,
    call: &Call<'_, R, FixedMoments, G>,
    seat: &mut Seat<Shard>,
    step: Step,
) -> Result<Answer, Memory>
    requires seat { IsReady front.now.table 4 seat.old }
    requires channels { front.now.collection.channels ≡ 2 }
    ensures { Spends 4 seat.old seat.new }
{
    match step {
        Step::Insert(key, byte) => {
            let row = row(alloc, front.collection(), key, byte)?;
            write(alloc, front, call, seat, Write::Insert(row))
        }
        Step::Upsert(key, byte) => {
            let row = row(alloc, front.collection(), key, byte)?;
            write(alloc, front, call, seat, Write::Upsert(row))
        }
        Step::Delete(key) => write(alloc, front, call, seat, Write::Delete(Key(key))),
        Step::Tick => tick_both(alloc, front, call, seat),
        Step::Seal => seal_both(alloc, front, call, seat),
        Step::Search { level, wait } => search_two(alloc, front, call, seat, level, wait),
        Step::Get { key, level, wait } => get_row(alloc, front, call, seat, Key(key), level, wait),
    }
}

fn write<R: Wait, G: Gate>(
    alloc: Global,
    front: &Front,
    call: &Call<'_, R, FixedMoments, G>,
    seat: &mut Seat<Shard>,
    write: Write,
) -> Result<Answer, Memory>
    requires seat { IsReady front.now.table 4 seat.old }
    requires fits { FitsWrite front.now.collection write }
    ensures { Spends 4 seat.old seat.new }
{
    let reply = front.write(alloc, call, seat, write)?;
    Ok(Answer::Wrote(reply))
}

fn tick_both<R: Wait, G: Gate>(
    alloc: Global,
    front: &Front,
    call: &Call<'_, R, FixedMoments, G>,
    seat: &mut Seat<Shard>,
) -> Result<Answer, Memory>
    requires seat { IsReady front.now.table 4 seat.old }
    requires channels { front.now.collection.channels ≡ 2 }
    ensures { Spends 4 seat.old seat.new }
{
    let one = front.tick(alloc, call, seat, 0)?;
    let other = front.tick(alloc, call, seat, 1)?;
    let ticks = vec![in alloc; one, other]?;
    Ok(Answer::Ticked(List::of(ticks)))
}

fn seal_both<R: Wait, G: Gate>(
    alloc: Global,
    front: &Front,
    call: &Call<'_, R, FixedMoments, G>,
    seat: &mut Seat<Shard>,
) -> Result<Answer, Memory>
    requires seat { IsReady front.now.table 4 seat.old }
    requires channels { front.now.collection.channels ≡ 2 }
    ensures { Spends 4 seat.old seat.new }
{
    let one = front.seal(alloc, call, seat, 0)?;
    let other = front.seal(alloc, call, seat, 1)?;
    let seals = vec![in alloc; one, other]?;
    Ok(Answer::Sealed(List::of(seals)))
}

// A table's first number is at least 1, so 0 stands for a caller that has not written.
fn search_two<R: Wait, G: Gate>(
    alloc: Global,
    front: &Front,
    call: &Call<'_, R, FixedMoments, G>,
    seat: &mut Seat<Shard>,
    level: Level,
    wait: bool,
) -> Result<Answer, Memory>
    requires seat { IsReady front.now.table 4 seat.old }
    requires channels { front.now.collection.channels ≡ 2 }
    ensures { Spends 4 seat.old seat.new }
{
    let _turns = front.turns();
    let query = two_nearest(alloc, front.collection())?;
    search(front, alloc, call, seat, &query, level, Timestamp(0), wait)
}

fn get_row<R: Wait, G: Gate>(
    alloc: Global,
    front: &Front,
    call: &Call<'_, R, FixedMoments, G>,
    seat: &mut Seat<Shard>,
    key: Key,
    level: Level,
    wait: bool,
) -> Result<Answer, Memory>
    requires seat { IsReady front.now.table 4 seat.old }
    ensures { Spends 4 seat.old seat.new }
{
    let _turns = front.turns();
    get(front, alloc, call, seat, key, level, Timestamp(0), wait)
}
