//! One request of a caller.

ghost use Rattle.std.specs.Prelude.{◌≡◌, ℕ, ◌+◌, ◌≤◌, List, [], ◌∷◌, IfOk};
ghost use Rattle.hybrid_time.specs.Times.{of_moment};
ghost use Rattle.journal_model.specs.declared.notes.Note.{Note};
ghost use Rattle.legal_output.specs.Lines.{written_of};
ghost use Rattle.legal_output.specs.Printed.{write_or};
ghost use Rattle.seat_walks.specs.Walks.{Step, Lift};
ghost use Rattle.call_model.specs.Calls.{IsCall};
ghost use Rattle.call_model.specs.Walks.{Did};
ghost use Rattle.shard_calls.specs.Fronts.{IsReady, Spends};
ghost use Rattle.phase_run.specs.Callers.{MayAsk, IsKnown};

use crate::rounds::{seal_all, tick_all};
use answer_lines::Answer;
use hybrid_time::Timestamp;
use manu_edge::{At, Gate, Moments};
use proxy_search::{get, search};
use request_lines::Ask;
use row_types::Memory;
use shard_calls::{Call, Front};
use shard_core::Shard;
use std::alloc::Global;
use std::sync::Wait;
use turn_table::Seat;

/// Serves a request: passes the gate's `Start`, reads the moment, does the call that is asked, and passes
/// `Answered`. `mine` is the caller's last write, or 0. Want of memory is the only error; what was done of
/// the call stands.
pub(crate) fn serve_request<R: Wait, M: Moments, G: Gate>(
    front: &Front,
    alloc: Global,
    call: &Call<'_, R, M, G>,
    seat: &mut Seat<Shard>,
    what: Ask,
    mine: Timestamp,
) -> Result<Answer, Memory>
    requires seat { IsReady front.now.table 20 seat.old }
    requires may { MayAsk front.now.collection what }
    requires mine { IsKnown front.now.table.first mine.0 seat.old }
    ensures did { (moment : ℕ) × (xs : List (Step Note)) × (M.least call.now.moments.now ≤ moment) × Did seat.old (Lift (of_moment moment) ∷ xs) seat.new
        × IfOk result (λ answer. IsCall front.now.collection seat.old.number call.now.line mine.0 what answer xs) }
    ensures known { IfOk result (λ answer. IsKnown front.now.table.first (write_or mine.0 (written_of answer)) seat.new) }
    ensures spends { Spends 20 seat.old seat.new }
{
    front.start(call, seat);
    let answer = do_ask(front, alloc, call, seat, what, mine)?;
    call.pass(At::Answered);
    Ok(answer)
}

// The call that is asked.
fn do_ask<R: Wait, M: Moments, G: Gate>(
    front: &Front,
    alloc: Global,
    call: &Call<'_, R, M, G>,
    seat: &mut Seat<Shard>,
    what: Ask,
    mine: Timestamp,
) -> Result<Answer, Memory>
    requires seat { IsReady front.now.table 20 seat.old }
    requires may { MayAsk front.now.collection what }
    requires mine { IsKnown front.now.table.first mine.0 seat.old }
    ensures did { (xs : List (Step Note)) × Did seat.old xs seat.new
        × IfOk result (λ answer. IsCall front.now.collection seat.old.number call.now.line mine.0 what answer xs) }
    ensures spends { Spends 20 seat.old seat.new }
{
    let _channels = front.collection();
    match what {
        Ask::Write(write) => Ok(Answer::Wrote(front.write(alloc, call, seat, write)?)),
        Ask::Search { query, level, wait } => {
            search(front, alloc, call, seat, &query, level, mine, wait)
        }
        Ask::Get { key, level, wait } => get(front, alloc, call, seat, key, level, mine, wait),
        Ask::Tick => Ok(Answer::Ticked(tick_all(front, alloc, call, seat)?)),
        Ask::Seal => Ok(Answer::Sealed(seal_all(front, alloc, call, seat)?)),
        Ask::Meet => unreachable!(),
    }
}

/// The timestamp of a caller's last write behind an answer.
pub(crate) fn last_write(mine: Timestamp, answer: &Answer) -> Timestamp
    ensures { result.0 ≡ write_or mine.0 (written_of answer.now) }
{
    match answer {
        Answer::Wrote(reply) => reply.ts,
        _ => mine,
    }
}
