//! A caller, line after line, and a ticker, round after round.

ghost use Rattle.std.specs.Prelude.{◌≡◌, ℕ, ◌+◌, ◌*◌, ◌^◌, ◌<◌, ◌≤◌, [], ◌∷◌, ◌++◌, List, All, length, map, OnOk, OnErr};
ghost use Rattle.hybrid_time.specs.Times.{of_moment};
ghost use Rattle.answer_lines.specs.declared.answers.Answer.{Answer};
ghost use Rattle.request_lines.specs.declared.requests.Request.{Request};
ghost use Rattle.legal_output.specs.Lines.{Line, written_of};
ghost use Rattle.legal_output.specs.Printed.{write_or, write_behind};
ghost use Rattle.journal_model.specs.declared.notes.Note.{Note};
ghost use Rattle.seat_walks.specs.Walks.{Step};
ghost use Rattle.call_model.specs.Walks.{Did, Serves};
ghost use Rattle.phase_model.specs.Phases.{Minds};
ghost use Rattle.shard_calls.specs.Fronts.{IsReady, Spends};
ghost use Rattle.phase_run.specs.Callers.{MayAsk, IsKnown, answered, line_of, Asked, IsRound, Ticked};

use crate::requests::{last_write, serve_request};
use crate::rounds::tick_all;
use answer_lines::Answer;
use hybrid_time::Timestamp;
use manu_edge::{Gate, Moments};
use request_lines::Request;
use row_types::Memory;
use shard_calls::{Call, Front};
use shard_core::Shard;
use std::alloc::Global;
use std::sync::Wait;
use turn_table::Seat;

/// Serves the requests of a caller, each at the number of its line, in their order. Want of memory ends
/// it: the answers are those of the requests that were served whole. `mine` goes from the caller's last
/// write before to its last write behind.
pub(crate) fn serve_all<R: Wait, M: Moments, G: Gate>(
    front: &Front,
    alloc: Global,
    call: &Call<'_, R, M, G>,
    seat: &mut Seat<Shard>,
    mine: &mut Timestamp,
    requests: Vec<(u32, Request)>,
    answers: &mut Vec<(u32, Answer)>,
) -> Result<(), Memory>
    requires seat { IsReady front.now.table (length requests.items * 20 + 20) seat.old }
    requires may { All (λ (request : ℕ × Request). MayAsk front.now.collection request.1.what) requests.items }
    requires mine { IsKnown front.now.table.first mine.old.0 seat.old }
    requires none { answers.old.items ≡ [] }
    ensures asked { Asked front.now.collection (of_moment (M.least call.now.moments.now)) mine.old.0 seat.old requests.items answers.new.items result seat.new }
    ensures mine { mine.new.0 ≡ write_behind mine.old.0 (answered requests.items answers.new.items) }
    ensures numbers { map (λ (answer : ℕ × Answer). answer.0) answers.new.items ≡ map (λ (line : Line). line.number) (answered requests.items answers.new.items) }
{
    for request in requests {
        serve_next(front, alloc, call, seat, mine, request, answers)?;
    }
    Ok(())
}

// Serves one request more.
fn serve_next<R: Wait, M: Moments, G: Gate>(
    front: &Front,
    alloc: Global,
    call: &Call<'_, R, M, G>,
    seat: &mut Seat<Shard>,
    mine: &mut Timestamp,
    request: (u32, Request),
    answers: &mut Vec<(u32, Answer)>,
) -> Result<(), Memory>
    requires seat { IsReady front.now.table 20 seat.old }
    requires may { MayAsk front.now.collection request.1.what }
    requires mine { IsKnown front.now.table.first mine.old.0 seat.old }
    ensures served { OnOk result ((answer : Answer) × (answers.new.items ≡ answers.old.items ++ (request.0, answer) ∷ [])
        × Serves front.now.collection (of_moment (M.least call.now.moments.now)) mine.old.0 seat.old (line_of request answer) seat.new
        × (mine.new.0 ≡ write_or mine.old.0 (written_of answer)) × IsKnown front.now.table.first mine.new.0 seat.new) }
    ensures err { OnErr result ((answers.new.items ≡ answers.old.items) × (mine.new ≡ mine.old) × ((part : List (Step Note)) × Did seat.old part seat.new)) }
    ensures spends { Spends 20 seat.old seat.new }
{
    answers.reserve(1)?;
    let (line, request) = request;
    let call = Call {
        rt: call.rt,
        moments: call.moments,
        gate: call.gate,
        caller: call.caller,
        line,
    };
    let answer = serve_request(front, alloc, &call, seat, request.what, *mine)?;
    *mine = last_write(*mine, &answer);
    answers.push_reserved((line, answer));
    Ok(())
}

/// Ticks all channels in so many rounds, each of which begins as a request does, for no line. Want of
/// memory ends it.
pub(crate) fn tick_rounds<R: Wait, M: Moments, G: Gate>(
    front: &Front,
    alloc: Global,
    call: &Call<'_, R, M, G>,
    seat: &mut Seat<Shard>,
    rounds: u32,
) -> Result<(), Memory>
    requires seat { IsReady front.now.table (rounds * 20 + 20) seat.old }
    requires line { call.now.line ≡ 0 }
    ensures minds { Minds seat.old seat.new }
    ensures ticked { OnOk result (Ticked front.now.collection (of_moment (M.least call.now.moments.now)) rounds seat.old seat.new) }
{
    'rounds: for _ in 0..rounds {
        tick_round(front, alloc, call, seat)?;
    }
    Ok(())
}

// One round of a ticker.
fn tick_round<R: Wait, M: Moments, G: Gate>(
    front: &Front,
    alloc: Global,
    call: &Call<'_, R, M, G>,
    seat: &mut Seat<Shard>,
) -> Result<(), Memory>
    requires seat { IsReady front.now.table 20 seat.old }
    requires line { call.now.line ≡ 0 }
    ensures minds { Minds seat.old seat.new }
    ensures ticked { OnOk result ((steps : List (Step Note)) × Did seat.old steps seat.new × IsRound front.now.collection (of_moment (M.least call.now.moments.now)) seat.old.number steps) }
    ensures spends { Spends 20 seat.old seat.new }
{
    let _channels = front.collection();
    front.start(call, seat);
    tick_all(front, alloc, call, seat)?;
    Ok(())
}
