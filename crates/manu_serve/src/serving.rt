//! The top call.

ghost use Rattle.std.specs.Prelude.{◌≡◌, ◌≢◌, ◌⊎◌, ◌↔◌, ℕ, List, [], Some, IfSome};
ghost use Rattle.std.specs.Io.KnownBytes.{Appends};
ghost use Rattle.hybrid_time.specs.Times.{of_moment};
ghost use Rattle.legal_output.specs.Outputs.{IsLegalOutput};
ghost use Rattle.manu_edge.specs.Faults.{Rose};
ghost use Rattle.phase_reading.specs.Outputs.{WritesLimited};
ghost use Rattle.phase_reading.specs.Outcomes.{HasBadHeader, PassesLimit, IsReadWhole, StopsAtFault, StopsInPiece, TakesAtMost, OfRun, WritesFront};
ghost use Rattle.phase_engine.specs.Outputs.{begins, meets, stopped_at, whole_at};
ghost use Rattle.manu_serve.specs.Paces.{least_of};
ghost use Rattle.manu_serve.specs.Servings.{running, first_in, IsForm, TellsGood, IsLegalFrom, WritesAll};

use crate::endings::{Ended, Status, status_of};
use crate::paces::{Pace, Paced};
use crate::words::read_words;
use manu_edge::{Gate, Keeper, Moments, Sink, Source};
use phase_run::Roles;
use row_types::Text;
use std::alloc::Global;
use std::sync::Wait;
use std::thread::Threads;

/// Does all that the program does: reads the words and then the input, phase by phase, answers each
/// line, and writes each phase as soon as its meet line was read. The callers of a phase run on threads
/// beside each other.
pub fn serve<
    R: Threads + Wait + Sync,
    S: Source,
    O: Sink,
    K: Keeper,
    M: Moments + Sync,
    G: Gate + Sync,
>(
    rt: &R,
    alloc: Global,
    words: &[Text],
    source: &mut S,
    sink: &mut O,
    keeper: K,
    moments: &M,
    gate: &G,
) -> Ended<K>
    ensures legal { result.status ≡ Status.Done → WritesAll IsLegalOutput (S.left source.old) (O.written sink.old) (O.written sink.new) }
    ensures moments { result.status ≡ Status.Done → words.now ≡ running
        → WritesAll (IsLegalFrom (of_moment (M.least moments.now))) (S.left source.old) (O.written sink.old) (O.written sink.new) }
    ensures within { result.status ≡ Status.Done → IsReadWhole (S.left source.old) (S.left source.new) }
    ensures complete { IsForm words.now → ¬ Rose (S.faults source.old) (S.faults source.new) → ¬ Rose (O.faults sink.old) (O.faults sink.new)
        → (input : List ℕ) → TellsGood (S.left source.old) input → (result.status ≡ Status.Done) ⊎ (result.status ≡ Status.Memory) }

    ensures usage { (result.status ≡ Status.Usage) ↔ (¬ IsForm words.now) }
    ensures bad_header { result.status ≡ Status.BadHeader → IfSome (S.left source.old) (HasBadHeader begins) }
    ensures limit { result.status ≡ Status.Limit → IfSome (S.left source.old) (PassesLimit begins) }
    ensures read_fault { result.status ≡ Status.ReadFault → Rose (S.faults source.old) (S.faults source.new) }
    ensures write_fault { result.status ≡ Status.WriteFault → Rose (O.faults sink.old) (O.faults sink.new) }

    ensures nothing_read { result.status ≡ Status.Usage → source.new ≡ source.old }
    ensures read_so_far { let least = first_in words.now (M.least moments.now) in result.status ≡ Status.ReadFault
        → StopsAtFault (stopped_at least) begins meets (S.left source.old) (S.left source.new) (O.written sink.old) (O.written sink.new) }
    ensures read_no_further { StopsInPiece begins (S.left source.old) (S.left source.new) }
    ensures bounded_reading { TakesAtMost 67_108_865 (S.left source.old) (S.left source.new) }

    ensures untouched { result.status ≡ Status.Usage → sink.new ≡ sink.old }
    ensures nothing_written { result.status ≡ Status.BadHeader → Appends (O.written sink.old) (O.written sink.new) [] }
    ensures phases_written { let least = first_in words.now (M.least moments.now) in result.status ≡ Status.Limit
        → IfSome (S.left source.old) (λ input. WritesLimited (stopped_at least) begins meets input (O.written sink.old) (O.written sink.new)) }
    ensures some_phases_written { let least = first_in words.now (M.least moments.now) in result.status ≡ Status.Memory
        → IfSome (S.left source.old) (λ input. OfRun (stopped_at least) meets input (Appends (O.written sink.old) (O.written sink.new))) }
    ensures prefix_written { let least = first_in words.now (M.least moments.now) in result.status ≡ Status.WriteFault
        → IfSome (S.left source.old) (λ input. WritesFront (stopped_at least) (whole_at least) meets input (O.written sink.old) (O.written sink.new)) }
    ensures given_back { result.keeper ≡ keeper }
{
    let Some(pace) = read_words(words) else {
        return Ended {
            status: Status::Usage,
            keeper,
        };
    };
    let status = run(rt, alloc, pace, source, sink, moments, gate);
    Ended { status, keeper }
}

// The run of a form of the command line.
fn run<R: Threads + Wait + Sync, S: Source, O: Sink, M: Moments + Sync, G: Gate + Sync>(
    rt: &R,
    alloc: Global,
    pace: Pace,
    source: &mut S,
    sink: &mut O,
    moments: &M,
    gate: &G,
) -> Status
    ensures done { let least = of_moment (least_of pace (M.least moments.now)) in result ≡ Status.Done
        → WritesAll (IsLegalFrom least) (S.left source.old) (O.written sink.old) (O.written sink.new) }
    ensures within { result ≡ Status.Done → IsReadWhole (S.left source.old) (S.left source.new) }
    ensures complete { ¬ Rose (S.faults source.old) (S.faults source.new) → ¬ Rose (O.faults sink.old) (O.faults sink.new)
        → (input : List ℕ) → TellsGood (S.left source.old) input → (result ≡ Status.Done) ⊎ (result ≡ Status.Memory) }
    ensures usage { result ≢ Status.Usage }
    ensures bad_header { result ≡ Status.BadHeader → IfSome (S.left source.old) (HasBadHeader begins) }
    ensures limit { result ≡ Status.Limit → IfSome (S.left source.old) (PassesLimit begins) }
    ensures read_fault { result ≡ Status.ReadFault → Rose (S.faults source.old) (S.faults source.new) }
    ensures write_fault { result ≡ Status.WriteFault → Rose (O.faults sink.old) (O.faults sink.new) }
    ensures read_so_far { let least = of_moment (least_of pace (M.least moments.now)) in result ≡ Status.ReadFault
        → StopsAtFault (stopped_at least) begins meets (S.left source.old) (S.left source.new) (O.written sink.old) (O.written sink.new) }
    ensures read_no_further { StopsInPiece begins (S.left source.old) (S.left source.new) }
    ensures bounded_reading { TakesAtMost 67_108_865 (S.left source.old) (S.left source.new) }
    ensures nothing_written { result ≡ Status.BadHeader → Appends (O.written sink.old) (O.written sink.new) [] }
    ensures phases_written { let least = of_moment (least_of pace (M.least moments.now)) in result ≡ Status.Limit
        → IfSome (S.left source.old) (λ input. WritesLimited (stopped_at least) begins meets input (O.written sink.old) (O.written sink.new)) }
    ensures some_phases_written { let least = of_moment (least_of pace (M.least moments.now)) in result ≡ Status.Memory
        → IfSome (S.left source.old) (λ input. OfRun (stopped_at least) meets input (Appends (O.written sink.old) (O.written sink.new))) }
    ensures prefix_written { let least = of_moment (least_of pace (M.least moments.now)) in result ≡ Status.WriteFault
        → IfSome (S.left source.old) (λ input. WritesFront (stopped_at least) (whole_at least) meets input (O.written sink.old) (O.written sink.new)) }
{
    let paced = Paced { pace, moments };
    let ended = phase_engine::serve(rt, alloc, NO_ROLES, &paced, gate, source, sink);
    status_of(ended)
}

// Nothing but callers runs in a phase.
const NO_ROLES: Roles = Roles {
    tickers: 0,
    rounds: 0,
};
