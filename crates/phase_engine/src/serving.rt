//! The reader over the engine.

ghost use Rattle.std.specs.Prelude.{◌≡◌, ◌⊎◌, ℕ, List, [], OnOk, IfOk, IfSome, Some};
ghost use Rattle.std.specs.Io.KnownBytes.{Appends};
ghost use Rattle.hybrid_time.specs.Times.{of_moment};
ghost use Rattle.input_lines.specs.Lines.{first_line};
ghost use Rattle.input_lines.specs.Limits.{IsWithin};
ghost use Rattle.manu_edge.specs.Faults.{Rose};
ghost use Rattle.phase_run.specs.Phases.{AreFew};
ghost use Rattle.phase_reading.specs.Outputs.{WritesLimited};
ghost use Rattle.phase_reading.specs.Outcomes.{HasDone, HasBadHeader, PassesLimit, StopsAtFault, StopsInPiece, IsReadWhole, TakesAtMost, OfRun, WritesFront};
ghost use Rattle.phase_engine.specs.Outputs.{begins, meets, stopped_at, whole_at};
ghost use Rattle.phase_engine.specs.Steps.{CanSettle, Tells};

use crate::engine::PhaseEngine;
use crate::running::{Running, Settled};
use manu_edge::{Gate, Moments, Sink, Source};
use phase_reading::Stop;
use phase_run::Roles;
use row_types::Memory;
use std::alloc::Global;
use std::sync::Wait;
use std::thread::Threads;

/// Answers all that a source has left, phase after phase: the callers of a phase run on threads of `rt`
/// beside each other and beside the work of `roles`, read their moments from `moments`, in milliseconds,
/// and pass the gate. Each phase is run and written once its meet line was read; the first event in the
/// order of the bytes, or want of memory, ends the reading.
pub fn serve<R: Threads + Wait + Sync, M: Moments + Sync, G: Gate + Sync, S: Source, O: Sink>(
    rt: &R,
    alloc: Global,
    roles: Roles,
    moments: &M,
    gate: &G,
    source: &mut S,
    sink: &mut O,
) -> Result<(), Stop>
    requires roles { AreFew roles }
    ensures done { OnOk result (HasDone (whole_at (of_moment (M.least moments.now))) begins (S.left source.old) (O.written sink.old) (O.written sink.new)) }
    ensures within { OnOk result (IsReadWhole (S.left source.old) (S.left source.new)) }
    ensures complete { ¬ Rose (S.faults source.old) (S.faults source.new) → ¬ Rose (O.faults sink.old) (O.faults sink.new)
        → (input : List ℕ) → S.left source.old ≡ Some input → IsWithin input → begins (first_line input) → (result ≡ Ok tt) ⊎ (result ≡ Err Stop.Memory) }

    ensures bad_header { result ≡ Err Stop.BadHeader → IfSome (S.left source.old) (HasBadHeader begins) }
    ensures limit { result ≡ Err Stop.Limit → IfSome (S.left source.old) (PassesLimit begins) }
    ensures read_fault { result ≡ Err Stop.ReadFault → Rose (S.faults source.old) (S.faults source.new) }
    ensures write_fault { result ≡ Err Stop.WriteFault → Rose (O.faults sink.old) (O.faults sink.new) }

    ensures read_so_far { result ≡ Err Stop.ReadFault
        → StopsAtFault (stopped_at (of_moment (M.least moments.now))) begins meets (S.left source.old) (S.left source.new) (O.written sink.old) (O.written sink.new) }
    ensures read_no_further { StopsInPiece begins (S.left source.old) (S.left source.new) }
    ensures bounded_reading { TakesAtMost 67_108_865 (S.left source.old) (S.left source.new) }

    ensures nothing_written { result ≡ Err Stop.BadHeader → Appends (O.written sink.old) (O.written sink.new) [] }
    ensures phases_written { result ≡ Err Stop.Limit
        → IfSome (S.left source.old) (λ input. WritesLimited (stopped_at (of_moment (M.least moments.now))) begins meets input (O.written sink.old) (O.written sink.new)) }
    ensures some_phases_written { result ≡ Err Stop.Memory
        → IfSome (S.left source.old) (λ input. OfRun (stopped_at (of_moment (M.least moments.now))) meets input (Appends (O.written sink.old) (O.written sink.new))) }
    ensures prefix_written { let least = of_moment (M.least moments.now) in result ≡ Err Stop.WriteFault
        → IfSome (S.left source.old) (λ input. WritesFront (stopped_at least) (whole_at least) meets input (O.written sink.old) (O.written sink.new)) }
{
    let settle = |running: Running| -> Result<Settled, Memory>
        requires ready { CanSettle running }
        requires roles { AreFew roles }
        ensures { IfOk result (Tells (of_moment (M.least moments.entry.now)) running) }
    { running.settle(rt, alloc, roles, moments, gate) };
    let mut engine = PhaseEngine::new(alloc, moments, settle);
    phase_reading::serve(alloc, &mut engine, source, sink)
}
