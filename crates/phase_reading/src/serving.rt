//! The whole run: pieces come, and phases are run and written in the order of the bytes.

ghost use Rattle.std.specs.Prelude.{◌≡◌, ◌⊎◌, ℕ, List, [], ◌+◌, ◌≤◌, ◌<◌, length, take, IfOk, OnOk, IfErr, OnErr, IfSome, Some};
ghost use Rattle.std.specs.Io.KnownBytes.{Appends, Consumes, IsAtEnd, Keeps};
ghost use Rattle.input_lines.specs.Lines.{first_line};
ghost use Rattle.input_lines.specs.Limits.{IsWithin};
ghost use Rattle.manu_edge.specs.Faults.{Rose};
ghost use Rattle.phase_reading.specs.Outputs.{OfWhole, WritesLimited};
ghost use Rattle.phase_reading.specs.Outcomes.{HasStopped, HasDone, HasBadHeader, PassesLimit, StopsAtFault, StopsInPiece, IsReadWhole, TakesAtMost, OfRun, WritesFront};

use crate::engines::Engine;
use crate::reading::Reading;
use crate::stops::Stop;
use input_lines::MAX_INPUT;
use manu_edge::{Failed, Sink, Source};
use std::alloc::Global;

/// Bytes that are asked of a source at once.
const PIECE: usize = 1 << 18;

/// Answers all that a source has left: each line is given to the engine as it ends, and each phase is
/// run and written once its meet line was read. The first event in the order of the bytes ends the
/// reading: line 1 is bad, a limit is passed, the source fails, or the end. In memory are the bytes of
/// one piece and of the line that has not ended, and what the engine keeps of one phase.
pub fn serve<E: Engine, S: Source, O: Sink>(
    alloc: Global,
    engine: &mut E,
    source: &mut S,
    sink: &mut O,
) -> Result<(), Stop>
    requires fresh { E.account engine.old [] [] [] }
    ensures done { OnOk result (HasDone (E.whole engine.new) E.begins (S.left source.old) (O.written sink.old) (O.written sink.new)) }
    ensures within { OnOk result (IsReadWhole (S.left source.old) (S.left source.new)) }
    ensures complete { ¬ Rose (S.faults source.old) (S.faults source.new) → ¬ Rose (O.faults sink.old) (O.faults sink.new)
        → (input : List ℕ) → S.left source.old ≡ Some input → IsWithin input → E.begins (first_line input) → (result ≡ Ok tt) ⊎ (result ≡ Err Stop.Memory) }

    ensures bad_header { result ≡ Err Stop.BadHeader → IfSome (S.left source.old) (HasBadHeader E.begins) }
    ensures limit { result ≡ Err Stop.Limit → IfSome (S.left source.old) (PassesLimit E.begins) }
    ensures read_fault { result ≡ Err Stop.ReadFault → Rose (S.faults source.old) (S.faults source.new) }
    ensures write_fault { result ≡ Err Stop.WriteFault → Rose (O.faults sink.old) (O.faults sink.new) }

    ensures read_so_far { result ≡ Err Stop.ReadFault
        → StopsAtFault (E.stopped engine.new) E.begins E.meets (S.left source.old) (S.left source.new) (O.written sink.old) (O.written sink.new) }
    ensures read_no_further { StopsInPiece E.begins (S.left source.old) (S.left source.new) }
    ensures bounded_reading { TakesAtMost 67_108_865 (S.left source.old) (S.left source.new) }

    ensures nothing_written { result ≡ Err Stop.BadHeader → Appends (O.written sink.old) (O.written sink.new) [] }
    ensures phases_written { result ≡ Err Stop.Limit
        → IfSome (S.left source.old) (λ input. WritesLimited (E.stopped engine.new) E.begins E.meets input (O.written sink.old) (O.written sink.new)) }
    ensures some_phases_written { result ≡ Err Stop.Memory
        → IfSome (S.left source.old) (λ input. OfRun (E.stopped engine.new) E.meets input (Appends (O.written sink.old) (O.written sink.new))) }
    ensures prefix_written { result ≡ Err Stop.WriteFault
        → IfSome (S.left source.old) (λ input. WritesFront (E.stopped engine.new) (E.whole engine.new) E.meets input (O.written sink.old) (O.written sink.new)) }
    ensures given_back { E.follows engine.old engine.new }
{
    run(alloc, engine, source, sink)
}

// The same, by one clause on the endings.
fn run<E: Engine, S: Source, O: Sink>(
    alloc: Global,
    engine: &mut E,
    source: &mut S,
    sink: &mut O,
) -> Result<(), Stop>
    requires fresh { E.account engine.old [] [] [] }
    ensures done { OnOk result (HasDone (E.whole engine.new) E.begins (S.left source.old) (O.written sink.old) (O.written sink.new)) }
    ensures within { OnOk result (IsReadWhole (S.left source.old) (S.left source.new)) }
    ensures stopped { IfErr result (λ stop. HasStopped (E.stopped engine.new) (E.whole engine.new) E.begins E.meets stop (S.left source.old) (S.left source.new) (O.written sink.old) (O.written sink.new)) }
    ensures read_fault { IfErr result (λ stop. stop ≡ Stop.ReadFault → Rose (S.faults source.old) (S.faults source.new)) }
    ensures write_fault { IfErr result (λ stop. stop ≡ Stop.WriteFault → Rose (O.faults sink.old) (O.faults sink.new)) }
    ensures in_piece { StopsInPiece E.begins (S.left source.old) (S.left source.new) }
    ensures bounded { TakesAtMost 67_108_865 (S.left source.old) (S.left source.new) }
    ensures follows { E.follows engine.old engine.new }
{
    match vec![in alloc; 0u8; PIECE] {
        Ok(mut buffer) => read_pieces(alloc, engine, source, sink, &mut buffer),
        Err(_) => Err(Stop::Memory),
    }
}

// The same, piece after piece through a buffer.
fn read_pieces<E: Engine, S: Source, O: Sink>(
    alloc: Global,
    engine: &mut E,
    source: &mut S,
    sink: &mut O,
    buffer: &mut [u8],
) -> Result<(), Stop>
    requires some { 0 < length buffer.old }
    requires small { length buffer.old ≤ PIECE }
    requires fresh { E.account engine.old [] [] [] }
    ensures done { OnOk result (HasDone (E.whole engine.new) E.begins (S.left source.old) (O.written sink.old) (O.written sink.new)) }
    ensures within { OnOk result (IsReadWhole (S.left source.old) (S.left source.new)) }
    ensures stopped { IfErr result (λ stop. HasStopped (E.stopped engine.new) (E.whole engine.new) E.begins E.meets stop (S.left source.old) (S.left source.new) (O.written sink.old) (O.written sink.new)) }
    ensures read_fault { IfErr result (λ stop. stop ≡ Stop.ReadFault → Rose (S.faults source.old) (S.faults source.new)) }
    ensures write_fault { IfErr result (λ stop. stop ≡ Stop.WriteFault → Rose (O.faults sink.old) (O.faults sink.new)) }
    ensures in_piece { StopsInPiece E.begins (S.left source.old) (S.left source.new) }
    ensures bounded { TakesAtMost 67_108_865 (S.left source.old) (S.left source.new) }
    ensures follows { E.follows engine.old engine.new }
{
    let mut reading = Reading::start(alloc);
    let mut taken = 0;
    'pieces: loop {
        let count = match read_piece(source, buffer, taken) {
            Ok(count) => count,
            Err(Failed) => return Err(Stop::ReadFault),
        };
        if count == 0 {
            return match reading.finish(engine, sink) {
                Ok(()) => Ok(()),
                Err(stop) => Err(stop),
            };
        }
        reading = match reading.take_within(engine, sink, &buffer[..count], taken) {
            Ok(next) => next,
            Err(stop) => return Err(stop),
        };
        taken += count;
    }
}

// Asks for a piece, of which at most one byte passes the limit on the input.
fn read_piece<S: Source>(source: &mut S, buffer: &mut [u8], had: usize) -> Result<usize, Failed>
    requires had { had ≤ MAX_INPUT }
    requires some { 0 < length buffer.old }
    ensures later { S.faults source.old ≤ S.faults source.new }
    ensures room { IfOk result (λ count. (count ≤ length buffer.new) × (had + count ≤ MAX_INPUT + 1)) }
    ensures bytes { IfOk result (λ count. Consumes (S.left source.old) (S.left source.new) (take count buffer.new)) }
    ensures end { IfOk result (λ count. count ≡ 0 → IsAtEnd (S.left source.new)) }
    ensures cause { OnErr result (Rose (S.faults source.old) (S.faults source.new)) }
    ensures kept { OnErr result (Keeps (S.left source.old) (S.left source.new)) }
{
    let room = buffer.len().min(MAX_INPUT + 1 - had);
    match source.read(&mut buffer[..room]) {
        Ok(count) => Ok(count),
        Err(Failed) => Err(Failed),
    }
}
