//! The calls of an engine that answer, each with its text written.

ghost use Rattle.std.specs.Prelude.{◌≡◌, ◌≤◌, OnOk, IfErr};
ghost use Rattle.manu_edge.specs.Faults.{Rose};
ghost use Rattle.phase_reading.specs.Engines.{IsFresh, CanRun, CanEnd, AnswersFirst, AnswersPhase, AnswersEnd};
ghost use Rattle.phase_reading.specs.Steps.{Writes, Fails};

use crate::engines::{BeginError, Engine, NoMemory};
use crate::stops::Stop;
use crate::writing::write_all;
use manu_edge::{Failed, Sink};

// Line 1.
pub fn begin_line<E: Engine, O: Sink>(engine: &mut E, sink: &mut O, line: &[u8]) -> Result<(), Stop>
    requires fresh { IsFresh (E.account engine.old) }
    ensures follows { E.follows engine.old engine.new }
    ensures later { O.faults sink.old ≤ O.faults sink.new }
    ensures rose { IfErr result (λ stop. stop ≡ Stop.WriteFault → Rose (O.faults sink.old) (O.faults sink.new)) }
    ensures ok { OnOk result (Writes (AnswersFirst (E.account engine.old) (E.account engine.new) E.begins line.now) (O.written sink.old) (O.written sink.new)) }
    ensures err { IfErr result (λ stop. Fails (AnswersFirst (E.account engine.old) (E.account engine.new) E.begins line.now) (¬ E.begins line.now) stop (O.written sink.old) (O.written sink.new)) }
{
    let text = match engine.begin(line) {
        Ok(text) => text,
        Err(BeginError::Bad) => return Err(Stop::BadHeader),
        Err(BeginError::Memory) => return Err(Stop::Memory),
    };
    match write_all(sink, &text) {
        Ok(()) => Ok(()),
        Err(Failed) => Err(Stop::WriteFault),
    }
}

// The phase that waits.
pub fn run_phase<E: Engine, O: Sink>(engine: &mut E, sink: &mut O) -> Result<(), Stop>
    requires ready { CanRun (E.account engine.old) E.meets }
    ensures follows { E.follows engine.old engine.new }
    ensures later { O.faults sink.old ≤ O.faults sink.new }
    ensures rose { IfErr result (λ stop. stop ≡ Stop.WriteFault → Rose (O.faults sink.old) (O.faults sink.new)) }
    ensures ok { OnOk result (Writes (AnswersPhase (E.account engine.old) (E.account engine.new)) (O.written sink.old) (O.written sink.new)) }
    ensures err { IfErr result (λ stop. Fails (AnswersPhase (E.account engine.old) (E.account engine.new)) ⊥ stop (O.written sink.old) (O.written sink.new)) }
{
    let text = match engine.run() {
        Ok(text) => text,
        Err(NoMemory) => return Err(Stop::Memory),
    };
    match write_all(sink, &text) {
        Ok(()) => Ok(()),
        Err(Failed) => Err(Stop::WriteFault),
    }
}

// The lines that wait, and the end.
pub fn end_input<E: Engine, O: Sink>(engine: &mut E, sink: &mut O) -> Result<(), Stop>
    requires ready { CanEnd (E.account engine.old) E.meets }
    ensures follows { E.follows engine.old engine.new }
    ensures later { O.faults sink.old ≤ O.faults sink.new }
    ensures rose { IfErr result (λ stop. stop ≡ Stop.WriteFault → Rose (O.faults sink.old) (O.faults sink.new)) }
    ensures ok { OnOk result (Writes (AnswersEnd (E.account engine.old) (E.whole engine.new)) (O.written sink.old) (O.written sink.new)) }
    ensures err { IfErr result (λ stop. Fails (AnswersEnd (E.account engine.old) (E.whole engine.new)) ⊥ stop (O.written sink.old) (O.written sink.new)) }
{
    let text = match engine.end() {
        Ok(text) => text,
        Err(NoMemory) => return Err(Stop::Memory),
    };
    match write_all(sink, &text) {
        Ok(()) => Ok(()),
        Err(Failed) => Err(Stop::WriteFault),
    }
}
