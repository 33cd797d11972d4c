//! The lines of an input while they come.

ghost use Rattle.std.specs.Prelude.{◌≡◌, ◌⊎◌, ℕ, List, [], ◌∷◌, ◌++◌, ◌+◌, ◌≤◌, ◌<◌, length, Option, IfOk, OnOk, IfErr, Some};
ghost use Rattle.std.specs.Io.KnownBytes.{Appends};
ghost use Rattle.input_lines.specs.Lines.{first_line};
ghost use Rattle.manu_edge.specs.Faults.{Rose};
ghost use Rattle.phase_reading.specs.Phases.{all_lines, ended_lines};
ghost use Rattle.phase_reading.specs.Outputs.{OfWhole};
ghost use Rattle.phase_reading.specs.Steps.{IsOpen, IsSoFar, Halts, Stops, Ends};

use crate::calls::{begin_line, end_input, run_phase};
use crate::engines::{Engine, NoMemory};
use crate::finding::cut_ended;
use crate::stops::Stop;
use input_lines::{MAX_INPUT, MAX_LINE, MAX_LINES};
use manu_edge::Sink;
use std::alloc::Global;

// The bytes of the line that has not ended, and how many lines have.
#[derive(Debug, Drop)]
pub struct Reading {
    last: Vec<u8>,
    lines: u32,
}

impl Reading {
    // Before the first byte.
    pub fn start(alloc: Global) -> Reading
        ensures last { result.last.items ≡ [] }
        ensures lines { result.lines ≡ 0 }
    {
        Reading {
            last: Vec::new(alloc),
            lines: 0,
        }
    }

    // Takes a piece in, line after line. Each phase whose meet line ends in it is run and written
    // before the bytes behind are looked at.
    pub fn take<E: Engine, O: Sink>(
        self,
        engine: &mut E,
        sink: &mut O,
        piece: &[u8],
    ) -> Result<Reading, Stop>
        requires known { (before : Option (List ℕ)) × (all : List ℕ)
            × IsSoFar (E.account engine.old) E.begins E.meets before (O.written sink.old) all self.last.items self.lines }
        ensures follows { E.follows engine.old engine.new }
        ensures later { O.faults sink.old ≤ O.faults sink.new }
        ensures rose { IfErr result (λ stop. stop ≡ Stop.WriteFault → Rose (O.faults sink.old) (O.faults sink.new)) }
        ensures next { IfOk result (λ after. (before : Option (List ℕ)) (all : List ℕ)
            → IsSoFar (E.account engine.old) E.begins E.meets before (O.written sink.old) all self.last.items self.lines
            → IsSoFar (E.account engine.new) E.begins E.meets before (O.written sink.new) (all ++ piece.now) after.last.items after.lines) }
        ensures ended { IfErr result (λ stop. (before : Option (List ℕ)) (all : List ℕ) → length all + length piece.now ≤ MAX_INPUT
            → IsSoFar (E.account engine.old) E.begins E.meets before (O.written sink.old) all self.last.items self.lines
            → Stops (E.stopped engine.new) E.begins E.meets stop (all ++ piece.now) before (O.written sink.new)) }
    {
        let mut reading = self;
        let mut rest = piece;
        'lines: while let Some((text, after)) = cut_ended(rest) {
            reading = match reading.end_line(engine, sink, text) {
                Ok(next) => next,
                Err(stop) => return Err(stop),
            };
            rest = after;
        }
        if rest.is_empty() {
            return Ok(reading);
        }
        match reading.extend(rest) {
            Ok(next) => Ok(next),
            Err(stop) => Err(stop),
        }
    }

    // The same behind `taken` bytes; `Limit` where the piece has a byte more than an input may have.
    pub fn take_within<E: Engine, O: Sink>(
        self,
        engine: &mut E,
        sink: &mut O,
        piece: &[u8],
        taken: usize,
    ) -> Result<Reading, Stop>
        requires had { taken ≤ MAX_INPUT }
        requires known { (before : Option (List ℕ)) × (all : List ℕ)
            × IsSoFar (E.account engine.old) E.begins E.meets before (O.written sink.old) all self.last.items self.lines }
        ensures follows { E.follows engine.old engine.new }
        ensures later { O.faults sink.old ≤ O.faults sink.new }
        ensures rose { IfErr result (λ stop. stop ≡ Stop.WriteFault → Rose (O.faults sink.old) (O.faults sink.new)) }
        ensures size { IfOk result (λ after. taken + length piece.now ≤ MAX_INPUT) }
        ensures next { IfOk result (λ after. (before : Option (List ℕ)) (all : List ℕ)
            → IsSoFar (E.account engine.old) E.begins E.meets before (O.written sink.old) all self.last.items self.lines
            → IsSoFar (E.account engine.new) E.begins E.meets before (O.written sink.new) (all ++ piece.now) after.last.items after.lines) }
        ensures ended { IfErr result (λ stop. (before : Option (List ℕ)) (all : List ℕ) → length all ≡ taken
            → IsSoFar (E.account engine.old) E.begins E.meets before (O.written sink.old) all self.last.items self.lines
            → Stops (E.stopped engine.new) E.begins E.meets stop (all ++ piece.now) before (O.written sink.new)) }
    {
        let room = MAX_INPUT - taken;
        if piece.len() <= room {
            return self.take(engine, sink, piece);
        }
        let _whole = match self.take(engine, sink, &piece[..room]) {
            Ok(next) => next,
            Err(stop) => return Err(stop),
        };
        Err(Stop::Limit)
    }

    // The input has come to its end: its last lines are answered, and the end.
    pub fn finish<E: Engine, O: Sink>(self, engine: &mut E, sink: &mut O) -> Result<(), Stop>
        requires known { (before : Option (List ℕ)) × (all : List ℕ)
            × IsSoFar (E.account engine.old) E.begins E.meets before (O.written sink.old) all self.last.items self.lines }
        ensures follows { E.follows engine.old engine.new }
        ensures later { O.faults sink.old ≤ O.faults sink.new }
        ensures rose { IfErr result (λ stop. stop ≡ Stop.WriteFault → Rose (O.faults sink.old) (O.faults sink.new)) }
        ensures done { OnOk result ((before : Option (List ℕ)) (all : List ℕ)
            → IsSoFar (E.account engine.old) E.begins E.meets before (O.written sink.old) all self.last.items self.lines
            → E.begins (first_line all) × OfWhole (E.whole engine.new) all (Appends before (O.written sink.new))) }
        ensures ended { IfErr result (λ stop. (before : Option (List ℕ)) (all : List ℕ)
            → IsSoFar (E.account engine.old) E.begins E.meets before (O.written sink.old) all self.last.items self.lines
            → Ends (E.stopped engine.new) (E.whole engine.new) E.begins E.meets stop all before (O.written sink.new)) }
    {
        match self.close_last(engine, sink) {
            Ok(()) => {}
            Err(stop) => return Err(stop),
        }
        end_input(engine, sink)
    }

    // The last line ends with the input, if something stands in it or it is line 1.
    fn close_last<E: Engine, O: Sink>(self, engine: &mut E, sink: &mut O) -> Result<(), Stop>
        requires known { (before : Option (List ℕ)) × (all : List ℕ)
            × IsSoFar (E.account engine.old) E.begins E.meets before (O.written sink.old) all self.last.items self.lines }
        ensures follows { E.follows engine.old engine.new }
        ensures later { O.faults sink.old ≤ O.faults sink.new }
        ensures rose { IfErr result (λ stop. stop ≡ Stop.WriteFault → Rose (O.faults sink.old) (O.faults sink.new)) }
        ensures next { OnOk result ((before : Option (List ℕ)) (all : List ℕ)
            → IsSoFar (E.account engine.old) E.begins E.meets before (O.written sink.old) all self.last.items self.lines
            → (closed : List ℕ) × (lines : ℕ) × (all_lines all ≡ ended_lines closed) × (0 < lines) × IsSoFar (E.account engine.new) E.begins E.meets before (O.written sink.new) closed [] lines) }
        ensures ended { IfErr result (λ stop. (before : Option (List ℕ)) (all : List ℕ)
            → IsSoFar (E.account engine.old) E.begins E.meets before (O.written sink.old) all self.last.items self.lines
            → Halts (E.stopped engine.new) E.begins E.meets stop (all_lines all) before (O.written sink.new)) }
    {
        if self.lines > 0 && self.last.is_empty() {
            return Ok(());
        }
        answer_line(engine, sink, &self.last, self.lines)
    }

    // The line that has not ended goes on with these bytes, and ends.
    fn end_line<E: Engine, O: Sink>(
        self,
        engine: &mut E,
        sink: &mut O,
        tail: &[u8],
    ) -> Result<Reading, Stop>
        requires open { IsOpen tail.now }
        requires known { (before : Option (List ℕ)) × (all : List ℕ)
            × IsSoFar (E.account engine.old) E.begins E.meets before (O.written sink.old) all self.last.items self.lines }
        ensures follows { E.follows engine.old engine.new }
        ensures later { O.faults sink.old ≤ O.faults sink.new }
        ensures rose { IfErr result (λ stop. stop ≡ Stop.WriteFault → Rose (O.faults sink.old) (O.faults sink.new)) }
        ensures next { IfOk result (λ after. (before : Option (List ℕ)) (all : List ℕ)
            → IsSoFar (E.account engine.old) E.begins E.meets before (O.written sink.old) all self.last.items self.lines
            → IsSoFar (E.account engine.new) E.begins E.meets before (O.written sink.new) ((all ++ tail.now) ++ 10 ∷ []) after.last.items after.lines) }
        ensures ended { IfErr result (λ stop. (before : Option (List ℕ)) (all : List ℕ) → length all + (length tail.now + 1) ≤ MAX_INPUT
            → IsSoFar (E.account engine.old) E.begins E.meets before (O.written sink.old) all self.last.items self.lines
            → Stops (E.stopped engine.new) E.begins E.meets stop ((all ++ tail.now) ++ 10 ∷ []) before (O.written sink.new)) }
    {
        if self.last.is_empty() {
            return self.end_whole(engine, sink, tail);
        }
        let longer = match self.extend(tail) {
            Ok(longer) => longer,
            Err(stop) => return Err(stop),
        };
        longer.close(engine, sink)
    }

    // A line that stands whole in a piece ends: none of its bytes is copied.
    fn end_whole<E: Engine, O: Sink>(
        self,
        engine: &mut E,
        sink: &mut O,
        line: &[u8],
    ) -> Result<Reading, Stop>
        requires open { IsOpen line.now }
        requires none { self.last.items ≡ [] }
        requires known { (before : Option (List ℕ)) × (all : List ℕ)
            × IsSoFar (E.account engine.old) E.begins E.meets before (O.written sink.old) all [] self.lines }
        ensures follows { E.follows engine.old engine.new }
        ensures later { O.faults sink.old ≤ O.faults sink.new }
        ensures rose { IfErr result (λ stop. stop ≡ Stop.WriteFault → Rose (O.faults sink.old) (O.faults sink.new)) }
        ensures next { IfOk result (λ after. (before : Option (List ℕ)) (all : List ℕ)
            → IsSoFar (E.account engine.old) E.begins E.meets before (O.written sink.old) all [] self.lines
            → IsSoFar (E.account engine.new) E.begins E.meets before (O.written sink.new) ((all ++ line.now) ++ 10 ∷ []) after.last.items after.lines) }
        ensures ended { IfErr result (λ stop. (before : Option (List ℕ)) (all : List ℕ) → length all + (length line.now + 1) ≤ MAX_INPUT
            → IsSoFar (E.account engine.old) E.begins E.meets before (O.written sink.old) all [] self.lines
            → Stops (E.stopped engine.new) E.begins E.meets stop ((all ++ line.now) ++ 10 ∷ []) before (O.written sink.new)) }
    {
        let Reading { last, lines } = self;
        match check_limits(lines, 0, line) {
            Ok(()) => {}
            Err(stop) => return Err(stop),
        }
        match answer_line(engine, sink, line, lines) {
            Ok(()) => {}
            Err(stop) => return Err(stop),
        }
        Ok(Reading {
            last,
            lines: lines + 1,
        })
    }

    // The line that has not ended ends.
    fn close<E: Engine, O: Sink>(self, engine: &mut E, sink: &mut O) -> Result<Reading, Stop>
        requires room { self.lines < MAX_LINES }
        requires known { (before : Option (List ℕ)) × (all : List ℕ)
            × IsSoFar (E.account engine.old) E.begins E.meets before (O.written sink.old) all self.last.items self.lines }
        ensures follows { E.follows engine.old engine.new }
        ensures later { O.faults sink.old ≤ O.faults sink.new }
        ensures rose { IfErr result (λ stop. stop ≡ Stop.WriteFault → Rose (O.faults sink.old) (O.faults sink.new)) }
        ensures next { IfOk result (λ after. (before : Option (List ℕ)) (all : List ℕ)
            → IsSoFar (E.account engine.old) E.begins E.meets before (O.written sink.old) all self.last.items self.lines
            → IsSoFar (E.account engine.new) E.begins E.meets before (O.written sink.new) (all ++ 10 ∷ []) after.last.items after.lines) }
        ensures ended { IfErr result (λ stop. (before : Option (List ℕ)) (all : List ℕ)
            → IsSoFar (E.account engine.old) E.begins E.meets before (O.written sink.old) all self.last.items self.lines
            → Halts (E.stopped engine.new) E.begins E.meets stop (ended_lines (all ++ 10 ∷ [])) before (O.written sink.new)) }
    {
        let Reading { mut last, lines } = self;
        answer_line(engine, sink, &last, lines)?;
        last.clear();
        Ok(Reading {
            last,
            lines: lines + 1,
        })
    }

    // The line that has not ended goes on with these bytes; `Limit` where they, or what comes behind
    // them if there are none, pass a limit.
    fn extend(self, tail: &[u8]) -> Result<Reading, Stop>
        ensures last { IfOk result (λ after. after.last.items ≡ self.last.items ++ tail.now) }
        ensures lines { IfOk result (λ after. (after.lines ≡ self.lines) × (self.lines < MAX_LINES)) }
        ensures size { IfOk result (λ after. length self.last.items + length tail.now ≤ MAX_LINE) }
        ensures err { IfErr result (λ stop. (stop ≡ Stop.Memory) ⊎ ((stop ≡ Stop.Limit)
            × ((MAX_LINES ≤ self.lines) ⊎ ((self.lines < MAX_LINES) × (MAX_LINE < length self.last.items + length tail.now))))) }
    {
        let Reading { mut last, lines } = self;
        check_limits(lines, last.len(), tail)?;
        match last.extend_from_slice(tail) {
            Ok(()) => Ok(Reading { last, lines }),
            Err(_) => Err(Stop::Memory),
        }
    }
}

// `Limit` where a line of `had` bytes, behind so many lines that ended, may not go on with these.
fn check_limits(lines: u32, had: usize, tail: &[u8]) -> Result<(), Stop>
    ensures ok { OnOk result ((lines < MAX_LINES) × (had + length tail.now ≤ MAX_LINE)) }
    ensures err { IfErr result (λ stop. (stop ≡ Stop.Limit) × ((MAX_LINES ≤ lines) ⊎ ((lines < MAX_LINES) × (MAX_LINE < had + length tail.now)))) }
{
    if lines >= MAX_LINES {
        return Err(Stop::Limit);
    }
    let most = MAX_LINE as usize;
    if tail.len() > most || had > most - tail.len() {
        return Err(Stop::Limit);
    }
    Ok(())
}

// A line has ended behind so many others: line 1 is answered, and a meet runs its phase.
fn answer_line<E: Engine, O: Sink>(
    engine: &mut E,
    sink: &mut O,
    line: &[u8],
    lines: u32,
) -> Result<(), Stop>
    requires room { lines < MAX_LINES }
    requires known { (before : Option (List ℕ)) × (all : List ℕ)
        × IsSoFar (E.account engine.old) E.begins E.meets before (O.written sink.old) all line.now lines }
    ensures follows { E.follows engine.old engine.new }
    ensures later { O.faults sink.old ≤ O.faults sink.new }
    ensures rose { IfErr result (λ stop. stop ≡ Stop.WriteFault → Rose (O.faults sink.old) (O.faults sink.new)) }
    ensures next { OnOk result ((before : Option (List ℕ)) (all : List ℕ)
        → IsSoFar (E.account engine.old) E.begins E.meets before (O.written sink.old) all line.now lines
        → IsSoFar (E.account engine.new) E.begins E.meets before (O.written sink.new) (all ++ 10 ∷ []) [] (lines + 1)) }
    ensures ended { IfErr result (λ stop. (before : Option (List ℕ)) (all : List ℕ)
        → IsSoFar (E.account engine.old) E.begins E.meets before (O.written sink.old) all line.now lines
        → Halts (E.stopped engine.new) E.begins E.meets stop (ended_lines (all ++ 10 ∷ [])) before (O.written sink.new)) }
{
    if lines == 0 {
        return begin_line(engine, sink, line);
    }
    let meet = match engine.take(line) {
        Ok(meet) => meet,
        Err(NoMemory) => return Err(Stop::Memory),
    };
    if meet {
        return run_phase(engine, sink);
    }
    Ok(())
}
