//! The real outside: standard input, standard output and the system's clock. They tell nothing of
//! what passes.

ghost use Rattle.std.specs.Prelude.{◌≡◌};
ghost use Rattle.std.specs.declared.option.Option.TheVariants.{None};

use crate::answers::{counted, moment_of, read_answer, write_answer};
use crate::clocks::Moments;
use crate::faults::Failed;
use crate::sinks::Sink;
use crate::sources::Source;
use std::io::{Read, Stdin, Stdout, Write};
use std::time::{Clock, Duration, SystemTime, UNIX_EPOCH};

/// Standard input.
#[derive(Drop)]
pub struct StandardInput {
    input: Stdin,
    faults: u64,
}

impl StandardInput {
    /// The bytes that the program is given.
    pub fn new(input: Stdin) -> StandardInput
        ensures { ⟦<StandardInput as Source>⟧.faults result ≡ 0 }
    {
        StandardInput { input, faults: 0 }
    }
}

impl Source for StandardInput {
    ghost left = { λ _. None };

    ghost faults = { λ input. input.faults };

    fn read(&mut self, into: &mut [u8]) -> Result<usize, Failed> {
        let answer = read_answer(Read::read(&mut self.input, into));
        self.faults = counted(self.faults, &answer);
        answer
    }
}

/// Standard output.
#[derive(Drop)]
pub struct StandardOutput {
    output: Stdout,
    faults: u64,
}

impl StandardOutput {
    /// The bytes that the program gives.
    pub fn new(output: Stdout) -> StandardOutput
        ensures { ⟦<StandardOutput as Sink>⟧.faults result ≡ 0 }
    {
        StandardOutput { output, faults: 0 }
    }
}

impl Sink for StandardOutput {
    ghost written = { λ _. None };

    ghost faults = { λ output. output.faults };

    fn write(&mut self, piece: &[u8]) -> Result<usize, Failed> {
        let answer = write_answer(Write::write(&mut self.output, piece), piece.len());
        self.faults = counted(self.faults, &answer);
        answer
    }
}

/// The system's clock, in milliseconds since 1970.
#[derive(Drop)]
pub struct SystemClock<R> {
    clock: R,
}

impl<R> SystemClock<R> {
    /// The clock of a runtime.
    pub fn new(clock: R) -> SystemClock<R>
        ensures { result.clock ≡ clock }
    {
        SystemClock { clock }
    }
}

impl<R: Clock> Moments for SystemClock<R> {
    ghost least = { λ _. 0 };

    /// The moment, or 0 where the clock can't be read.
    fn now(&self) -> u64 {
        moment_of(since_1970(&self.clock))
    }
}

fn since_1970(clock: &impl Clock) -> Option<Duration> {
    let time = SystemTime::now(clock).ok()?;
    time.duration_since(UNIX_EPOCH).ok()
}
