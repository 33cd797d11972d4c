//! An input behind its line 1.

ghost use Rattle.std.specs.Prelude.{◌≡◌, ℕ, ◌+◌, ◌^◌, ◌<◌, List, [], ◌∷◌, ◌++◌, Some, IfOk};
ghost use Rattle.hybrid_time.specs.Times.{of_moment};
ghost use Rattle.coarse_lists.specs.Collections.{IsInRange};
ghost use Rattle.answer_lines.specs.Lines.{text_of};
ghost use Rattle.request_lines.specs.Headers.{header_of};
ghost use Rattle.phase_run.specs.Phases.{AreFew};
ghost use Rattle.phase_reading.specs.Engines.{Takes};
ghost use Rattle.phase_engine.specs.Outputs.{meets};
ghost use Rattle.phase_engine.specs.Accounts.{IsRunning};
ghost use Rattle.phase_engine.specs.Steps.{CanHold, CanSettle, Tells, HasMet};

use crate::texts::{append, is_meet, read_line};
use answer_lines::{Answer, MeetReply};
use coarse_lists::Collection;
use manu_edge::{Gate, Moments};
use phase_channels::Channels;
use phase_lines::PhaseLines;
use phase_run::Roles;
use row_types::Memory;
use std::alloc::Global;
use std::sync::Wait;
use std::thread::Threads;

/// The channels at rest, and the lines that wait for a meet.
#[derive(Drop)]
pub(crate) struct Running {
    pub channels: Channels,
    pub lines: PhaseLines,
    /// Whether the meet behind the lines came.
    pub meet_came: bool,
}

/// What stands when the lines that waited were run, and all channels met.
#[derive(Drop)]
pub(crate) struct Settled {
    pub channels: Channels,
    pub reply: MeetReply,
    /// The number of the line behind those that were run.
    pub number: u32,
    /// The lines that answer them.
    pub text: Vec<u8>,
}

impl Running {
    /// A new collection, before line 2.
    pub fn new(alloc: Global, collection: Collection) -> Result<Running, Memory>
        requires range { IsInRange collection }
        ensures begun { IfOk result (λ running. (least : ℕ) (header : List ℕ) → header_of header ≡ Some collection
            → IsRunning least running (header ∷ []) [] (text_of 1 Answer.Created)) }
    {
        let channels = Channels::new(alloc, collection)?;
        let lines = PhaseLines::new(alloc, 2)?;
        Ok(Running {
            channels,
            lines,
            meet_came: false,
        })
    }

    /// Takes a line. Behind it `meet_came` tells whether the line is a meet.
    pub fn take(self, alloc: Global, line: &[u8]) -> Result<Running, Memory>
        requires ready { CanHold self }
        ensures taken { IfOk result (λ after. (least : ℕ) → Takes (IsRunning least self) (IsRunning least after) meets line.now after.meet_came) }
    {
        let Running {
            channels,
            mut lines,
            meet_came: _,
        } = self;
        let read = read_line(alloc, channels.collection(), line)?;
        if is_meet(&read) {
            return Ok(Running {
                channels,
                lines,
                meet_came: true,
            });
        }
        lines.add(read)?;
        Ok(Running {
            channels,
            lines,
            meet_came: false,
        })
    }

    /// Runs the lines that wait, and brings all channels to rest. The moment of that is read only now.
    pub fn settle<R: Threads + Wait + Sync, M: Moments + Sync, G: Gate + Sync>(
        self,
        rt: &R,
        alloc: Global,
        roles: Roles,
        moments: &M,
        gate: &G,
    ) -> Result<Settled, Memory>
        requires ready { CanSettle self }
        requires roles { AreFew roles }
        ensures { IfOk result (Tells (of_moment (M.least moments.now)) self) }
    {
        let Running {
            channels,
            lines,
            meet_came: _,
        } = self;
        let number = lines.next();
        let mut text = Vec::new(alloc);
        let ran = channels.run(rt, alloc, lines, roles, moments, gate, &mut text)?;
        let (channels, reply) = ran.meet(alloc, moments.now())?;
        Ok(Settled {
            channels,
            reply,
            number,
            text,
        })
    }
}

impl Settled {
    /// Behind the line of the meet: what goes on, and the text of all lines.
    pub fn meet(self, alloc: Global) -> Result<(Running, Vec<u8>), Memory>
        requires room { self.number + 1 < 2 ^ 32 }
        ensures { IfOk result (λ met. HasMet self met.0 met.1.items) }
    {
        let Settled {
            channels,
            reply,
            number,
            mut text,
        } = self;
        append(alloc, number, &Answer::Met(reply), &mut text)?;
        let lines = PhaseLines::new(alloc, number + 1)?;
        let running = Running {
            channels,
            lines,
            meet_came: false,
        };
        Ok((running, text))
    }

    /// The text of all lines and of the end.
    pub fn end(self, alloc: Global) -> Result<Vec<u8>, Memory>
        ensures { IfOk result (λ text. text.items ≡ self.text.items ++ text_of self.number (Answer.End self.reply)) }
    {
        let mut text = self.text;
        append(alloc, self.number, &Answer::End(self.reply), &mut text)?;
        Ok(text)
    }
}
