//! The engine.

ghost use Rattle.std.specs.Prelude.{◌≡◌, []};
ghost use Rattle.std.proofs.Common.{refl, ◌∙◌};
ghost use Rattle.hybrid_time.specs.Times.{of_moment};
ghost use Rattle.phase_engine.specs.Outputs.{begins, meets, stopped_at, whole_at};
ghost use Rattle.phase_engine.specs.Steps.{MaySettle, Settles, IsKept};
ghost use Rattle.phase_engine.specs.Standing.{account_stands, stays_stopped};

use crate::running::{Running, Settled};
use crate::texts::{append, read_header};
use answer_lines::Answer;
use manu_edge::Moments;
use phase_reading::{BeginError, Engine, NoMemory};
use row_types::Memory;
use std::alloc::Global;

/// Answers an input, phase after phase.
#[derive(Drop)]
pub(crate) struct PhaseEngine<'a, M: Moments, F: Fn(Running) -> Result<Settled, Memory> + Drop> {
    alloc: Global,
    /// What `settle` reads its moments from.
    moments: &'a M,
    /// Runs the lines that wait, and brings all channels to rest.
    settle: F,
    /// What line 1 made, once it has come.
    running: Option<Running>,
}

impl<'a, M: Moments, F: Fn(Running) -> Result<Settled, Memory> + Drop> PhaseEngine<'a, M, F> {
    /// Before line 1.
    pub fn new(alloc: Global, moments: &'a M, settle: F) -> PhaseEngine<'a, M, F>
        requires may { MaySettle (F.pre settle) }
        requires does { Settles (of_moment (M.least moments.now)) (F.post settle) }
        ensures account { ⟦<PhaseEngine<'a, M, F> as Engine>⟧.account result [] [] [] }
        ensures moments { result.moments.now ≡ moments.now }
    {
        PhaseEngine {
            alloc,
            moments,
            settle,
            running: None,
        }
    }
}

impl<M: Moments, F: Fn(Running) -> Result<Settled, Memory> + Drop> Engine
    for PhaseEngine<'_, M, F> {
    ghost account = { λ engine. IsKept (of_moment (M.least engine.moments.now)) (F.pre engine.settle) (F.post engine.settle) engine.running };

    ghost stopped = { λ engine. stopped_at (of_moment (M.least engine.moments.now)) };

    ghost whole = { λ engine. whole_at (of_moment (M.least engine.moments.now)) };

    ghost begins = { begins };

    ghost meets = { meets };

    // the moments are never others
    ghost follows = { λ first second. second.moments ≡ first.moments };

    ghost stands = { λ engine done waiting output told. account_stands (of_moment (M.least engine.moments.now)) engine.running done waiting output told.account };

    ghost persists = { λ first second done output same told. stays_stopped (λ moments. of_moment (M.least moments.now)) first.moments second.moments done output same told };

    ghost stays = { λ engine. refl };

    ghost goes_on = { λ first second third before behind. behind ∙ before };

    fn begin(&mut self, line: &[u8]) -> Result<Vec<u8>, BeginError> {
        let collection = read_header(self.alloc, line)?;
        let mut text = Vec::new(self.alloc);
        let Ok(running) = Running::new(self.alloc, collection) else {
            return Err(BeginError::Memory);
        };
        let Ok(()) = append(self.alloc, 1, &Answer::Created, &mut text) else {
            return Err(BeginError::Memory);
        };
        self.running = Some(running);
        Ok(text)
    }

    fn take(&mut self, line: &[u8]) -> Result<bool, NoMemory> {
        let Some(running) = self.running.take() else {
            return Err(NoMemory);
        };
        let Ok(running) = running.take(self.alloc, line) else {
            return Err(NoMemory);
        };
        let meet = running.meet_came;
        self.running = Some(running);
        Ok(meet)
    }

    fn run(&mut self) -> Result<Vec<u8>, NoMemory> {
        let Some(running) = self.running.take() else {
            return Err(NoMemory);
        };
        let Ok(settled) = (self.settle)(running) else {
            return Err(NoMemory);
        };
        let Ok((running, text)) = settled.meet(self.alloc) else {
            return Err(NoMemory);
        };
        self.running = Some(running);
        Ok(text)
    }

    fn end(&mut self) -> Result<Vec<u8>, NoMemory> {
        let Some(running) = self.running.take() else {
            return Err(NoMemory);
        };
        let Ok(settled) = (self.settle)(running) else {
            return Err(NoMemory);
        };
        match settled.end(self.alloc) {
            Ok(text) => Ok(text),
            Err(Memory) => Err(NoMemory),
        }
    }
}
