//! The engine that says each line again.

ghost use Rattle.std.specs.Prelude.{◌≡◌, ℕ, ◌≤◌, Bool, List, [], ◌∷◌, ◌++◌, true, false, IfOk, OnOk, OnErr, Err};
ghost use Rattle.std.proofs.Math.Nat.{le_refl, le_trans};
ghost use Rattle.phase_reading.specs.Phases.{joined};
ghost use Rattle.phase_reading.specs.Engines.{AnswersFirst, Takes, AnswersPhase, AnswersEnd};
ghost use Rattle.phase_echo.specs.Echoes.{is_m, IsC, IsEcho, IsWholeEcho, IsEchoing};

use phase_reading::{BeginError, Engine, NoMemory};
use std::alloc::Global;
use std::mem;

/// Says each line again: line 1, which must be `c`, at once, the lines of a phase once its meet line
/// `m` came, and a dot at the end.
#[derive(Debug, Drop)]
pub struct Echo {
    alloc: Global,
    waiting: Vec<u8>,
    phases: u64,
}

impl Echo {
    /// Before line 1.
    pub fn new(alloc: Global) -> Echo
        ensures account { ⟦<Echo as Engine>⟧.account result [] [] [] }
        ensures phases { result.phases ≡ 0 }
    {
        Echo {
            alloc,
            waiting: Vec::new(alloc),
            phases: 0,
        }
    }

    /// How many phases were run.
    pub fn phases(&self) -> u64
        ensures { result ≡ self.now.phases }
    {
        self.phases
    }
}

impl Engine for Echo {
    ghost account = { λ echo done waiting output. IsEchoing echo.waiting.items done waiting output };

    ghost stopped = { λ echo. IsEcho };

    ghost whole = { λ echo. IsWholeEcho };

    ghost begins = { IsC };

    ghost meets = { λ header line. is_m line };

    // the count of phases never falls
    ghost follows = { λ first second. first.phases ≤ second.phases };

    ghost stands = { λ echo done waiting output told. told.said };

    ghost persists = { λ first second done output follows told. told };

    ghost stays = { λ echo. le_refl echo.phases };

    ghost goes_on = { λ first second third before behind. le_trans before behind };

    fn begin(&mut self, line: &[u8]) -> Result<Vec<u8>, BeginError>
        ensures begun { IfOk result (λ text. AnswersFirst (IsEchoing self.old.waiting.items) (IsEchoing self.new.waiting.items) IsC line.now text.items) }
        ensures bad { OnErr result (result ≡ Err BeginError.Bad → ¬ IsC line.now) }
        ensures follows { self.old.phases ≤ self.new.phases }
    {
        if !is_c(line) {
            return Err(BeginError::Bad);
        }
        let mut text = Vec::new(self.alloc);
        match say(line, &mut text) {
            Ok(()) => Ok(text),
            Err(NoMemory) => Err(BeginError::Memory),
        }
    }

    fn take(&mut self, line: &[u8]) -> Result<bool, NoMemory>
        ensures taken { IfOk result (λ meet. Takes (IsEchoing self.old.waiting.items) (IsEchoing self.new.waiting.items) (λ header line. is_m line) line.now meet) }
        ensures follows { self.old.phases ≤ self.new.phases }
    {
        say(line, &mut self.waiting)?;
        Ok(is_meet(line))
    }

    #[tactic(auto, using(crate::proofs::Saying::ran))]
    fn run(&mut self) -> Result<Vec<u8>, NoMemory>
        ensures answered { IfOk result (λ text. AnswersPhase (IsEchoing self.old.waiting.items) (IsEchoing self.new.waiting.items) text.items) }
        ensures follows { self.old.phases ≤ self.new.phases }
    {
        self.phases = self.phases.saturating_add(1);
        Ok(mem::replace(&mut self.waiting, Vec::new(self.alloc)))
    }

    #[tactic(auto, using(crate::proofs::Saying::ended))]
    fn end(&mut self) -> Result<Vec<u8>, NoMemory>
        ensures answered { IfOk result (λ text. AnswersEnd (IsEchoing self.old.waiting.items) IsWholeEcho text.items) }
        ensures follows { self.old.phases ≤ self.new.phases }
    {
        let mut text = mem::replace(&mut self.waiting, Vec::new(self.alloc));
        match text.push(b'.') {
            Ok(()) => Ok(text),
            Err(_) => Err(NoMemory),
        }
    }
}

fn is_c(line: &[u8]) -> bool
    ensures yes { result ≡ true → IsC line.now }
    ensures no { result ≡ false → ¬ IsC line.now }
{
    line.len() == 1 && line[0] == b'c'
}

fn is_meet(line: &[u8]) -> bool
    ensures { result ≡ is_m line.now }
{
    line.len() == 1 && line[0] == b'm'
}

// Says a line behind a text.
fn say(line: &[u8], text: &mut Vec<u8>) -> Result<(), NoMemory>
    ensures { OnOk result (text.new.items ≡ text.old.items ++ joined (line.now ∷ [])) }
{
    match text.extend_from_slice(line) {
        Ok(()) => {}
        Err(_) => return Err(NoMemory),
    }
    match text.push(b'\n') {
        Ok(()) => Ok(()),
        Err(_) => Err(NoMemory),
    }
}
