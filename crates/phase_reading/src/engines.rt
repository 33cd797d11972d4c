//! What answers the lines.

ghost use Rattle.std.specs.Prelude.{◌≡◌, ℕ, Bool, List, [], ◌∷◌, ◌++◌, IfOk, OnErr};
ghost use Rattle.phase_reading.specs.Engines.{IsFresh, CanTake, CanRun, CanEnd, AnswersFirst, Takes, AnswersPhase, AnswersEnd};

/// There was no memory.
#[derive(Debug, Clone, Copy, PartialEq, Eq)]
pub struct NoMemory;

/// Why line 1 began nothing.
#[derive(Debug, Clone, Copy, PartialEq, Eq)]
pub enum BeginError {
    /// It makes no collection.
    Bad,
    /// There was no memory.
    Memory,
}

/// Answers an input: line 1, then phase after phase, and the end. Each line is given once, as it ends,
/// and waits in the engine until its phase is run. Where there was no memory the run is over: nothing
/// is known of the engine then but what `follows` says.
pub trait Engine {
    // the first lines, line 1 among them, were answered by the text, and the second ones wait
    ghost account: { Self → List (List ℕ) → List (List ℕ) → List ℕ → Type 0 };

    // what is then known of the answered lines and of the text, whatever the engine does later
    ghost stopped: { Self → List (List ℕ) → List ℕ → Type 0 };

    // the same of all lines, and of a text that has its end line, where the engine has ended so
    ghost whole: { Self → List (List ℕ) → List ℕ → Type 0 };

    // line 1 makes a collection
    ghost begins: { List ℕ → Type 0 };

    // behind this line 1 a line is a meet
    ghost meets: { List ℕ → List ℕ → Bool };

    // what every call keeps, however it ends: the second engine may be what the first became
    ghost follows: { Self → Self → Type 0 };

    ghost stands: { (engine : Self) (done waiting : List (List ℕ)) (output : List ℕ) → account engine done waiting output → stopped engine done output };

    ghost persists: { (first second : Self) (done : List (List ℕ)) (output : List ℕ) → follows first second → stopped first done output → stopped second done output };

    ghost stays: { (engine : Self) → follows engine engine };

    ghost goes_on: { (first second third : Self) → follows first second → follows second third → follows first third };

    /// Answers line 1, given without its LF.
    fn begin(&mut self, line: &[u8]) -> Result<Vec<u8>, BeginError>
        requires fresh { IsFresh (account self.old) }
        ensures begun { IfOk result (λ text. AnswersFirst (account self.old) (account self.new) begins line.now text.items) }
        ensures bad { OnErr result (result ≡ Err BeginError.Bad → ¬ begins line.now) }
        ensures follows { follows self.old self.new };

    /// Takes a line, given without its LF, and says whether it is a meet.
    fn take(&mut self, line: &[u8]) -> Result<bool, NoMemory>
        requires ready { CanTake (account self.old) meets }
        ensures taken { IfOk result (λ meet. Takes (account self.old) (account self.new) meets line.now meet) }
        ensures follows { follows self.old self.new };

    /// Runs the phase that waits, and answers its lines and its meet.
    fn run(&mut self) -> Result<Vec<u8>, NoMemory>
        requires ready { CanRun (account self.old) meets }
        ensures answered { IfOk result (λ text. AnswersPhase (account self.old) (account self.new) text.items) }
        ensures follows { follows self.old self.new };

    /// Runs the lines that wait, which have no meet, and answers them and the end of the input.
    fn end(&mut self) -> Result<Vec<u8>, NoMemory>
        requires ready { CanEnd (account self.old) meets }
        ensures answered { IfOk result (λ text. AnswersEnd (account self.old) (whole self.new) text.items) }
        ensures follows { follows self.old self.new };
}
