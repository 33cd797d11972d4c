//! From what was done to what may be printed.

ghost use Rattle.std.specs.Prelude.{◌≡◌, ℕ, ℤ, ◌<◌, [], ◌∷◌, ◌++◌, List, map};
ghost use Rattle.std.specs.List.{AllByRecursion};
ghost use Rattle.log_model.specs.declared.logs.Entry.{Entry};
ghost use Rattle.answer_lines.specs.declared.answers.MeetReply.{MeetReply};
ghost use Rattle.answer_lines.specs.declared.answers.Answer.{Answer};
ghost use Rattle.legal_output.specs.Lines.{Asked, Line, Start, channel_of};
ghost use Rattle.legal_output.specs.Legal.{Numbered, HasLevel, InOrder, PendingRightly, IsLegal};
ghost use Rattle.legal_output.specs.Runs.{Plain, Run, Ends, begun, end_line};
ghost use Rattle.legal_output.specs.Printed.{Event, Past, ordered};
ghost use Rattle.legal_output.specs.Phases.{IsWithin, Running, Phase, PhaseFacts, EndFacts, Begins, RunOver, lines_in, of_key};
ghost use Rattle.legal_output.specs.Members.{GrewByEntries, GrewByEvents};

/// A run that serves each line and ends as its account says is a phase, and with its end it is
/// legal, where its first number is above all that was there before. This call does nothing.
pub fn runs_are_legal()
    ensures { (start : Start) (first : ℕ) (last : Plain) (asks : List Asked) (block : List Line) (number : ℕ) (counted : MeetReply)
        → AllByRecursion (λ entry. entry.ts.0 < first) start.base → start.m0 < first
        → Run start (begun start first) block last → Ends start last counted
        → Numbered 2 (block ++ end_line number counted ∷ []) → map (λ line. line.asked) (block ++ end_line number counted ∷ []) ≡ asks
        → IsLegal start asks (block ++ end_line number counted ∷ []) }
{}

/// A run over phases, each with a meet behind it, is legal where each phase and each meet keep what
/// they owe: after each meet as an output that is stopped there, and with a last phase and the end as
/// a whole. This call does nothing.
pub fn phases_are_legal()
    ensures stopped { (start : Start) (first last : Running) (phases : List Phase) (asks : List Asked)
        → Begins start first → RunOver start first phases last
        → Numbered 2 (lines_in phases) → map (λ line. line.asked) (lines_in phases) ≡ asks
        → IsLegal start asks (lines_in phases) }
    ensures whole { (start : Start) (first met last : Running) (phases : List Phase) (block : List Line) (end : Line) (asks : List Asked)
        → Begins start first → RunOver start first phases met → PhaseFacts start met last block → EndFacts start last end
        → Numbered 2 ((lines_in phases ++ block) ++ end ∷ []) → map (λ line. line.asked) ((lines_in phases ++ block) ++ end ∷ []) ≡ asks
        → IsLegal start asks ((lines_in phases ++ block) ++ end ∷ []) }
{}

/// What the logs and the tails of a phase grew by is known by its members, in whatever order its
/// lines tell them. This call does nothing.
pub fn members_suffice()
    ensures entries { (channels : ℕ) (more : ℕ → List Entry) (entries : List Entry) → GrewByEntries channels more entries
        → (key : ℤ) → of_key key (more (channel_of channels key)) ≡ of_key key (ordered (λ entry. entry.ts.0) entries) }
    ensures events { (more events : List Event) → GrewByEvents more events → more ≡ ordered (λ event. event.ts) events }
{}

/// A read and its numbers are right behind a past where they are right behind one of which more is
/// known, as of a seat that has seen more than its caller was told. This call does nothing.
pub fn less_known_suffices()
    ensures levels { (channels : ℕ) (past other : Past) (asked : Asked) (answer : Answer) → IsWithin past other
        → HasLevel channels other asked answer → HasLevel channels past asked answer }
    ensures order { (past other : Past) (answer : Answer) → IsWithin past other → InOrder other answer → InOrder past answer }
    ensures pending { (channels : ℕ) (past other : Past) (asked : Asked) (answer : Answer) → IsWithin past other
        → PendingRightly channels other asked answer → PendingRightly channels past asked answer }
{}
