//! The laws. Their calls do nothing.

ghost use Rattle.std.specs.Prelude.{◌≡◌, ℕ, ◌<◌, ◌≤◌, List, [], ◌∷◌, ◌++◌, map, Some};
ghost use Rattle.std.specs.List.{AllByRecursion};
ghost use Rattle.coarse_lists.specs.declared.collections.Collection.{Collection};
ghost use Rattle.coarse_lists.specs.Collections.{IsInRange};
ghost use Rattle.legal_output.specs.Lines.{Asked, Line};
ghost use Rattle.legal_output.specs.Printed.{all_drawn, lines_of};
ghost use Rattle.legal_output.specs.Legal.{AtEach, Differ, Numbered, IsLegal};
ghost use Rattle.legal_output.specs.Phases.{Phase, Called, lines_in};
ghost use Rattle.legal_output.specs.Outputs.{start_of};
ghost use Rattle.phase_model.specs.Rests.{Rest, AreJournals, new_rest};
ghost use Rattle.phase_model.specs.Phases.{IsPhase};
ghost use Rattle.phase_model.specs.Meets.{IsMeet, IsEnd};
ghost use Rattle.phase_laws.specs.Runs.{HasRun};

/// A new collection has run over no phase, and what has run goes on by a phase and its meet, whatever
/// order the callers of the phase acted in.
pub fn runs_go_on<B>()
    ensures begin { (collection : Collection) (least clock : ℕ) → 1 ≤ clock → HasRun collection least [] (new_rest collection clock) }
    ensures more { (collection : Collection) (least : ℕ) (phases : List Phase) (old ran new : Rest) (block : List Line) (meet : Line)
        → IsInRange collection → HasRun collection least phases old → IsPhase B collection least old ran block → IsMeet collection least ran new meet
        → HasRun collection least (phases ++ record { lines = block; meet = meet } ∷ []) new }
{}

/// What follows of a phase alone: its journals are as they should be, its numbers differ, lie from the
/// clock before to below the clock after and are not below the first of the least moment, and each
/// caller's lines have the levels and the order that its earlier lines ask.
pub fn a_phase_tells<B>()
    ensures journals { (collection : Collection) (least : ℕ) (old new : Rest) (block : List Line)
        → AreJournals collection old → IsPhase B collection least old new block → AreJournals collection new }
    ensures differ { (collection : Collection) (least : ℕ) (old new : Rest) (block : List Line)
        → AreJournals collection old → IsPhase B collection least old new block → Differ (all_drawn block) }
    ensures within { (collection : Collection) (least : ℕ) (old new : Rest) (block : List Line)
        → AreJournals collection old → IsPhase B collection least old new block
        → AllByRecursion (λ n. (old.clock ≤ n) × (n < new.clock)) (all_drawn block) }
    ensures timely { (collection : Collection) (least : ℕ) (old new : Rest) (block : List Line)
        → AreJournals collection old → IsPhase B collection least old new block → AllByRecursion (λ n. least ≤ n) (all_drawn block) }
    ensures callers { (collection : Collection) (least : ℕ) (old new : Rest) (block : List Line) → IsInRange collection
        → AreJournals collection old → IsPhase B collection least old new block
        → (caller : ℕ) → AtEach (Called collection.channels old.met (old.mine caller)) [] (lines_of (Some caller) block) }
{}

/// What is printed of phases is legal: after each meet as an output that is stopped there, and with a last
/// phase and the end as a whole.
pub fn runs_are_legal<B>()
    ensures stopped { (collection : Collection) (least : ℕ) (phases : List Phase) (rest : Rest) (asks : List Asked)
        → HasRun collection least phases rest
        → Numbered 2 (lines_in phases) → map (λ line. line.asked) (lines_in phases) ≡ asks → IsLegal (start_of collection) asks (lines_in phases) }
    ensures whole { (collection : Collection) (least : ℕ) (phases : List Phase) (old ran new : Rest) (block : List Line) (end : Line) (asks : List Asked)
        → IsInRange collection → HasRun collection least phases old → IsPhase B collection least old ran block → IsEnd collection least ran new end
        → Numbered 2 ((lines_in phases ++ block) ++ end ∷ []) → map (λ line. line.asked) ((lines_in phases ++ block) ++ end ∷ []) ≡ asks
        → IsLegal (start_of collection) asks ((lines_in phases ++ block) ++ end ∷ []) }
{}

/// No number that is printed is below the first of the least moment.
pub fn runs_are_timely<B>()
    ensures stopped { (collection : Collection) (least : ℕ) (phases : List Phase) (rest : Rest) → HasRun collection least phases rest
        → AllByRecursion (λ n. least ≤ n) (all_drawn (lines_in phases)) }
    ensures whole { (collection : Collection) (least : ℕ) (phases : List Phase) (old ran new : Rest) (block : List Line) (end : Line)
        → HasRun collection least phases old → IsPhase B collection least old ran block → IsEnd collection least ran new end
        → AllByRecursion (λ n. least ≤ n) (all_drawn ((lines_in phases ++ block) ++ end ∷ [])) }
{}
