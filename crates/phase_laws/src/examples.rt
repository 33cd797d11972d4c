//! A small run, which keeps what phases owe.

ghost use Rattle.std.specs.Prelude.{ℕ, Bool, List, [], ◌∷◌, map};
ghost use Rattle.atomic_table.specs.Seated.{TableId};
ghost use Rattle.coarse_lists.specs.declared.collections.Collection.{Collection};
ghost use Rattle.coarse_lists.specs.Collections.{IsInRange};
ghost use Rattle.legal_output.specs.Legal.{IsLegal};
ghost use Rattle.legal_output.specs.Outputs.{start_of};
ghost use Rattle.phase_model.specs.Rests.{new_rest};
ghost use Rattle.phase_model.specs.Phases.{IsPhase};
ghost use Rattle.phase_model.specs.Meets.{IsEnd};
ghost use Rattle.phase_laws.specs.Examples.{one_channel, insert_line, written_rest, ended_rest, end_line};

/// One caller's insert into a new collection of one channel is a phase, and with the end behind it what is
/// printed is legal. This call does nothing.
pub fn a_small_run()
    ensures phase { (id : TableId) (collection : Collection) (vector : List Bool)
        → IsPhase ℕ (one_channel collection) 1 (new_rest (one_channel collection) 1) (written_rest vector) (insert_line vector ∷ []) }
    ensures end { (collection : Collection) (vector : List Bool)
        → IsEnd (one_channel collection) 1 (written_rest vector) (ended_rest vector) (end_line collection vector) }
    ensures legal { (id : TableId) (collection : Collection) (vector : List Bool) → IsInRange collection
        → IsLegal (start_of (one_channel collection)) (map (λ line. line.asked) (insert_line vector ∷ end_line collection vector ∷ []))
        (insert_line vector ∷ end_line collection vector ∷ []) }
{}
