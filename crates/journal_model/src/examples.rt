//! Worked examples of the definitions, so that none is vacuous and none says another thing than it should.

ghost use Rattle.std.specs.Prelude.{◌≡◌, true, false, [], ◌∷◌, ◌++◌, Some, None};
ghost use Rattle.journal_model.specs.declared.notes.Home.TheVariants.{Leader, Node};
ghost use Rattle.journal_model.specs.declared.notes.Kind.TheVariants.{Remove, Tick, Seal, Look, Number, Release, Merge};
ghost use Rattle.journal_model.specs.declared.refusals.MoveError.TheVariants.{Gone, Already, NotThere, LastPlace};
ghost use Rattle.journal_model.specs.Notes.{note_of};
ghost use Rattle.journal_model.specs.Journals.{is_next};
ghost use Rattle.journal_model.specs.Answers.{Served, Pending, Sealed, answer_at};
ghost use Rattle.journal_model.specs.Layouts.{layout_of};
ghost use Rattle.journal_model.specs.Lawful.{is_lawful};
ghost use Rattle.journal_model.specs.Refusals.{move_refusal, load_refusal, release_refusal, begin_merge_refusal, merge_refusal};
ghost use Rattle.journal_model.specs.Counts.{counts_of};
ghost use Rattle.journal_model.specs.Groups.{small_groups, meet_groups, numbers_of};
ghost use Rattle.journal_model.specs.Examples.{Leaves, key, at, two, four, sealed, inserting, upserting, removing};
ghost use Rattle.journal_model.specs.Examples.{ticking, sealing, looking, numbering, loading};
ghost use Rattle.journal_model.specs.Examples.{releasing, listing, merging, purging, spread, thinned, batch};

/// For each kind of note a short journal: it is lawful and leaves this tail, these segments, these homes
/// and this view, and what its calls are answered or refused. This call does nothing.
pub fn worked_journals()
    ensures insert_leaves { Leaves four inserting (0 ∷ 2 ∷ 4 ∷ []) [] [] 6 (((0, Some 4) ∷ (2, None) ∷ (4, None) ∷ []) ∷ []) }
    ensures upsert_leaves { Leaves two upserting (2 ∷ []) ((3, 0 ∷ 1 ∷ []) ∷ []) ((3, Leader ∷ []) ∷ []) 4
        (((2, None) ∷ []) ∷ ((0, Some 3) ∷ (1, None) ∷ []) ∷ []) }
    ensures remove_leaves { Leaves four removing (0 ∷ 3 ∷ []) [] [] 5 (((0, Some 2) ∷ (3, None) ∷ []) ∷ []) }
    ensures tick_leaves { Leaves four ticking (1 ∷ 3 ∷ []) [] [] 3 (((1, None) ∷ (3, None) ∷ []) ∷ []) }
    ensures seal_leaves { Leaves two sealing (3 ∷ []) ((3, 0 ∷ []) ∷ []) ((3, Leader ∷ []) ∷ []) 5 (((3, None) ∷ []) ∷ ((0, None) ∷ []) ∷ []) }
    ensures seal_answer { answer_at two sealing (Seal (at 6)) ≡ Sealed 1 }
    ensures look_leaves { Leaves two looking (0 ∷ []) [] [] 2 (((0, None) ∷ []) ∷ []) }
    ensures look_served { answer_at two looking (Look (at 2)) ≡ Served }
    ensures look_pending { answer_at two looking (Look (at 3)) ≡ Pending 2 }
    ensures number_leaves { Leaves two numbering [] ((3, 0 ∷ 1 ∷ []) ∷ (35, 3 ∷ []) ∷ []) ((3, Leader ∷ []) ∷ (35, Leader ∷ []) ∷ []) 5
        ([] ∷ ((0, None) ∷ (1, None) ∷ []) ∷ ((3, None) ∷ []) ∷ []) }
    ensures number_is_next { is_lawful two sealed (note_of 4 0 (Number 35 (at 0))) ≡ false }
    ensures load_leaves { Leaves two loading [] ((3, 0 ∷ 1 ∷ []) ∷ []) ((3, Node 1 ∷ Node 0 ∷ []) ∷ []) 4
        ([] ∷ ((0, Some 3) ∷ (1, None) ∷ []) ∷ ((0, Some 3) ∷ (1, None) ∷ []) ∷ []) }
    ensures load_again { load_refusal (layout_of two loading) 3 (Node 0) 1 ≡ Some (Already 3 1) }
    ensures leader_gone { move_refusal (layout_of two loading) 3 Leader ≡ Some (Already 3 0) }
    ensures other_node { move_refusal (layout_of two loading) 3 (Node 2) ≡ Some (NotThere 3 2) }
    ensures release_leaves { Leaves two releasing [] ((3, 0 ∷ 1 ∷ []) ∷ []) ((3, Node 0 ∷ []) ∷ []) 3 ([] ∷ ((0, None) ∷ (1, None) ∷ []) ∷ []) }
    ensures last_place { release_refusal (layout_of two releasing) 3 0 ≡ Some (LastPlace 3) }
    ensures last_place_unlawful { is_lawful two releasing (note_of 4 0 (Release 3 0)) ≡ false }
    ensures lists_leave { Leaves two listing [] ((3, 0 ∷ 1 ∷ []) ∷ []) ((3, Node 0 ∷ []) ∷ []) 3 ([] ∷ ((0, None) ∷ (1, None) ∷ []) ∷ []) }
    ensures merge_leaves { Leaves two merging [] ((19, 0 ∷ 1 ∷ []) ∷ []) ((19, Node 1 ∷ []) ∷ []) 4 ([] ∷ ((0, Some 3) ∷ (1, None) ∷ []) ∷ []) }
    ensures merged_again { is_lawful two merging (note_of 4 0 (Merge (19 ∷ []) (Some 19) 1)) ≡ false }
    ensures source_gone { merge_refusal (layout_of two merging) (3 ∷ []) ≡ Some (Gone 3) }
    ensures merged_away { is_lawful two merging (note_of 4 0 (Merge (19 ∷ []) None 1)) ≡ false }
    ensures purge_leaves { Leaves two purging [] [] [] 5 ([] ∷ []) }
{}

/// Groups of segments that are merged, and counts. This call does nothing.
pub fn worked_groups()
    ensures small { numbers_of (small_groups two spread 0) ≡ (3 ∷ 19 ∷ []) ∷ [] }
    ensures spared { numbers_of (meet_groups two spread 8) ≡ [] }
    ensures meet { numbers_of (meet_groups two thinned 10) ≡ (3 ∷ 19 ∷ 35 ∷ []) ∷ [] }
    ensures meet_earlier { numbers_of (meet_groups two thinned 9) ≡ [] }
    ensures counts { ((counts_of two thinned).tail ∷ (counts_of two thinned).waiting ∷ (counts_of two thinned).node_rows ∷ (counts_of two thinned).node_live ∷ [])
        ≡ 0 ∷ 1 ∷ 3 ∷ 1 ∷ [] }
    ensures waiting_source { begin_merge_refusal (layout_of two spread) (35 ∷ 51 ∷ []) ≡ Some (Gone 51) }
{}

/// Which change may join a batch at its timestamp. This call does nothing.
pub fn worked_batches()
    ensures in_batch { is_next batch (note_of 1 2 (Remove (at 5) (key 3))) ≡ true }
    ensures key_twice { is_next batch (note_of 1 2 (Remove (at 5) (key 1))) ≡ false }
    ensures other_line { is_next batch (note_of 1 3 (Remove (at 5) (key 3))) ≡ false }
    ensures other_seat { is_next batch (note_of 2 2 (Remove (at 5) (key 3))) ≡ false }
    ensures look_between { is_next (batch ++ note_of 1 2 (Look (at 0)) ∷ []) (note_of 1 2 (Remove (at 5) (key 3))) ≡ false }
    ensures tick_at_batch { is_next batch (note_of 1 2 (Tick (at 5))) ≡ false }
    ensures tick_above { is_next batch (note_of 2 9 (Tick (at 6))) ≡ true }
    ensures no_zero { is_next [] (note_of 1 2 (Remove (at 0) (key 3))) ≡ false }
{}
