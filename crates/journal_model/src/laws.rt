//! The laws of journals that the layers above rely on. These calls do nothing.

ghost use Rattle.std.specs.Prelude.{◌≡◌, Bool, true, ◌↔◌, ◌≤◌, ◌<◌, ◌+◌, ◌*◌, ◌++◌, ◌∷◌, [], ℕ, List, length, map, Option, Some, None};
ghost use Rattle.std.specs.Option.{option_or};
ghost use Rattle.std.specs.List.{AllByRecursion, filter, list_all, sum_by};
ghost use Rattle.row_types.specs.declared.rows.Row.{Row};
ghost use Rattle.row_types.specs.declared.rows.Key.{Key};
ghost use Rattle.hybrid_time.specs.declared.times.Timestamp.{Timestamp};
ghost use Rattle.log_model.specs.declared.logs.Entry.{Entry};
ghost use Rattle.log_model.specs.Logs.{IsLog, IsAbove, was_live};
ghost use Rattle.log_model.specs.Places.{Placed};
ghost use Rattle.journal_model.specs.declared.notes.PutKind.{PutKind};
ghost use Rattle.journal_model.specs.declared.notes.Home.{Home};
ghost use Rattle.journal_model.specs.declared.notes.Kind.TheVariants.{Put, Remove, Tick, Seal, Look, Number, Load, Release, Lists, Merge};
ghost use Rattle.journal_model.specs.declared.notes.Note.{Note};
ghost use Rattle.journal_model.specs.Notes.{note_of, ts_of, entries_of, log_of, tick_of};
ghost use Rattle.journal_model.specs.Journals.{AreBelow, AreUpTo, may_follow, Follows, IsJournal};
ghost use Rattle.journal_model.specs.Puts.{put_at, first_end, death, IsAlive};
ghost use Rattle.journal_model.specs.Tables.{ends, marked};
ghost use Rattle.journal_model.specs.Answers.{Written, answer_at};
ghost use Rattle.journal_model.specs.Layouts.{Channel, Segment, BegunMerge, number_at, begun_merge, kept_in, merged_piece, sources_in, layout_of};
ghost use Rattle.journal_model.specs.Lawful.{given_of, is_there, IsLawful, IsBegun};
ghost use Rattle.journal_model.specs.Refusals.{move_refusal, load_refusal, release_refusal, merge_refusal};
ghost use Rattle.journal_model.specs.Lists.{IsIn, joined};
ghost use Rattle.journal_model.specs.Views.{Shown, shown, StandsFor, advanced, merged_parts, IsLiveAt, IsExact, ShowsLive, view_of};
ghost use Rattle.journal_model.specs.Runs.{State, Act, FloorsUpTo, IsSound, is_step, run};
ghost use Rattle.journal_model.specs.Invariants.{IsValid, NumbersRise, Numbered, Once};
ghost use Rattle.journal_model.specs.Counts.{IsSized, IsBounded, counts_of};
ghost use Rattle.journal_model.specs.Groups.{kept_rows, grouped, meet_groups, numbers_of, MergesOf};

/// The order of notes: the test of a next note is the rule in words; the log of a journal is a log, and
/// what a journal appends to its log lies above its tick.
pub fn order()
    ensures follows { (before : List Note) (note : Note) → (may_follow before note ≡ true) ↔ Follows before note }
    ensures log { (notes : List Note) → IsJournal notes → IsLog (log_of notes) }
    ensures above { (notes more : List Note) → IsJournal (notes ++ more) → IsAbove (tick_of notes) (log_of more) }
{}

/// The rows of a journal: which are live at a timestamp, what a change is answered, and which mark a
/// note adds.
pub fn rows()
    ensures alive { (notes : List Note) → IsJournal notes → (t : ℕ) (row : Row) → IsLiveAt notes t row
        → (x : Placed) × IsAlive notes t x × (x.row ≡ row) }
    ensures live { (notes : List Note) → IsJournal notes → (t : ℕ) (x : Placed) → IsAlive notes t x → IsLiveAt notes t x.row }
    ensures one { (notes : List Note) → IsJournal notes → (t : ℕ) (x y : Placed) → IsAlive notes t x → IsAlive notes t y
        → y.row.key.0 ≡ x.row.key.0 → y ≡ x }
    ensures rises { (notes : List Note) → IsJournal notes → (x y : Placed) → put_at notes x.position ≡ Some x → put_at notes y.position ≡ Some y
        → x.position < y.position → x.ts ≤ y.ts }

    // A change is answered by its timestamp in the log as by its place in the journal.
    ensures answer { (channel : Channel) (before rest : List Note) (note : Note) (entry : Entry) → IsJournal (before ++ note ∷ rest)
        → entries_of note.kind ≡ entry ∷ []
        → answer_at channel before note.kind ≡ Written (was_live (log_of (before ++ note ∷ rest)) entry.ts.0 entry.write) }

    // One note more marks at most one row; more notes mark what was not marked.
    ensures mark { (notes : List Note) (x : Placed) → put_at notes x.position ≡ Some x → (note : Note)
        → death (notes ++ note ∷ []) x ≡ marked (ends notes note.kind) x.position (death notes x) }
    ensures marks { (notes more : List Note) (x : Placed) → put_at notes x.position ≡ Some x
        → death (notes ++ more) x ≡ option_or (death notes x) (first_end x.row.key.0 more) }
{}

/// In every lawful journal, at a floor that no merge began above, tail and pieces are correct, cover and
/// are apart; each segment has a home, and the leader only alone; no number and no node stands twice;
/// no piece has more than `seal_rows` rows.
pub fn segments()
    ensures valid { (channel : Channel) (notes : List Note) (floor : ℕ) → IsLawful channel notes → FloorsUpTo floor notes
        → IsValid notes floor (layout_of channel notes) }
    ensures numbered { (channel : Channel) (notes : List Note) → IsLawful channel notes → Numbered channel (layout_of channel notes) }
    ensures homes { (channel : Channel) (notes : List Note) → IsLawful channel notes
        → AllByRecursion (λ s. Once s.homes) (layout_of channel notes).segments }
    ensures sizes { (channel : Channel) → 0 < channel.seal_rows → (notes : List Note) → IsLawful channel notes
        → IsSized channel (layout_of channel notes) }
{}

/// A merge that was begun: it is in the layout exactly while no Merge note has its number, a number
/// keeps its piece as long as it is there, and what the merge keeps is the same from its beginning on.
pub fn merges()
    ensures origin { (channel : Channel) (notes : List Note) → IsLawful channel notes
        → AllByRecursion (λ b. IsBegun notes b) (layout_of channel notes).begun }
    ensures begun { (channel : Channel) (notes : List Note) → IsLawful channel notes → (b : BegunMerge) → IsBegun notes b
        → begun_merge (layout_of channel notes) b.by b.number ≡ Some b }
    ensures piece { (channel : Channel) (notes more : List Note) → IsLawful channel (notes ++ more) → (s t : Segment)
        → IsIn s (layout_of channel notes).segments → IsIn t (layout_of channel (notes ++ more)).segments → t.number ≡ s.number → t.piece ≡ s.piece }
    ensures same { (channel : Channel) (floor : ℕ) (notes more : List Note) (sources : List ℕ) (b : BegunMerge) → IsLawful channel (notes ++ more)
        → FloorsUpTo floor (notes ++ more) → b.at ≤ length notes
        → list_all (is_there (layout_of channel notes)) sources ≡ true → list_all (is_there (layout_of channel (notes ++ more))) sources ≡ true
        → merged_piece (notes ++ more) (layout_of channel (notes ++ more)) sources b ≡ merged_piece notes (layout_of channel notes) sources b }
{}

/// Parts of work that began on an older journal: with the marks of the notes since then, a part that was
/// moved stands for the piece of its segment, and the merge of parts for the piece of the merge.
pub fn parts()
    ensures moved { (channel : Channel) (floor : ℕ) (before more : List Note) → IsSound channel (record { notes = before ++ more; floor = floor })
        → (s t : Segment) → IsIn s (layout_of channel before).segments → IsIn t (layout_of channel (before ++ more)).segments → t.number ≡ s.number
        → (part : List Shown) → StandsFor before part s.piece → StandsFor (before ++ more) (map (advanced more) part) t.piece }
    ensures merged { (channel : Channel) (floor : ℕ) (before more : List Note) → IsSound channel (record { notes = before ++ more; floor = floor })
        → (sources : List ℕ) (b : BegunMerge) → b.at ≡ length before
        → list_all (is_there (layout_of channel before)) sources ≡ true → list_all (is_there (layout_of channel (before ++ more))) sources ≡ true
        → (let pieces = sources_in sources (layout_of channel before).segments in
        let part = merged_parts b.floor (map (λ s. map (shown before) s.piece) pieces) in
        StandsFor (before ++ more) (map (advanced more) part) (merged_piece (before ++ more) (layout_of channel (before ++ more)) sources b)) }
{}

/// The counts bound each other; groups have all candidates in order, and each keeps at most `seal_rows`
/// rows, as many as its merge; after a meet at least half of the rows on nodes are alive.
pub fn counting()
    ensures bound { (channel : Channel) (s : State) → 0 < channel.seal_rows → IsSound channel s → IsBounded channel (counts_of channel s.notes) }
    ensures groups { (most : ℕ) (size : Segment → ℕ) (segments : List Segment) → joined (grouped most size segments) ≡ segments }
    ensures few { (channel : Channel) (notes : List Note) (floor : ℕ) (segments : List Segment)
        → AllByRecursion (λ s. length s.piece ≤ channel.seal_rows) segments
        → AllByRecursion (λ group. (sum_by (kept_rows notes floor) group ≤ channel.seal_rows) × (0 < length group))
        (grouped channel.seal_rows (kept_rows notes floor) segments) }
    ensures kept { (notes : List Note) (floor : ℕ) (segments : List Segment)
        → length (kept_in notes floor segments) ≡ sum_by (kept_rows notes floor) segments }
    ensures sources { (segments : List Segment) → NumbersRise segments → (p : Segment → Bool) (most : ℕ) (size : Segment → ℕ) (group : List Segment)
        → IsIn group (grouped most size (filter p segments)) → sources_in (map (λ s. s.number) group) segments ≡ group }
    ensures up_to { (notes : List Note) (note : Note) (ts : ℕ) → IsJournal (notes ++ note ∷ []) → ts_of note.kind ≡ Some ts
        → AreUpTo ts (notes ++ note ∷ []) }
    ensures meet { (channel : Channel) (floor : ℕ) (notes more : List Note) → AreUpTo floor notes
        → MergesOf floor [] (numbers_of (meet_groups channel notes floor)) more → IsLawful channel (notes ++ more)
        → (counts_of channel (notes ++ more)).node_rows ≤ 2 * (counts_of channel (notes ++ more)).node_live }
{}

/// What a call has to know for its note to be a step.
pub fn calls()
    ensures put { (channel : Channel) (s : State) (by line : ℕ) (ts : Timestamp) (how : PutKind) (row : Row) → 1 ≤ ts.0
        → may_follow s.notes (note_of by line (Put ts how row)) ≡ true → is_step channel s (note_of by line (Put ts how row)) ≡ true }
    ensures remove { (channel : Channel) (s : State) (by line : ℕ) (ts : Timestamp) (key : Key) → 1 ≤ ts.0
        → may_follow s.notes (note_of by line (Remove ts key)) ≡ true → is_step channel s (note_of by line (Remove ts key)) ≡ true }
    ensures tick { (channel : Channel) (s : State) (by line : ℕ) (ts : Timestamp) → AreBelow ts.0 s.notes
        → is_step channel s (note_of by line (Tick ts)) ≡ true }
    ensures seal { (channel : Channel) (s : State) (by line : ℕ) (ts : Timestamp) → AreBelow ts.0 s.notes
        → is_step channel s (note_of by line (Seal ts)) ≡ true }
    ensures look { (channel : Channel) (s : State) (by line : ℕ) (guarantee : Timestamp)
        → is_step channel s (note_of by line (Look guarantee)) ≡ true }
    ensures number { (channel : Channel) (s : State) (by line : ℕ) (floor : Timestamp) → floor.0 ≡ s.floor
        → is_step channel s (note_of by line (Number (number_at channel (layout_of channel s.notes).taken) floor)) ≡ true }
    ensures load { (channel : Channel) (s : State) (by line segment : ℕ) (from : Home) (node : ℕ)
        → load_refusal (layout_of channel s.notes) segment from node ≡ None → is_step channel s (note_of by line (Load segment node)) ≡ true }
    ensures release { (channel : Channel) (s : State) (by line segment node : ℕ)
        → release_refusal (layout_of channel s.notes) segment node ≡ None → is_step channel s (note_of by line (Release segment node)) ≡ true }
    ensures lists { (channel : Channel) (s : State) (by line segment : ℕ) (from : Home)
        → move_refusal (layout_of channel s.notes) segment from ≡ None → is_step channel s (note_of by line (Lists segment)) ≡ true }
    ensures merge { (channel : Channel) (s : State) (by line : ℕ) → IsLawful channel s.notes → (b : BegunMerge) → IsBegun s.notes b → b.by ≡ by
        → (sources : List ℕ) (node : ℕ) → merge_refusal (layout_of channel s.notes) sources ≡ None
        → length (merged_piece s.notes (layout_of channel s.notes) sources b) ≤ channel.seal_rows
        → (let given = given_of b.number (length (merged_piece s.notes (layout_of channel s.notes) sources b)) in
        is_step channel s (note_of by line (Merge sources given node)) ≡ true) }
{}

/// Every state of every run is sound, and each view that a look gives shows the live rows at each
/// timestamp from its floor to its tick, in this journal and in every one that extends it. An empty
/// journal has a sound state, and an empty view.
pub fn every_run()
    ensures start { (channel : Channel) → IsSound channel (record { notes = []; floor = 0 }) }
    ensures empty { (channel : Channel) (floor : ℕ) → view_of channel floor [] ≡ record { floor = floor; tick = 0; parts = [] ∷ [] } }
    ensures sound { (channel : Channel) (s : State) (acts : List Act) → IsSound channel s → IsSound channel (run channel s acts) }
    ensures exact { (channel : Channel) (s : State) → IsSound channel s → IsExact s.notes (view_of channel s.floor s.notes) }
    ensures look { (channel : Channel) (s : State) → IsSound channel s → (by line : ℕ) (guarantee : Timestamp)
        → IsExact (s.notes ++ note_of by line (Look guarantee) ∷ []) (view_of channel s.floor s.notes) }
    ensures later { (channel : Channel) (s : State) (acts : List Act) → IsSound channel s
        → ShowsLive (run channel s acts).notes (view_of channel s.floor s.notes) }
    ensures extended { (channel : Channel) (s : State) (more : List Note) → IsSound channel s → IsJournal (s.notes ++ more)
        → ShowsLive (s.notes ++ more) (view_of channel s.floor s.notes) }
{}
