//! The laws of searches in views. These calls do nothing.

ghost use Rattle.std.specs.Prelude.{◌≡◌, ◌≢◌, ◌↔◌, true, false, Option, Some, None, ◌≤◌, [], ◌∷◌, ◌++◌, ℕ, ℤ, List, map, slice_get};
ghost use Rattle.std.specs.List.{AllByRecursion};
ghost use Rattle.std.specs.FinMap as fin;
ghost use Rattle.row_types.specs.declared.rows.Row.{Row};
ghost use Rattle.row_types.specs.Hits.{least};
ghost use Rattle.log_model.specs.declared.logs.Entry.{Entry};
ghost use Rattle.log_model.specs.declared.queries.Query.{Query};
ghost use Rattle.log_model.specs.declared.queries.Plan.{Plan};
ghost use Rattle.log_model.specs.Logs.{IsLog, live};
ghost use Rattle.log_model.specs.Scans.{hit_of, passes_filter, scan};
ghost use Rattle.journal_model.specs.declared.notes.Note.{Note};
ghost use Rattle.journal_model.specs.Notes.{log_of, tick_of};
ghost use Rattle.journal_model.specs.Journals.{IsJournal};
ghost use Rattle.journal_model.specs.Lists.{IsIn, joined};
ghost use Rattle.journal_model.specs.Views.{Shown, View, is_visible, IsSeen, IsExact, ShowsLive, view_of};
ghost use Rattle.journal_model.specs.Layouts.{Channel};
ghost use Rattle.journal_model.specs.Runs.{State, IsSound};
ghost use Rattle.view_laws.specs.Found.{hits_seen, found_in};
ghost use Rattle.view_laws.specs.Wholes.{of_key, whole, AreOfChannels, Looked, log_at_end, ServesAt};

/// What is seen of rows, one after another: nothing of a row that is not visible, nothing of one that
/// does not pass the filter, and each other row as a hit.
pub fn rows()
    ensures more { (t : ℕ) (plan : Plan) (query : Query) (rows more : List Shown)
        → hits_seen t plan query (rows ++ more) ≡ hits_seen t plan query rows ++ hits_seen t plan query more }
    ensures hidden { (t : ℕ) (plan : Plan) (query : Query) (s : Shown) → is_visible t s ≡ false → hits_seen t plan query (s ∷ []) ≡ [] }
    ensures refused { (t : ℕ) (plan : Plan) (query : Query) (s : Shown) → passes_filter query.filter s.row ≡ false → hits_seen t plan query (s ∷ []) ≡ [] }
    ensures offered { (t : ℕ) (plan : Plan) (query : Query) (s : Shown) → is_visible t s ≡ true → passes_filter query.filter s.row ≡ true
        → hits_seen t plan query (s ∷ []) ≡ hit_of plan query s.row ∷ [] }
{}

/// What is found in a view that shows the live rows, from its floor to its tick, is the scan of the log;
/// a visible row is the live row of its key, and a key that no visible row has is not live. An exact
/// view shows the live rows of each journal that extends its own. Neither the order of the parts nor
/// doubles count.
pub fn views()
    ensures shown { (notes : List Note) (view : View) (t : ℕ) (plan : Plan) (query : Query) → ShowsLive notes view → view.floor ≤ t → t ≤ view.tick
        → found_in view t plan query ≡ scan (log_of notes) t plan query }
    ensures present { (notes : List Note) (view : View) (t : ℕ) (row : Row) → ShowsLive notes view → view.floor ≤ t → t ≤ view.tick
        → IsSeen view t row → fin.get (live (log_of notes) t) row.key.0 ≡ Some row }
    ensures absent { (notes : List Note) (view : View) (t : ℕ) (key : ℤ) → ShowsLive notes view → view.floor ≤ t → t ≤ view.tick
        → ((row : Row) → IsSeen view t row → row.key.0 ≢ key) → fin.get (live (log_of notes) t) key ≡ None }
    ensures stays { (notes more : List Note) (view : View) → IsExact notes view → IsJournal (notes ++ more) → ShowsLive (notes ++ more) view }
    ensures later { (notes more : List Note) (view : View) (t : ℕ) (plan : Plan) (query : Query) → IsExact notes view → IsJournal (notes ++ more)
        → view.floor ≤ t → t ≤ view.tick → found_in view t plan query ≡ scan (log_of (notes ++ more)) t plan query }
    ensures looked { (channel : Channel) (s : State) (more : List Note) (t : ℕ) (plan : Plan) (query : Query) → IsSound channel s
        → IsJournal (s.notes ++ more) → s.floor ≤ t → t ≤ tick_of s.notes
        → found_in (view_of channel s.floor s.notes) t plan query ≡ scan (log_of (s.notes ++ more)) t plan query }
    ensures members { (view other : View) (t : ℕ) (plan : Plan) (query : Query)
        → ((s : Shown) → IsIn s (joined view.parts) ↔ IsIn s (joined other.parts)) → found_in view t plan query ≡ found_in other t plan query }
{}

/// What a log leaves depends, key by key, on the entries of the key alone.
pub fn keys()
    ensures row { (key : ℤ) (log other : List Entry) (t : ℕ) → of_key key log ≡ of_key key other → fin.get (live log t) key ≡ fin.get (live other t) key }
    ensures hits { (log other : List Entry) (t : ℕ) (plan : Plan) (query : Query) → ((key : ℤ) → of_key key log ≡ of_key key other)
        → scan log t plan query ≡ scan other t plan query }
{}

/// The whole of the channels' logs is a log and has the entries of each key as its channel has them, so
/// the live row of a key is the one of its channel. The k nearest of all that the channels' scans find
/// are the scan of the whole, and so are the k nearest of all that is found in the channels' views. A look
/// at a sound state serves each timestamp from its floor to its tick.
pub fn channels()
    ensures log { (home : ℤ → ℕ) (logs : List (List Entry)) → AreOfChannels home logs → AllByRecursion IsLog logs → IsLog (whole logs) }
    ensures each_key { (home : ℤ → ℕ) (logs : List (List Entry)) → AreOfChannels home logs → AllByRecursion IsLog logs
        → (key : ℤ) → of_key key (whole logs) ≡ of_key key (joined logs) }
    ensures row { (home : ℤ → ℕ) (logs : List (List Entry)) (log : List Entry) (t : ℕ) (key : ℤ) → AreOfChannels home logs → AllByRecursion IsLog logs
        → slice_get logs (home key) ≡ Some log → fin.get (live (whole logs) t) key ≡ fin.get (live log t) key }
    ensures cut { (home : ℤ → ℕ) (logs : List (List Entry)) (t : ℕ) (plan : Plan) (query : Query) → AreOfChannels home logs → AllByRecursion IsLog logs
        → least query.k (joined (map (λ log. scan log t plan query) logs)) ≡ scan (whole logs) t plan query }
    ensures serves { (channel : Channel) (s : State) (more : List Note) (t : ℕ) → IsSound channel s → IsJournal (s.notes ++ more)
        → s.floor ≤ t → t ≤ tick_of s.notes → ServesAt t (record { notes = s.notes; more = more; view = view_of channel s.floor s.notes }) }
    ensures looks { (home : ℤ → ℕ) (looks : List Looked) (t : ℕ) (plan : Plan) (query : Query) → AllByRecursion (ServesAt t) looks
        → AreOfChannels home (map log_at_end looks)
        → least query.k (joined (map (λ l. found_in l.view t plan query) looks)) ≡ scan (whole (map log_at_end looks)) t plan query }
{}
