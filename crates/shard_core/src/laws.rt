//! The laws of pieces that lag behind their journal. These calls do nothing.

ghost use Rattle.std.specs.Prelude.{◌≡◌, ◌<◌, ◌≤◌, ℕ, false, List, [], ◌∷◌, ◌++◌, Option, Some, None, map};
ghost use Rattle.log_model.specs.Places.{Placed};
ghost use Rattle.journal_model.specs.declared.notes.Kind.TheVariants.{Load, Release, Merge};
ghost use Rattle.journal_model.specs.declared.notes.Note.{Note};
ghost use Rattle.journal_model.specs.Notes.{tick_of};
ghost use Rattle.journal_model.specs.Puts.{put_at};
ghost use Rattle.journal_model.specs.Layouts.{Channel, homes_after_load, homes_after_release, layout_of};
ghost use Rattle.journal_model.specs.Lawful.{homes_in, is_there};
ghost use Rattle.journal_model.specs.Journals.{IsJournal};
ghost use Rattle.journal_model.specs.Runs.{State, IsSound};
ghost use Rattle.journal_model.specs.Views.{IsExact, ShowsLive, view_of};
ghost use Rattle.shard_core.specs.declared.pending.Pending.{Pending};
ghost use Rattle.shard_core.specs.declared.pending.Pending.TheVariants.{Row, Closed};
ghost use Rattle.shard_core.specs.Shelves.{Shelves, no_shelves, shelves_of, seen_in, product_of, merged_shelves};
ghost use Rattle.hybrid_time.specs.declared.times.Timestamp.{Timestamp};
ghost use Rattle.channel_pieces.specs.Pieces.{placed_of, rehomed};
ghost use Rattle.shard_core.specs.Steps.{pending_of, deaths_of, is_move, after_pending, with_ends, caught_up};
ghost use Rattle.shard_core.specs.Lagging.{IsBehind, Fits, Closes, homes_with, is_there_with};

/// What a note changes of what a channel shows: its row joins the tail, its boundary closes it, and the
/// row that it ends is marked. So, where pieces lag behind, the pieces stay as they are: the row and
/// the boundary are pending then, and the death is open.
pub fn notes()
    ensures shown { (channel : Channel) (s : State) (note : Note) → IsSound channel s → is_move note.kind ≡ false
        → caught_up (s.notes ++ note ∷ []) (pending_of channel s.notes note.kind) (deaths_of s.notes note.kind) (shelves_of channel s.notes)
        ≡ shelves_of channel (s.notes ++ note ∷ []) }
    ensures noted { (channel : Channel) (s : State) (note : Note) (pending : List Pending) (deaths : List (ℕ × Timestamp)) (pieces : Shelves)
        → IsSound channel s → IsBehind channel s.notes pending deaths pieces → is_move note.kind ≡ false
        → IsBehind channel (s.notes ++ note ∷ []) (pending ++ pending_of channel s.notes note.kind) (deaths ++ deaths_of s.notes note.kind) pieces }
{}

/// Bringing pieces up: what is pending is applied from the front on, and then the deaths, each in any
/// number of goes. Each row that is pending fits behind the tail so far, and each boundary finds a tail
/// with rows and a number above all others. At the end the pieces show the journal.
pub fn catching_up()
    ensures start { (channel : Channel) → IsBehind channel [] [] [] no_shelves }
    ensures next { (channel : Channel) (notes : List Note) (p : Pending) (pending : List Pending) (deaths : List (ℕ × Timestamp)) (pieces : Shelves)
        → IsBehind channel notes (p ∷ pending) deaths pieces → IsBehind channel notes pending deaths (after_pending notes pieces p) }
    ensures row { (channel : Channel) (s : State) (position : ℕ) (pending : List Pending) (deaths : List (ℕ × Timestamp)) (pieces : Shelves)
        → 0 < channel.seal_rows → IsSound channel s → IsBehind channel s.notes (Row position ∷ pending) deaths pieces
        → (x : Placed) × (put_at s.notes position ≡ Some x) × Fits channel s.notes (map placed_of pieces.tail ++ x ∷ []) }
    ensures boundary { (channel : Channel) (s : State) (number : ℕ) (pending : List Pending) (deaths : List (ℕ × Timestamp)) (pieces : Shelves)
        → IsSound channel s → IsBehind channel s.notes (Closed number ∷ pending) deaths pieces → Closes channel s.notes pieces number }
    ensures marked { (channel : Channel) (notes : List Note) (deaths : List (ℕ × Timestamp)) (pieces : Shelves)
        → IsBehind channel notes [] deaths pieces → IsBehind channel notes [] [] (with_ends deaths pieces) }
    ensures all { (channel : Channel) (notes : List Note) (pieces : Shelves) → IsBehind channel notes [] [] pieces → pieces ≡ shelves_of channel notes }
{}

/// Pieces that are brought up give the view of the journal. It is exact, and shows the live rows of each
/// journal that extends this one.
pub fn looks()
    ensures view { (channel : Channel) (floor : ℕ) (notes : List Note) (pieces : Shelves) → IsBehind channel notes [] [] pieces
        → seen_in floor (tick_of notes) pieces ≡ view_of channel floor notes }
    ensures exact { (channel : Channel) (s : State) (pieces : Shelves) → IsSound channel s → IsBehind channel s.notes [] [] pieces
        → IsExact s.notes (seen_in s.floor (tick_of s.notes) pieces) }
    ensures extended { (channel : Channel) (s : State) (more : List Note) (pieces : Shelves) → IsSound channel s → IsJournal (s.notes ++ more)
        → IsBehind channel s.notes [] [] pieces → ShowsLive (s.notes ++ more) (seen_in s.floor (tick_of s.notes) pieces) }
{}

/// The homes of segments are those of the pieces, and the leader for a boundary that is pending. On
/// pieces that are brought up a load, a release and a merge change the segments as their notes say.
pub fn moves()
    ensures there { (channel : Channel) (notes : List Note) (pending : List Pending) (deaths : List (ℕ × Timestamp)) (pieces : Shelves) (number : ℕ)
        → IsBehind channel notes pending deaths pieces → is_there_with pieces.segments pending number ≡ is_there (layout_of channel notes) number }
    ensures homes { (channel : Channel) (notes : List Note) (pending : List Pending) (deaths : List (ℕ × Timestamp)) (pieces : Shelves) (number : ℕ)
        → IsBehind channel notes pending deaths pieces → homes_with pieces.segments pending number ≡ homes_in (layout_of channel notes).segments number }
    ensures load { (channel : Channel) (notes : List Note) (note : Note) (segment node : ℕ) (pieces : Shelves)
        → note.kind ≡ Load segment node → IsBehind channel notes [] [] pieces
        → IsBehind channel (notes ++ note ∷ []) [] [] (record { tail = pieces.tail; segments = rehomed segment (homes_after_load node) pieces.segments }) }
    ensures release { (channel : Channel) (notes : List Note) (note : Note) (segment node : ℕ) (pieces : Shelves)
        → note.kind ≡ Release segment node → IsBehind channel notes [] [] pieces
        → IsBehind channel (notes ++ note ∷ []) [] [] (record { tail = pieces.tail; segments = rehomed segment (homes_after_release node) pieces.segments }) }
    ensures merge { (channel : Channel) (notes : List Note) (note : Note) (sources : List ℕ) (segment : Option ℕ) (node : ℕ) (pieces : Shelves)
        → note.kind ≡ Merge sources segment node → IsBehind channel notes [] [] pieces
        → (let product = product_of notes note.by (layout_of channel notes) sources segment in
        IsBehind channel (notes ++ note ∷ []) [] [] (record { tail = pieces.tail; segments = merged_shelves sources product node pieces.segments })) }
{}
