//! What a note changes of the layout, by what its call told. These calls do nothing.

ghost use Rattle.std.specs.Prelude.{◌≡◌, ℕ, ◌++◌, ◌∷◌, [], List, length, Some, None};
ghost use Rattle.row_types.specs.declared.rows.Row.{Row};
ghost use Rattle.row_types.specs.declared.rows.Key.{Key};
ghost use Rattle.hybrid_time.specs.declared.times.Timestamp.{Timestamp};
ghost use Rattle.log_model.specs.Places.{Placed};
ghost use Rattle.journal_model.specs.declared.notes.PutKind.{PutKind};
ghost use Rattle.journal_model.specs.declared.notes.Kind.TheVariants.{Put, Remove, Tick, Seal, Look};
ghost use Rattle.journal_model.specs.declared.notes.Note.{Note};
ghost use Rattle.journal_model.specs.Notes.{note_of};
ghost use Rattle.journal_model.specs.Puts.{effective};
ghost use Rattle.journal_model.specs.Layouts.{Channel, number_at, with_tail, after_boundary, layout_of};
ghost use Rattle.channel_journal.specs.Notes.{number_taken};

/// What a note changes of the layout: a put by the row that it adds and the number that is taken, a seal
/// by that number; a remove, a tick and a look change nothing. A number that is taken is the next one.
pub fn layouts()
    ensures refused { (channel : Channel) (notes : List Note) (by line : ℕ) (ts : Timestamp) (how : PutKind) (row : Row)
        → effective notes (Put ts how row) ≡ None
        → layout_of channel (notes ++ note_of by line (Put ts how row) ∷ []) ≡ layout_of channel notes }
    ensures added { (channel : Channel) (notes : List Note) (by line : ℕ) (ts : Timestamp) (how : PutKind) (row : Row) (x : Placed)
        → effective notes (Put ts how row) ≡ Some x
        → number_taken channel (layout_of channel notes) (layout_of channel (notes ++ note_of by line (Put ts how row) ∷ [])) ≡ None
        → layout_of channel (notes ++ note_of by line (Put ts how row) ∷ [])
        ≡ with_tail (layout_of channel notes) ((layout_of channel notes).tail ++ x ∷ []) }
    ensures filled { (channel : Channel) (notes : List Note) (by line : ℕ) (ts : Timestamp) (how : PutKind) (row : Row) (x : Placed) (number : ℕ)
        → effective notes (Put ts how row) ≡ Some x
        → number_taken channel (layout_of channel notes) (layout_of channel (notes ++ note_of by line (Put ts how row) ∷ [])) ≡ Some number
        → layout_of channel (notes ++ note_of by line (Put ts how row) ∷ [])
        ≡ after_boundary channel (layout_of channel notes) ((layout_of channel notes).tail ++ x ∷ []) }
    ensures kept { (channel : Channel) (notes : List Note) (by line : ℕ) (ts : Timestamp)
        → number_taken channel (layout_of channel notes) (layout_of channel (notes ++ note_of by line (Seal ts) ∷ [])) ≡ None
        → layout_of channel (notes ++ note_of by line (Seal ts) ∷ []) ≡ layout_of channel notes }
    ensures sealed { (channel : Channel) (notes : List Note) (by line : ℕ) (ts : Timestamp) (number : ℕ)
        → number_taken channel (layout_of channel notes) (layout_of channel (notes ++ note_of by line (Seal ts) ∷ [])) ≡ Some number
        → layout_of channel (notes ++ note_of by line (Seal ts) ∷ [])
        ≡ after_boundary channel (layout_of channel notes) (layout_of channel notes).tail }
    ensures removed { (channel : Channel) (notes : List Note) (by line : ℕ) (ts : Timestamp) (key : Key)
        → layout_of channel (notes ++ note_of by line (Remove ts key) ∷ []) ≡ layout_of channel notes }
    ensures ticked { (channel : Channel) (notes : List Note) (by line : ℕ) (ts : Timestamp)
        → layout_of channel (notes ++ note_of by line (Tick ts) ∷ []) ≡ layout_of channel notes }
    ensures looked { (channel : Channel) (notes : List Note) (by line : ℕ) (guarantee : Timestamp)
        → layout_of channel (notes ++ note_of by line (Look guarantee) ∷ []) ≡ layout_of channel notes }
    ensures number { (channel : Channel) (notes more : List Note) (number : ℕ)
        → number_taken channel (layout_of channel notes) (layout_of channel more) ≡ Some number
        → number ≡ number_at channel (layout_of channel notes).taken }
{}
