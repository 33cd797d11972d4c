//! What a handoff owes in its own words. The call does nothing.

ghost use Rattle.std.specs.Prelude.{◌≡◌, ℕ, List};
ghost use Rattle.std.specs.List.{Contains};
ghost use Rattle.turn_facts.specs.Counts.{total};
ghost use Rattle.journal_model.specs.declared.notes.Note.{Note};
ghost use Rattle.journal_model.specs.Layouts.{Channel};
ghost use Rattle.shard_core.specs.Counting.{waiting_numbers};
ghost use Rattle.seat_walks.specs.Walks.{Turned};
ghost use Rattle.vault.specs.declared.notes.VaultNote.{VaultNote};
ghost use Rattle.vault.specs.Notes.{faults_in};
ghost use Rattle.handoff_calls.specs.Handoffs.{IsHandoff, notes_of};
ghost use Rattle.handoff_calls.specs.Facts.{IsHandedOver, IsStoredFirst};

/// As many segments are left as the vault's notes have failures, losses and damages; what is loaded was
/// stored before; and each segment that the look found waiting waited no longer in some journal of the
/// call, or has a failure, a loss or a damage on one of its objects.
pub fn handoffs_tell()
    ensures left { (channel : Channel) (nodes by keeps line left : ℕ) (turns : List (Turned Note)) (stores : List (Turned VaultNote))
        → IsHandoff channel nodes by keeps line left turns stores → left ≡ total faults_in (notes_of stores) }
    ensures stored_first { (channel : Channel) (nodes by keeps line left : ℕ) (turns : List (Turned Note)) (stores : List (Turned VaultNote))
        → IsHandoff channel nodes by keeps line left turns stores → IsStoredFirst keeps line turns stores }
    ensures handed_over { (channel : Channel) (nodes by keeps line left : ℕ) (turns : List (Turned Note)) (stores : List (Turned VaultNote))
        (is : IsHandoff channel nodes by keeps line left turns stores) (segment : ℕ)
        → Contains (waiting_numbers channel is.look.before) segment → IsHandedOver channel turns stores segment }
{}
