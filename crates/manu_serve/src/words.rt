//! The words of the command line.

ghost use Rattle.std.specs.Prelude.{◌≡◌, ◌↔◌, [], ◌∷◌, Some, codes};

use crate::paces::Pace;
use row_types::Text;

/// The pace that the words ask for; `None` where they are neither `run` nor `run --still`.
pub fn read_words(words: &[Text]) -> Option<Pace>
    ensures still { (result ≡ Some Pace.Still) ↔ (words.now ≡ codes "run" ∷ codes "--still" ∷ []) }
    ensures moving { (result ≡ Some Pace.Moving) ↔ (words.now ≡ codes "run" ∷ []) }
{
    match words {
        [run] if run.is("run") => Some(Pace::Moving),
        [run, still] if run.is("run") && still.is("--still") => Some(Pace::Still),
        _ => None,
    }
}
