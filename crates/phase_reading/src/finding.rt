//! Where lines end.

ghost use Rattle.std.specs.Prelude.{◌≡◌, ◌+◌, ◌<◌, ◌∷◌, ◌++◌, length, take, drop, MatchOption};
ghost use Rattle.phase_reading.specs.Steps.{IsOpen};

use memchr::memchr;

// The bytes before the first LF, and those behind it; `None` where there is none.
pub fn cut_ended(bytes: &[u8]) -> Option<(&[u8], &[u8])>
    ensures { MatchOption result (IsOpen bytes.now) (λ parts. IsOpen parts.0.now × (bytes.now ≡ parts.0.now ++ 10 ∷ parts.1.now)) }
{
    match find_lf(bytes) {
        Some(at) => Some((&bytes[..at], &bytes[at + 1..])),
        None => None,
    }
}

// The place of the first LF.
fn find_lf(bytes: &[u8]) -> Option<usize>
    ensures { MatchOption result (IsOpen bytes.now) (λ at. (at < length bytes.now) × IsOpen (take at bytes.now)
        × (bytes.now ≡ take at bytes.now ++ 10 ∷ drop (at + 1) bytes.now)) }
{
    memchr(b'\n', bytes)
}
