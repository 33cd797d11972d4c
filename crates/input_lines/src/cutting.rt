//! Lines, one after another.

ghost use Rattle.std.specs.Prelude.{◌≡◌, ◌≢◌, ℕ, ◌∷◌, ◌<◌, ◌≤◌, [], length, slice_index, MatchOption};
ghost use Rattle.input_lines.specs.Lines.{lines_of};

/// The byte that ends a line.
const LF: u8 = b'\n';

/// The first line of `rest`, without its LF, and the bytes behind it; `None` where nothing is left.
pub fn cut_line(rest: &[u8]) -> Option<(&[u8], &[u8])>
    ensures cut { MatchOption result (rest.now ≡ []) (λ parts. lines_of rest.now ≡ parts.0.now ∷ lines_of parts.1.now) }
    ensures shorter { MatchOption result (rest.now ≡ []) (λ parts. length parts.1.now < length rest.now) }
{
    if rest.is_empty() {
        return None;
    }
    let end = find_end(rest, 0);
    if end == rest.len() {
        Some((rest, &[]))
    } else {
        Some((&rest[..end], &rest[end + 1..]))
    }
}

/// The place of the first LF at or behind `from`, or the length where there is none.
pub fn find_end(bytes: &[u8], from: usize) -> usize
    requires { from ≤ length bytes.now }
    ensures behind { from ≤ result }
    ensures within { result ≤ length bytes.now }
    ensures before { (k : ℕ) → from ≤ k → k < result → slice_index bytes.now k ≢ LF }
    ensures found { result < length bytes.now → slice_index bytes.now result ≡ LF }
{
    'bytes: for i in from..bytes.len() {
        if bytes[i] == LF {
            return i;
        }
    }
    bytes.len()
}

#[cfg(test)]
mod tests {
    use super::*;
    use std::test::Fail;

    #[test]
    fn cuts_lines_until_nothing_is_left(rt: HostRuntime) -> Result<(), Fail> {
        let (first, rest) = cut_line(b"ab\n\nc").ok_or("a first line")?;
        assert_eq!(rt; first, b"ab".as_slice());
        let (second, rest) = cut_line(rest).ok_or("a second line")?;
        assert_eq!(rt; second.len(), 0);
        let (third, rest) = cut_line(rest).ok_or("a third line")?;
        assert_eq!(rt; third, b"c".as_slice());
        assert!(rt; cut_line(rest).is_none());
        Ok(())
    }
}
