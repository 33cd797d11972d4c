//! The limits on an input, told while its bytes come.

ghost use Rattle.std.specs.Prelude.{◌≡◌, ℕ, List, ◌∷◌, ◌++◌, ◌↔◌, ◌≤◌, OnErr, IfOk, Some};
ghost use Rattle.std.specs.Option.{unwrap_or};
ghost use Rattle.input_lines.specs.declared.limits.TheConstants.{MAX_LINE, MAX_LINES};
ghost use Rattle.input_lines.specs.Lines.{lines_of};
ghost use Rattle.input_lines.specs.Limits.{HasFewLines, LimitsBehind};

/// Bytes of an input.
pub const MAX_INPUT: usize = 67_108_864;

/// Bytes of a line, its LF not counted.
pub const MAX_LINE: u32 = 2_097_152;

/// Lines of an input.
pub const MAX_LINES: u32 = 262_144;

/// A line has too many bytes, or the input too many lines.
#[derive(Debug, Clone, Copy, PartialEq, Eq)]
pub struct Over;

/// How far the bytes have come: the lines that have begun, and the bytes of the last one while it
/// has not ended.
#[derive(Debug, Clone, Copy)]
pub struct Progress {
    pub lines: u32,
    pub current: Option<u32>,
    pub ghost few: { lines ≤ MAX_LINES },
    pub ghost short: { unwrap_or current 0 ≤ MAX_LINE },
}

impl Progress {
    /// Before the first byte.
    pub fn start() -> Progress
        ensures lines { (input : List ℕ) → LimitsBehind result.lines result.current (lines_of input) ↔ HasFewLines input }
    {
        Progress {
            lines: 0,
            current: None,
        }
    }

    /// Behind `bytes`, or `Over` where they pass a limit, whatever comes behind them.
    pub fn walk(self, bytes: &[u8]) -> Result<Progress, Over>
        ensures within { IfOk result (λ after. (rest : List ℕ) →
            LimitsBehind self.lines self.current (lines_of (bytes.now ++ rest)) ↔ LimitsBehind after.lines after.current (lines_of rest)) }
        ensures over { OnErr result ((rest : List ℕ) → ¬ LimitsBehind self.lines self.current (lines_of (bytes.now ++ rest))) }
    {
        let mut progress = self;
        for byte in bytes {
            progress = progress.step(*byte)?;
        }
        Ok(progress)
    }

    fn step(self, byte: u8) -> Result<Progress, Over>
        ensures within { IfOk result (λ after. (rest : List ℕ) →
            LimitsBehind self.lines self.current (lines_of (byte ∷ rest)) ↔ LimitsBehind after.lines after.current (lines_of rest)) }
        ensures over { OnErr result ((rest : List ℕ) → ¬ LimitsBehind self.lines self.current (lines_of (byte ∷ rest))) }
    {
        match self.current {
            Some(bytes) => extend(self.lines, bytes, byte),
            None if self.lines >= MAX_LINES => Err(Over),
            None => extend(self.lines + 1, 0, byte),
        }
    }
}

// One byte more in the line of number `lines`, which has this many bytes.
fn extend(lines: u32, bytes: u32, byte: u8) -> Result<Progress, Over>
    requires lines { lines ≤ MAX_LINES }
    requires bytes { bytes ≤ MAX_LINE }
    ensures within { IfOk result (λ after. (rest : List ℕ) →
        LimitsBehind lines (Some bytes) (lines_of (byte ∷ rest)) ↔ LimitsBehind after.lines after.current (lines_of rest)) }
    ensures over { OnErr result ((rest : List ℕ) → ¬ LimitsBehind lines (Some bytes) (lines_of (byte ∷ rest))) }
{
    if byte == b'\n' {
        return Ok(Progress {
            lines,
            current: None,
        });
    }
    if bytes >= MAX_LINE {
        return Err(Over);
    }
    Ok(Progress {
        lines,
        current: Some(bytes + 1),
    })
}

#[cfg(test)]
mod tests {
    use super::*;
    use std::test::Fail;

    fn after_lines(rt: HostRuntime, lines: u32) -> Result<Result<Progress, Over>, Fail> {
        let bytes = vec![in rt.alloc(); b'\n'; lines as usize]?;
        Ok(Progress::start().walk(&bytes))
    }

    #[test]
    fn tells_the_line_too_many_and_the_byte_too_many(rt: HostRuntime) -> Result<(), Fail> {
        let all = after_lines(rt, MAX_LINES)?;
        assert!(rt; all.is_ok_and(|p| p.walk(b"x").is_err()));
        let line = vec![in rt.alloc(); b'x'; MAX_LINE as usize]?;
        let whole = Progress::start().walk(&line);
        assert!(rt; whole.is_ok_and(|p| p.walk(b"\n").is_ok() && p.walk(b"x").is_err()));
        Ok(())
    }
}
