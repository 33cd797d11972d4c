//! What the system answers, as the traits of this crate tell it.

ghost use Rattle.std.specs.Prelude.{◌≡◌, ℕ, ◌-◌, ◌/◌, ◌^◌, ◌<◌, ◌≤◌, length, min, is_err, IsErr, IfOk, OnErr, IfSome, IfNone, MatchResult, if◌then◌else◌};
ghost use Rattle.std.specs.Duration.{as_nanos};
ghost use Rattle.manu_edge.specs.Faults.{next};

use crate::faults::Failed;
use std::io;
use std::time::Duration;

/// The answer to a read: as many bytes as the system gave, or a failure where it failed.
pub fn read_answer(system: io::Result<usize>) -> Result<usize, Failed>
    ensures { MatchResult system (λ count. result ≡ Ok count) (λ _. IsErr result) }
{
    match system {
        Ok(count) => Ok(count),
        Err(_) => Err(Failed),
    }
}

/// The answer to a write of so many bytes: as many as the system took, or a failure where it failed
/// or took none of some.
pub fn write_answer(system: io::Result<usize>, asked: usize) -> Result<usize, Failed>
    ensures taken { IfOk system (λ count. 0 < count → result ≡ Ok count) }
    ensures none_asked { IfOk system (λ count. asked ≡ 0 → result ≡ Ok count) }
    ensures none_taken { IfOk system (λ count. count ≡ 0 → 0 < asked → IsErr result) }
    ensures failed { OnErr system (IsErr result) }
{
    match system {
        Ok(taken) if taken > 0 || asked == 0 => Ok(taken),
        _ => Err(Failed),
    }
}

/// The moment, in milliseconds, that lies so long behind the start of the clock's count; 0 where the
/// clock can't be read, and the greatest number where it doesn't fit.
pub fn moment_of(since: Option<Duration>) -> u64
    ensures told { IfSome since (λ duration. result ≡ min (as_nanos duration / 1_000_000) (2 ^ 64 - 1)) }
    ensures untold { IfNone since (result ≡ 0) }
{
    match since {
        Some(duration) => u64::try_from(duration.as_millis()).unwrap_or(u64::MAX),
        None => 0,
    }
}

/// A count of faults behind an answer.
pub fn counted(faults: u64, answer: &Result<usize, Failed>) -> u64
    ensures { result ≡ (if is_err answer.now then next faults else faults) }
{
    match answer {
        Ok(_) => faults,
        Err(Failed) => faults.saturating_add(1),
    }
}
