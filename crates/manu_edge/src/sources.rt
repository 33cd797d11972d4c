//! Where the input comes from.

ghost use Rattle.std.specs.Prelude.{◌≡◌, ℕ, ◌-◌, ◌≤◌, [], List, length, min, drop, is_err, IsOk, IfOk, vec_len};
ghost use Rattle.std.specs.declared.option.Option.{Option};
ghost use Rattle.std.specs.declared.option.Option.TheVariants.{Some};
ghost use Rattle.std.specs.Io.{ReadsAtMost};
ghost use Rattle.std.specs.Io.KnownBytes.{ReadConsumes};
ghost use Rattle.manu_edge.specs.Faults.{HasCause, Counts, is_planned};
ghost use Rattle.manu_edge.specs.Telling.{TellsAlike};

use crate::faults::{Failed, FailurePlan};

/// Bytes that come one piece after another.
pub trait Source {
    // the bytes that are left, where they are told
    ghost left: { Self → Option (List ℕ) };

    // the faults so far
    ghost faults: { Self → ℕ };

    /// Fills the front of `into`, and says how many bytes; 0 for a place that is not empty is the end.
    fn read(&mut self, into: &mut [u8]) -> Result<usize, Failed>
        ensures bound { ReadsAtMost result into.new }
        ensures bytes { ReadConsumes (left self.old) (left self.new) result into.new }
        ensures cause { HasCause (faults self.old) (faults self.new) result }
        ensures telling { TellsAlike (left self.old) (left self.new) };
}

/// Bytes in memory.
#[derive(Debug, Drop)]
pub struct BytesSource {
    bytes: Vec<u8>,
    at: usize,
    plan: FailurePlan,
    ghost within: { at ≤ vec_len bytes },
}

impl BytesSource {
    /// A source of these bytes, whose calls of the numbers in `failing` fail, counted from 1.
    pub fn new(bytes: Vec<u8>, failing: Vec<u32>) -> BytesSource
        ensures left { ⟦<BytesSource as Source>⟧.left result ≡ Some bytes.items }
        ensures faults { ⟦<BytesSource as Source>⟧.faults result ≡ 0 }
        ensures failing { result.plan.failing.items ≡ failing.items }
        ensures calls { result.plan.calls ≡ 0 }
    {
        BytesSource {
            bytes,
            at: 0,
            plan: FailurePlan::new(failing),
        }
    }
}

impl Source for BytesSource {
    ghost left = { λ source. Some (drop source.at source.bytes.items) };

    ghost faults = { λ source. source.plan.faults };

    /// Gives as many bytes as fit.
    fn read(&mut self, into: &mut [u8]) -> Result<usize, Failed>
        ensures bound { ReadsAtMost result into.new }
        ensures bytes { ReadConsumes (Some (drop self.old.at self.old.bytes.items)) (Some (drop self.new.at self.new.bytes.items)) result into.new }
        ensures cause { HasCause self.old.plan.faults self.new.plan.faults result }
        ensures telling { TellsAlike (Some (drop self.old.at self.old.bytes.items)) (Some (drop self.new.at self.new.bytes.items)) }
        ensures whole { IfOk result (λ n. n ≡ min (vec_len self.old.bytes - self.old.at) (length into.new)) }
        ensures planned { is_err result ≡ is_planned self.old.plan }
        ensures counts { Counts self.old.plan self.new.plan (is_err result) }
        ensures unfailing { self.old.plan.failing.items ≡ [] → IsOk result }
    {
        self.plan.begin()?;
        let rest = &self.bytes[self.at..];
        let count = rest.len().min(into.len());
        into[..count].copy_from_slice(&rest[..count]);
        self.at += count;
        Ok(count)
    }
}
