//! Where the output goes.

ghost use Rattle.std.specs.Prelude.{◌≡◌, ◌⊎◌, ℕ, ◌+◌, ◌<◌, [], List, length, is_err, IsErr, IfOk, OnErr, IsTrue, vec_len, vec_capacity};
ghost use Rattle.std.specs.declared.option.Option.{Option};
ghost use Rattle.std.specs.declared.option.Option.TheVariants.{Some};
ghost use Rattle.std.specs.Io.{WritesAtMost};
ghost use Rattle.std.specs.Io.KnownBytes.{WriteAppends};
ghost use Rattle.manu_edge.specs.Faults.{HasCause, Rose, Counts, is_planned};
ghost use Rattle.manu_edge.specs.Telling.{TellsAlike};

use crate::faults::{Failed, FailurePlan};
use std::alloc::Global;

/// Bytes that go one piece after another.
pub trait Sink {
    // the bytes that were written, where they are told
    ghost written: { Self → Option (List ℕ) };

    // the faults so far
    ghost faults: { Self → ℕ };

    /// Takes the front of `piece`, and says how many bytes; none of a piece that is not empty is a fault.
    fn write(&mut self, piece: &[u8]) -> Result<usize, Failed>
        ensures bound { WritesAtMost result piece.now }
        ensures bytes { WriteAppends (written self.old) (written self.new) result piece.now }
        ensures cause { HasCause (faults self.old) (faults self.new) result }
        ensures none { IfOk result (λ n. n ≡ 0 → 0 < length piece.now → Rose (faults self.old) (faults self.new)) }
        ensures telling { TellsAlike (written self.old) (written self.new) };
}

/// Keeps what is written in memory.
#[derive(Debug, Drop)]
pub struct BytesSink {
    bytes: Vec<u8>,
    plan: FailurePlan,
}

impl BytesSink {
    /// An empty sink, whose calls of the numbers in `failing` fail, counted from 1.
    pub fn new(alloc: Global, failing: Vec<u32>) -> BytesSink
        ensures written { ⟦<BytesSink as Sink>⟧.written result ≡ Some [] }
        ensures faults { ⟦<BytesSink as Sink>⟧.faults result ≡ 0 }
        ensures failing { result.plan.failing.items ≡ failing.items }
        ensures calls { result.plan.calls ≡ 0 }
    {
        BytesSink {
            bytes: Vec::new(alloc),
            plan: FailurePlan::new(failing),
        }
    }

    /// What was written.
    pub fn as_slice(&self) -> &[u8]
        ensures { ⟦<BytesSink as Sink>⟧.written self.now ≡ Some result.now }
    {
        self.bytes.as_slice()
    }
}

impl Sink for BytesSink {
    ghost written = { λ sink. Some sink.bytes.items };

    ghost faults = { λ sink. sink.plan.faults };

    /// Takes the whole piece; where there is no memory for it, it takes nothing and fails.
    fn write(&mut self, piece: &[u8]) -> Result<usize, Failed>
        ensures bound { WritesAtMost result piece.now }
        ensures bytes { WriteAppends (Some self.old.bytes.items) (Some self.new.bytes.items) result piece.now }
        ensures cause { HasCause self.old.plan.faults self.new.plan.faults result }
        ensures none { IfOk result (λ n. n ≡ 0 → 0 < length piece.now → Rose self.old.plan.faults self.new.plan.faults) }
        ensures telling { TellsAlike (Some self.old.bytes.items) (Some self.new.bytes.items) }
        ensures whole { IfOk result (λ n. n ≡ length piece.now) }
        ensures planned { IsTrue (is_planned self.old.plan) → IsErr result }
        ensures unplanned { OnErr result (IsTrue (is_planned self.old.plan) ⊎ (vec_capacity self.old.bytes < vec_len self.old.bytes + length piece.now)) }
        ensures counts { Counts self.old.plan self.new.plan (is_err result) }
        ensures unfailing { self.old.plan.failing.items ≡ [] → OnErr result (vec_capacity self.old.bytes < vec_len self.old.bytes + length piece.now) }
    {
        self.plan.begin()?;
        match self.bytes.extend_from_slice(piece) {
            Ok(()) => Ok(piece.len()),
            Err(_) => Err(self.plan.fail()),
        }
    }
}
