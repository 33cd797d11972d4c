//! The rows of a channel that no segment has yet.

ghost use Rattle.std.specs.Prelude.{◌≡◌, ℕ, ◌+◌, ◌<◌, ◌≤◌, [], ◌∷◌, ◌++◌, length, slice_get, Some, IfOk, OnOk, OnErr};
ghost use Rattle.std.specs.List.{AllByRecursion};
ghost use Rattle.log_model.specs.Places.{placed, PlacedBefore};
ghost use Rattle.growing_segment.specs.Tails.{AreOfTail};

use crate::blocks::CHUNK_ROWS;
use crate::chunks::{Chunk, freeze_all, row_in};
use crate::shared_tail::SharedTail;
use hybrid_time::Timestamp;
use log_model::{SharedRow, TailRow, TailRows};
use row_types::Memory;
use std::alloc::Global;
use std::collections::VecDeque;
use std::marker::Model;
use std::mem;

/// The rows of a channel that no segment has yet, in the order in which they were put. Contracts see
/// their dimension, the rows, and how many more the tail takes without memory.
#[derive(Debug, Drop)]
pub struct Growing {
    dim: u32,
    frozen: Vec<Chunk>,
    latest: VecDeque<TailRow>,
}

impl Model for Growing {
    ghost use Rattle.std.specs.Prelude.{◌-◌, ◌++◌};
    ghost use Rattle.std.specs.VecDeque.{deque_len, deque_capacity};
    ghost use Rattle.growing_segment.specs.Tails.{Tail, rows_in};
    ghost use Rattle.growing_segment.specs.Kept.{KeepsTail};

    ghost Value = { Tail };

    ghost view = { λ g. record { dim = g.dim; rows = rows_in g.frozen.items ++ g.latest.items; spare = deque_capacity g.latest - deque_len g.latest } };

    ghost invariant = { λ g. KeepsTail g.dim g.frozen.items g.latest.items };
}

impl Growing {
    /// A tail without rows, for vectors of `dim` bits; takes no memory.
    pub fn new(alloc: Global, dim: u32) -> Growing
        requires { dim ≤ 4096 }
        ensures dim { result.dim ≡ dim }
        ensures rows { result.rows ≡ [] }
    {
        Growing {
            dim,
            frozen: Vec::new(alloc),
            latest: VecDeque::new(alloc),
        }
    }

    /// Room for `n` more rows. Want of memory leaves the tail as it was.
    pub fn reserve(&mut self, alloc: Global, n: u32) -> Result<(), Memory>
        ensures room { OnOk result (n ≤ self.new.spare) }
        ensures spare { self.old.spare ≤ self.new.spare }
        ensures dim { self.new.dim ≡ self.old.dim }
        ensures rows { self.new.rows ≡ self.old.rows }
    {
        freeze_all(alloc, self.dim, &mut self.frozen, &mut self.latest)?;
        self.latest.reserve(n as usize)?;
        Ok(())
    }

    /// Puts a row behind all others; takes no memory.
    pub fn push(&mut self, position: u64, ts: Timestamp, row: SharedRow)
        requires room { 1 ≤ self.old.spare }
        requires few { length self.old.rows < 65536 }
        requires fits { length row.vector ≡ self.old.dim }
        requires last { AllByRecursion (λ x. PlacedBefore x (placed position ts.0 row)) self.old.rows }
        ensures rows { self.new.rows ≡ self.old.rows ++ placed position ts.0 row ∷ [] }
        ensures dim { self.new.dim ≡ self.old.dim }
        ensures spare { self.old.spare ≡ self.new.spare + 1 }
    {
        self.latest
            .push_back_reserved(TailRow { position, ts, row });
    }

    /// The rows as they stand now, for readers that go on while the tail grows. Whole chunks are
    /// shared, and the owners of the latest rows are copied. Want of memory leaves the tail as it was.
    pub fn share(&mut self, alloc: Global) -> Result<SharedTail, Memory>
        ensures rows { IfOk result (λ shared. shared.rows ≡ self.old.rows) }
        ensures dim { IfOk result (λ shared. shared.dim ≡ self.old.dim) }
        ensures same_dim { self.new.dim ≡ self.old.dim }
        ensures same_rows { self.new.rows ≡ self.old.rows }
        ensures spare { self.old.spare ≤ self.new.spare }
    {
        freeze_all(alloc, self.dim, &mut self.frozen, &mut self.latest)?;
        SharedTail::of(alloc, self.dim, &self.frozen, &self.latest)
    }

    /// Hands all rows over, as at a boundary, and leaves an empty tail without room; takes no memory.
    pub fn take(&mut self, alloc: Global) -> Growing
        ensures handed { result ≡ self.old }
        ensures dim { self.new.dim ≡ self.old.dim }
        ensures rows { self.new.rows ≡ [] }
    {
        let empty = Growing::new(alloc, self.dim);
        mem::replace(self, empty)
    }

    /// Drops all rows and keeps the room; takes no memory.
    pub fn clear(&mut self)
        ensures dim { self.new.dim ≡ self.old.dim }
        ensures rows { self.new.rows ≡ [] }
        ensures spare { self.old.spare ≤ self.new.spare }
    {
        self.frozen.clear();
        self.latest.clear();
    }

    /// How many bits each row's vector has.
    pub fn dim(&self) -> u32
        ensures dim { result ≡ self.now.dim }
        ensures rows { AreOfTail self.now.dim self.now.rows }
    {
        self.dim
    }
}

impl TailRows for Growing {
    ghost rows = { λ tail. tail.rows };

    fn len(&self) -> u32 {
        (CHUNK_ROWS * self.frozen.len() + self.latest.len()) as u32
    }

    fn row(&self, i: u32) -> &TailRow {
        let at = i as usize;
        let frozen = CHUNK_ROWS * self.frozen.len();
        if at < frozen {
            return row_in(&self.frozen, at);
        }
        &self.latest[at - frozen]
    }
}
