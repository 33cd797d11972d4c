//! Rows that no call changes any more, with their vectors' words in one column.

ghost use Rattle.std.specs.Prelude.{◌≡◌, ◌≤◌, ◌<◌, ◌*◌, ◌++◌, [], length, map, take, drop, slice_get, Some, IfOk, OnOk, OnErr};
ghost use Rattle.std.specs.Arc.{arc_value};
ghost use Rattle.std.specs.List.{AllByRecursion};
ghost use Rattle.std.specs.VecDeque.{deque_len, deque_capacity};
ghost use Rattle.log_model.specs.Places.{IsColumn, vector_of, width_of};
ghost use Rattle.growing_segment.specs.Tails.{HasDimension, HasChunkDimension, IsWhole, rows_in};

use crate::blocks::{Block, CHUNK_ROWS};
use log_model::TailRow;
use row_types::Memory;
use std::alloc::Global;
use std::collections::VecDeque;
use std::marker::Model;
use std::sync::Arc;

/// Rows that no call changes any more, of one dimension, with their vectors' words in one column.
/// A chunk has several owners.
#[derive(Debug, Drop)]
pub struct Chunk {
    block: Arc<Block, Global>,
}

impl Model for Chunk {
    ghost use Rattle.std.specs.Arc.{arc_value};
    ghost use Rattle.growing_segment.specs.Tails.{Rows};

    ghost Value = { Rows };

    ghost view = { λ c. arc_value c.block };
}

impl Chunk {
    /// The first 256 rows of a tail, which leave it. Want of memory leaves the tail as it was.
    pub(crate) fn freeze(
        alloc: Global,
        dim: u32,
        latest: &mut VecDeque<TailRow>,
    ) -> Result<Chunk, Memory>
        requires dim { dim ≤ 4096 }
        requires enough { 256 ≤ length latest.old.items }
        requires fit { AllByRecursion (HasDimension dim) latest.old.items }
        ensures dim { IfOk result (λ c. c.dim ≡ dim) }
        ensures rows { IfOk result (λ c. c.rows ≡ take 256 latest.old.items) }
        ensures rest { OnOk result (latest.new.items ≡ drop 256 latest.old.items) }
        ensures err { OnErr result (latest.new.items ≡ latest.old.items) }
        ensures capacity { deque_capacity latest.new ≡ deque_capacity latest.old }
    {
        let block = Block::new(alloc, dim)?;
        let mut block = Arc::new(alloc, block)?;
        // The block is new, so no one shares it.
        match Arc::get_mut(&mut block) {
            Some(own) => own.fill(latest),
            None => return Err(Memory),
        }
        Ok(Chunk { block })
    }

    /// One more owner of the chunk.
    pub fn share(&self) -> Result<Chunk, Memory>
        ensures { IfOk result (λ c. c ≡ self.now) }
    {
        let block = Arc::try_clone(&self.block)?;
        Ok(Chunk { block })
    }

    /// The rows in order.
    pub fn rows(&self) -> &[TailRow]
        ensures { result.now ≡ self.now.rows }
    {
        self.block.rows()
    }

    /// The words of the rows' vectors in one column, as many a row as its dimension needs.
    pub fn words(&self) -> &[u64]
        ensures { IsColumn (width_of self.now.dim) (map vector_of self.now.rows) result.now }
    {
        self.block.words()
    }

    /// How many bits each row's vector has.
    pub fn dim(&self) -> u32
        ensures { result ≡ self.now.dim }
    {
        self.block.dim()
    }
}

/// Freezes all whole chunks of a tail's latest rows. Want of memory leaves the rest as they were.
pub(crate) fn freeze_all(
    alloc: Global,
    dim: u32,
    frozen: &mut Vec<Chunk>,
    latest: &mut VecDeque<TailRow>,
) -> Result<(), Memory>
    requires dim { dim ≤ 4096 }
    requires fit { AllByRecursion (HasDimension dim) latest.old.items }
    requires whole { AllByRecursion IsWhole frozen.old.items }
    requires dims { AllByRecursion (HasChunkDimension dim) frozen.old.items }
    ensures rows { rows_in frozen.new.items ++ latest.new.items ≡ rows_in frozen.old.items ++ latest.old.items }
    ensures whole { AllByRecursion IsWhole frozen.new.items }
    ensures dims { AllByRecursion (HasChunkDimension dim) frozen.new.items }
    ensures fewer { deque_len latest.new ≤ deque_len latest.old }
    ensures capacity { deque_capacity latest.new ≡ deque_capacity latest.old }
{
    'chunks: while latest.len() >= CHUNK_ROWS {
        frozen.reserve(1)?;
        let chunk = Chunk::freeze(alloc, dim, latest)?;
        frozen.push_reserved(chunk);
    }
    Ok(())
}

/// The row at a place of whole chunks.
pub(crate) fn row_in(chunks: &[Chunk], at: usize) -> &TailRow
    requires whole { AllByRecursion IsWhole chunks.now }
    requires place { at < 256 * length chunks.now }
    ensures { slice_get (rows_in chunks.now) at ≡ Some result.now }
{
    &chunks[at / CHUNK_ROWS].rows()[at % CHUNK_ROWS]
}
