//! A tail's rows as they stood at one moment.

ghost use Rattle.std.specs.Prelude.{◌≡◌, ◌≤◌, ◌++◌, IfOk};
ghost use Rattle.std.specs.List.{AllByRecursion};
ghost use Rattle.growing_segment.specs.Tails.{AreOfTail, HasChunkDimension, rows_in};
ghost use Rattle.growing_segment.specs.Kept.{KeepsTail};

use crate::blocks::CHUNK_ROWS;
use crate::chunks::{Chunk, row_in};
use log_model::{TailRow, TailRows};
use row_types::Memory;
use std::alloc::Global;
use std::collections::VecDeque;
use std::marker::Model;

/// A tail's rows as they stood when [`crate::Growing::share`] was called. Contracts see their
/// dimension and the rows.
#[derive(Debug, Drop)]
pub struct SharedTail {
    dim: u32,
    chunks: Vec<Chunk>,
    latest: Vec<TailRow>,
}

impl Model for SharedTail {
    ghost use Rattle.std.specs.Prelude.{◌++◌};
    ghost use Rattle.growing_segment.specs.Tails.{Rows, rows_in};
    ghost use Rattle.growing_segment.specs.Kept.{KeepsTail};

    ghost Value = { Rows };

    ghost view = { λ t. record { dim = t.dim; rows = rows_in t.chunks.items ++ t.latest.items } };

    ghost invariant = { λ t. KeepsTail t.dim t.chunks.items t.latest.items };
}

impl SharedTail {
    /// The rows of chunks that are shared, and behind them those whose owners are copied.
    pub(crate) fn of(
        alloc: Global,
        dim: u32,
        frozen: &[Chunk],
        latest: &VecDeque<TailRow>,
    ) -> Result<SharedTail, Memory>
        requires { KeepsTail dim frozen.now latest.now.items }
        ensures dim { IfOk result (λ t. t.dim ≡ dim) }
        ensures rows { IfOk result (λ t. t.rows ≡ rows_in frozen.now ++ latest.now.items) }
    {
        let chunks = share_chunks(alloc, frozen)?;
        let latest = share_rows(alloc, latest)?;
        Ok(SharedTail {
            dim,
            chunks,
            latest,
        })
    }

    /// The rows in order: first those of whole chunks, each with its column of words, then the rest.
    pub fn parts(&self) -> (&[Chunk], &[TailRow])
        ensures rows { self.now.rows ≡ rows_in result.0.now ++ result.1.now }
        ensures dims { AllByRecursion (HasChunkDimension self.now.dim) result.0.now }
    {
        (self.chunks.as_slice(), self.latest.as_slice())
    }

    /// How many bits each row's vector has.
    pub fn dim(&self) -> u32
        ensures dim { result ≡ self.now.dim }
        ensures rows { AreOfTail self.now.dim self.now.rows }
    {
        self.dim
    }
}

// One more owner of each chunk.
fn share_chunks(alloc: Global, chunks: &[Chunk]) -> Result<Vec<Chunk>, Memory>
    ensures { IfOk result (λ v. v.items ≡ chunks.now) }
{
    let mut owners = Vec::with_capacity(alloc, chunks.len())?;
    'chunks: for chunk in chunks {
        owners.push(chunk.share()?)?;
    }
    Ok(owners)
}

// One more owner of each row.
fn share_rows(alloc: Global, rows: &VecDeque<TailRow>) -> Result<Vec<TailRow>, Memory>
    ensures { IfOk result (λ v. v.items ≡ rows.now.items) }
{
    let mut owners = Vec::with_capacity(alloc, rows.len())?;
    'rows: for at in 0..rows.len() {
        let row = &rows[at];
        owners.push(TailRow {
            position: row.position,
            ts: row.ts,
            row: row.row.share()?,
        })?;
    }
    Ok(owners)
}

impl TailRows for SharedTail {
    ghost rows = { λ tail. tail.rows };

    fn len(&self) -> u32 {
        (CHUNK_ROWS * self.chunks.len() + self.latest.len()) as u32
    }

    fn row(&self, i: u32) -> &TailRow {
        let at = i as usize;
        let frozen = CHUNK_ROWS * self.chunks.len();
        if at < frozen {
            return row_in(&self.chunks, at);
        }
        &self.latest[at - frozen]
    }
}
