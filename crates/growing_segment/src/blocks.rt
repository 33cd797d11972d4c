//! The memory of one chunk, filled once.

ghost use Rattle.std.specs.Prelude.{◌≡◌, ℕ, ◌+◌, ◌≤◌, ◌*◌, [], length, map, take, drop, IfOk, vec_len, vec_capacity};
ghost use Rattle.row_types.specs.Bits.{AreWordsOf};
ghost use Rattle.std.specs.List.{AllByRecursion};
ghost use Rattle.std.specs.VecDeque.{deque_capacity};
ghost use Rattle.log_model.specs.Places.{IsColumn, vector_of, width_of};
ghost use Rattle.growing_segment.specs.Tails.{HasDimension};

use log_model::TailRow;
use row_types::{Memory, Row};
use std::alloc::Global;
use std::collections::VecDeque;
use std::marker::Model;

/// How many rows a chunk has.
pub const CHUNK_ROWS: usize = 256;

/// The rows of a chunk, and the words of their vectors in one column.
#[derive(Debug, Drop)]
pub struct Block {
    dim: u32,
    rows: Vec<TailRow>,
    words: Vec<u64>,
}

impl Model for Block {
    ghost use Rattle.std.specs.Prelude.{vec_capacity};
    ghost use Rattle.growing_segment.specs.Tails.{Rows};
    ghost use Rattle.growing_segment.specs.Kept.{IsBlock};

    ghost Value = { Rows };

    ghost view = { λ b. record { dim = b.dim; rows = b.rows.items } };

    ghost invariant = { λ b. IsBlock b.dim b.rows.items b.words.items (vec_capacity b.rows) (vec_capacity b.words) };
}

impl Block {
    /// A block without rows, with room for a whole chunk.
    pub fn new(alloc: Global, dim: u32) -> Result<Block, Memory>
        requires { dim ≤ 4096 }
        ensures dim { IfOk result (λ b. b.dim ≡ dim) }
        ensures rows { IfOk result (λ b. b.rows ≡ []) }
    {
        let width = dim.div_ceil(64) as usize;
        let rows = Vec::with_capacity(alloc, CHUNK_ROWS)?;
        let words = Vec::with_capacity(alloc, CHUNK_ROWS * width)?;
        Ok(Block { dim, rows, words })
    }

    /// Moves the first rows of a tail into an empty block; takes no memory.
    pub fn fill(&mut self, latest: &mut VecDeque<TailRow>)
        requires empty { self.old.rows ≡ [] }
        requires enough { 256 ≤ length latest.old.items }
        requires fit { AllByRecursion (HasDimension self.old.dim) latest.old.items }
        ensures dim { self.new.dim ≡ self.old.dim }
        ensures rows { self.new.rows ≡ take 256 latest.old.items }
        ensures rest { latest.new.items ≡ drop 256 latest.old.items }
        ensures capacity { deque_capacity latest.new ≡ deque_capacity latest.old }
    {
        move_rows(latest, &mut self.rows, &mut self.words);
    }

    /// The rows in order.
    pub fn rows(&self) -> &[TailRow]
        ensures { result.now ≡ self.now.rows }
    {
        self.rows.as_slice()
    }

    /// The words of the rows' vectors.
    pub fn words(&self) -> &[u64]
        ensures { IsColumn (width_of self.now.dim) (map vector_of self.now.rows) result.now }
    {
        self.words.as_slice()
    }

    pub fn dim(&self) -> u32
        ensures { result ≡ self.now.dim }
    {
        self.dim
    }
}

// Moves the first rows of a tail, and packs the words of their vectors behind one another.
fn move_rows(latest: &mut VecDeque<TailRow>, rows: &mut Vec<TailRow>, words: &mut Vec<u64>)
    ghost dim: { ℕ }
    requires enough { 256 ≤ length latest.old.items }
    requires fit { AllByRecursion (HasDimension dim) latest.old.items }
    requires no_rows { rows.old.items ≡ [] }
    requires no_words { words.old.items ≡ [] }
    requires row_room { 256 ≤ vec_capacity rows.old }
    requires word_room { 256 * width_of dim ≤ vec_capacity words.old }
    ensures rows { rows.new.items ≡ take 256 latest.old.items }
    ensures rest { latest.new.items ≡ drop 256 latest.old.items }
    ensures capacity { deque_capacity latest.new ≡ deque_capacity latest.old }
    ensures column { IsColumn (width_of dim) (map vector_of rows.new.items) words.new.items }
    ensures row_room { vec_capacity rows.new ≡ vec_capacity rows.old }
    ensures word_room { vec_capacity words.old ≤ vec_capacity words.new }
{
    'rows: for _ in 0..CHUNK_ROWS {
        let Some(row) = latest.pop_front() else {
            unreachable!()
        };
        keep_words(words, row.row.get());
        rows.push_reserved(row);
    }
}

// Packs the words of a row's vector behind those that are there; takes no memory.
fn keep_words(words: &mut Vec<u64>, row: &Row)
    requires { vec_len words.old + width_of (length row.now.vector) ≤ vec_capacity words.old }
    ensures front { take (vec_len words.old) words.new.items ≡ words.old.items }
    ensures words { AreWordsOf row.now.vector (drop (vec_len words.old) words.new.items) }
    ensures len { vec_len words.new ≡ vec_len words.old + width_of (length row.now.vector) }
    ensures capacity { vec_capacity words.old ≤ vec_capacity words.new }
{
    let _ = words.extend_from_slice(row.vector.words());
}
