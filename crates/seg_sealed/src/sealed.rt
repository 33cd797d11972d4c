//! A sealed segment by column.

ghost use Rattle.std.specs.Prelude.{◌≡◌, ◌<◌, ◌≤◌, ℕ, length, map, slice_get, Some, IfOk};
ghost use Rattle.std.specs.Option.{option_map, option_copied, IfSome};
ghost use Rattle.std.specs.List.{AllByRecursion};
ghost use Rattle.row_types.specs.Bits.{AreWordsOf};
ghost use Rattle.row_types.specs.Filters.{passes};
ghost use Rattle.binlog_format.specs.Inserts.{IsInsertLog};
ghost use Rattle.log_model.specs.Places.{IsColumn, width_of, vector_of};
ghost use Rattle.seg_sealed.specs.Segments.{IsSealed, SealedSegment, AreListsOf, with_lists, sealed_rows, position_of, stamp_of, key_of, log_of};
ghost use Rattle.seg_sealed.specs.Fields.{sealed_of};
ghost use Rattle.seg_sealed.specs.Runs.{IsRunLike, rows_of_runs, with_rows};

use crate::columns::{columns_of, heads_of, positions_of, stamps_of};
use crate::copies::{copy_columns, pack, unpack};
use crate::rows::{RowAt, fields_in, row_holds, vector_in, window};
use crate::runs::{Run, columns_in, keys_in, positions_in, rows_in, stamps_in, words_in};
use binlog_format::{Column, InsertLog, ListFile};
use hybrid_time::Timestamp;
use log_model::TailRows;
use row_types::{BitVector, Filter, Key, List, Memory, Row};
use std::alloc::Global;
use std::marker::Model;

/// A segment that no row is added to any more, stored by column. Contracts see its number, its
/// dimension, the kinds of its columns, its rows in order, and its lists.
#[derive(Debug, Drop)]
pub struct Sealed {
    number: u64,
    dim: u32,
    positions: Vec<u64>,
    stamps: Vec<Timestamp>,
    keys: Vec<Key>,
    words: Vec<u64>,
    columns: Vec<Column>,
    lists: Option<ListFile>,
}

impl Model for Sealed {
    ghost use Rattle.seg_sealed.specs.Segments.{SealedSegment, with_lists};
    ghost use Rattle.seg_sealed.specs.Fields.{sealed_of, log_in, KeepsColumns};

    ghost Value = { SealedSegment };

    ghost view = { λ s. with_lists (sealed_of (log_in s.number s.dim s.positions.items s.stamps.items s.keys.items s.words.items s.columns.items)) s.lists };

    ghost invariant = { λ s. KeepsColumns (log_in s.number s.dim s.positions.items s.stamps.items s.keys.items s.words.items s.columns.items) s.words.items s.lists };
}

impl Sealed {
    /// The segment of this number of some rows. Its dimension and the kinds of its columns are those
    /// of the first row.
    pub fn build<T: TailRows>(alloc: Global, number: u64, from: &T) -> Result<Sealed, Memory>
        requires { IsSealed (sealed_rows number (T.rows from.now)) }
        ensures { IfOk result (λ s. s ≡ sealed_rows number (T.rows from.now)) }
    {
        let first = from.row(0).row.get();
        let dim = first.vector.dim();
        let positions = positions_of(alloc, from)?;
        let stamps = stamps_of(alloc, from)?;
        let heads = heads_of(alloc, from, dim)?;
        let columns = columns_of(alloc, from, first.fields.as_slice())?;
        Ok(Sealed {
            number,
            dim,
            positions,
            stamps,
            keys: heads.keys,
            words: heads.words,
            columns,
            lists: None,
        })
    }

    /// The segment of this number of the rows of some runs in their order, with the dimension and the
    /// kinds of columns of a segment, and without lists. Each vector is copied once.
    pub fn of_runs(
        alloc: Global,
        number: u64,
        like: &Sealed,
        runs: &[Run<'_>],
    ) -> Result<Sealed, Memory>
        requires sealed { IsSealed (with_rows number like.now (rows_of_runs runs.now)) }
        requires alike { AllByRecursion (IsRunLike like.now) runs.now }
        ensures { IfOk result (λ s. s ≡ with_rows number like.now (rows_of_runs runs.now)) }
    {
        let count = rows_in(runs);
        let dim = like.dim();
        let positions = positions_in(alloc, runs, count)?;
        let stamps = stamps_in(alloc, runs, count)?;
        let keys = keys_in(alloc, runs, count)?;
        let words = words_in(alloc, runs, dim, count)?;
        let columns = columns_in(alloc, runs, like.columns(), count)?;
        Ok(Sealed {
            number,
            dim,
            positions,
            stamps,
            keys,
            words,
            columns,
            lists: None,
        })
    }

    /// The segment of an insert log, as one that was read; it has no lists.
    pub fn of_log(alloc: Global, log: InsertLog) -> Result<Sealed, Memory>
        requires { IsInsertLog log }
        ensures log { IfOk result (λ s. log_of s ≡ log) }
        ensures back { (s : SealedSegment) → IsSealed s → log_of s ≡ log → IfOk result (λ r. r ≡ with_lists s None) }
    {
        let words = pack(alloc, log.dim, log.vectors.as_slice())?;
        Ok(Sealed {
            number: log.segment,
            dim: log.dim,
            positions: log.positions.into_vec(),
            stamps: log.stamps.into_vec(),
            keys: log.keys.into_vec(),
            words,
            columns: log.columns.into_vec(),
            lists: None,
        })
    }

    /// The insert log of the segment: a copy of its rows in columns, whose vectors stand for
    /// themselves.
    pub fn to_log(&self, alloc: Global) -> Result<InsertLog, Memory>
        ensures log { IfOk result (λ log. log ≡ log_of self.now) }
        ensures valid { IfOk result (λ log. IsInsertLog log) }
    {
        let _number = self.number;
        self.copied(alloc)
    }

    fn copied(&self, alloc: Global) -> Result<InsertLog, Memory>
        ensures { IfOk result (λ log. log ≡ log_of self.now) }
    {
        let vectors = unpack(alloc, self.dim, self.positions.len(), self.words.as_slice())?;
        Ok(InsertLog {
            segment: self.number,
            dim: self.dim,
            positions: List::of(Vec::from_slice(alloc, self.positions.as_slice())?),
            stamps: List::of(Vec::from_slice(alloc, self.stamps.as_slice())?),
            keys: List::of(Vec::from_slice(alloc, self.keys.as_slice())?),
            vectors: List::of(vectors),
            columns: List::of(copy_columns(alloc, self.columns.as_slice())?),
        })
    }

    /// An equal segment with these lists of its rows.
    pub fn with_lists(&self, alloc: Global, file: ListFile) -> Result<Sealed, Memory>
        requires { AreListsOf self.now.number (length self.now.rows) file }
        ensures { IfOk result (λ s. s ≡ with_lists self.now (Some file)) }
    {
        Ok(Sealed {
            number: self.number,
            dim: self.dim,
            positions: Vec::from_slice(alloc, self.positions.as_slice())?,
            stamps: Vec::from_slice(alloc, self.stamps.as_slice())?,
            keys: Vec::from_slice(alloc, self.keys.as_slice())?,
            words: Vec::from_slice(alloc, self.words.as_slice())?,
            columns: copy_columns(alloc, self.columns.as_slice())?,
            lists: Some(file),
        })
    }

    /// The number of the segment, below 2^60.
    pub fn number(&self) -> u64
        ensures number { result ≡ self.now.number }
        ensures sealed { IsSealed self.now }
    {
        self.number
    }

    /// How many bits each row's vector has.
    pub fn dim(&self) -> u32
        ensures { result ≡ self.now.dim }
    {
        self.dim
    }

    /// How many rows there are, 1 to 65,536.
    pub fn len(&self) -> u32
        ensures { result ≡ length self.now.rows }
    {
        self.positions.len() as u32
    }

    /// The position of a row in the journal.
    pub fn position(&self, i: u32) -> u64
        requires { i < length self.now.rows }
        ensures { option_map position_of (slice_get self.now.rows i) ≡ Some result }
    {
        self.positions[i as usize]
    }

    /// The timestamp of a row.
    pub fn ts(&self, i: u32) -> Timestamp
        requires { i < length self.now.rows }
        ensures { option_map stamp_of (slice_get self.now.rows i) ≡ Some result }
    {
        self.stamps[i as usize]
    }

    /// The key of a row.
    pub fn key(&self, i: u32) -> Key
        requires { i < length self.now.rows }
        ensures { option_map key_of (slice_get self.now.rows i) ≡ Some result }
    {
        self.keys[i as usize]
    }

    /// A vector of its own, equal to that of a row.
    pub fn vector(&self, alloc: Global, i: u32) -> Result<BitVector, Memory>
        requires { i < length self.now.rows }
        ensures { IfOk result (λ v. option_map vector_of (slice_get self.now.rows i) ≡ Some v) }
    {
        vector_in(alloc, self.dim, self.words_at(i))
    }

    /// The words of a row's vector.
    pub fn words_at(&self, i: u32) -> &[u64]
        requires { i < length self.now.rows }
        ensures { IfSome (slice_get self.now.rows i) (λ x. AreWordsOf x.row.vector result.now) }
    {
        window(self.words.as_slice(), self.width(), i as usize)
    }

    /// A row of its own, equal to the one of this number.
    pub fn row(&self, alloc: Global, i: u32) -> Result<Row, Memory>
        requires { i < length self.now.rows }
        ensures { IfOk result (λ row. option_map (λ x. x.row) (slice_get self.now.rows i) ≡ Some row) }
    {
        let vector = self.vector(alloc, i)?;
        let fields = fields_in(alloc, self.columns.as_slice(), i as usize)?;
        Ok(Row {
            key: self.key(i),
            vector,
            fields: List::of(fields),
        })
    }

    /// Whether a row passes a filter, told from the columns; takes no memory.
    pub fn holds(&self, filter: &Filter, i: u32) -> bool
        requires { i < length self.now.rows }
        ensures { IfSome (slice_get self.now.rows i) (λ x. result ≡ passes x.row filter.now) }
    {
        let row = RowAt {
            key: self.key(i),
            columns: self.columns.as_slice(),
            at: i as usize,
        };
        row_holds(filter, &row)
    }

    /// The positions in order.
    pub fn positions(&self) -> &[u64]
        ensures { result.now ≡ map position_of self.now.rows }
    {
        self.positions.as_slice()
    }

    /// The timestamps in order, which do not fall.
    pub fn stamps(&self) -> &[Timestamp]
        ensures { result.now ≡ map stamp_of self.now.rows }
    {
        self.stamps.as_slice()
    }

    /// The keys in order.
    pub fn keys(&self) -> &[Key]
        ensures { result.now ≡ map key_of self.now.rows }
    {
        self.keys.as_slice()
    }

    /// The words of all vectors in one column, `width` words a row, one row after another.
    pub fn words(&self) -> &[u64]
        ensures { IsColumn (width_of self.now.dim) (map vector_of self.now.rows) result.now }
    {
        self.words.as_slice()
    }

    /// How many words each row's vector has.
    pub fn width(&self) -> usize
        ensures { result ≡ width_of self.now.dim }
    {
        self.dim.div_ceil(64) as usize
    }

    /// The columns of the fields in order, each with a value a row.
    pub fn columns(&self) -> &[Column]
        ensures { result.now ≡ (log_of self.now).columns }
    {
        self.columns.as_slice()
    }

    /// The lists of the rows, `None` exactly where they were not made.
    pub fn lists(&self) -> Option<&ListFile>
        ensures { option_copied result ≡ self.now.lists }
    {
        self.lists.as_ref()
    }
}
