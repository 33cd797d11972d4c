//! Runs of rows of sealed segments, copied column by column.

ghost use Rattle.std.specs.Prelude.{◌≡◌, ◌≤◌, ◌<◌, ◌*◌, ◌++◌, take, drop, ◌-◌, length, map, slice_get, slice_range, Some, IfOk, OnOk};
ghost use Rattle.std.specs.List.{AllByRecursion};
ghost use Rattle.log_model.specs.Places.{Placed, IsColumn, width_of, vector_of};
ghost use Rattle.seg_sealed.specs.Segments.{position_of, stamp_of, key_of, fields_of, field_at, int_of, bool_of, text_of, column_of, columns_from};
ghost use Rattle.seg_sealed.specs.Fields.{kind_in};
ghost use Rattle.seg_sealed.specs.Runs.{RowRun, IsRun, run_rows, rows_of_runs, ints_in, bools_in, texts_in};

use crate::sealed::Sealed;
use binlog_format::Column;
use hybrid_time::Timestamp;
use row_types::{Key, Kind, List, Memory, Text};
use std::alloc::Global;
use std::marker::Model;

/// Some rows of a segment that is lent, one after another. Contracts see the segment, the number of
/// the first row, and that behind the last.
#[derive(Debug, Drop)]
pub struct Run<'a> {
    sealed: &'a Sealed,
    from: u32,
    to: u32,
}

impl<'a> Model for Run<'a> {
    ghost use Rattle.seg_sealed.specs.Runs.{RowRun, IsRun};

    ghost Value = { RowRun };

    ghost view = { λ r. record { segment = r.sealed.now; begin = r.from; end = r.to } };

    ghost invariant = { λ r. IsRun (record { segment = r.sealed.now; begin = r.from; end = r.to }) };
}

impl<'a> Run<'a> {
    /// The rows of a segment from one row number up to another.
    pub fn new(sealed: &'a Sealed, from: u32, to: u32) -> Run<'a>
        requires some { from < to }
        requires within { to ≤ length sealed.now.rows }
        ensures segment { result.segment ≡ sealed.now }
        ensures begin { result.begin ≡ from }
        ensures end { result.end ≡ to }
    {
        Run { sealed, from, to }
    }

    /// How many rows there are, at least 1.
    pub fn len(&self) -> usize
        ensures { result ≡ length (run_rows self.now) }
    {
        self.positions().len()
    }

    /// The positions of the rows in order.
    pub fn positions(&self) -> &[u64]
        ensures { result.now ≡ map position_of (run_rows self.now) }
    {
        &self.sealed.positions()[self.from as usize..self.to as usize]
    }

    fn stamps(&self) -> &[Timestamp]
        ensures { result.now ≡ map stamp_of (run_rows self.now) }
    {
        &self.sealed.stamps()[self.from as usize..self.to as usize]
    }

    fn keys(&self) -> &[Key]
        ensures { result.now ≡ map key_of (run_rows self.now) }
    {
        &self.sealed.keys()[self.from as usize..self.to as usize]
    }

    fn words(&self) -> &[u64]
        ensures { IsColumn (width_of self.now.segment.dim) (map vector_of (run_rows self.now)) result.now }
    {
        let width = self.sealed.width();
        windows(
            self.sealed.words(),
            width,
            self.from as usize,
            self.to as usize,
        )
    }

    fn ints(&self, at: usize) -> &[i64]
        requires { slice_get self.now.segment.kinds at ≡ Some Kind.Int }
        ensures { result.now ≡ map (λ (x : Placed). int_of (field_at at x.row.fields)) (run_rows self.now) }
    {
        let ints = ints_at(self.sealed.columns(), at);
        part(ints, self.from as usize, self.to as usize)
    }

    fn bools(&self, at: usize) -> &[bool]
        requires { slice_get self.now.segment.kinds at ≡ Some Kind.Bool }
        ensures { result.now ≡ map (λ (x : Placed). bool_of (field_at at x.row.fields)) (run_rows self.now) }
    {
        let bools = bools_at(self.sealed.columns(), at);
        part(bools, self.from as usize, self.to as usize)
    }

    fn texts(&self, at: usize) -> &[Text]
        requires { slice_get self.now.segment.kinds at ≡ Some Kind.Text }
        ensures { result.now ≡ map (λ (x : Placed). text_of (field_at at x.row.fields)) (run_rows self.now) }
    {
        let texts = texts_at(self.sealed.columns(), at);
        part(texts, self.from as usize, self.to as usize)
    }
}

/// The words of the rows from one place up to another in a column of words.
fn windows(words: &[u64], width: usize, from: usize, to: usize) -> &[u64]
    requires rise { from ≤ to }
    requires within { to * width ≤ length words.now }
    ensures { result.now ≡ take (to * width - from * width) (drop (from * width) words.now) }
{
    &words[from * width..to * width]
}

fn part<T>(items: &[T], from: usize, to: usize) -> &[T]
    requires rise { from ≤ to }
    requires within { to ≤ length items.now }
    ensures { result.now ≡ slice_range items.now from to }
{
    &items[from..to]
}

fn ints_at(columns: &[Column], at: usize) -> &[i64]
    ensures { result.now ≡ ints_in (slice_get columns.now at) }
{
    match columns.get(at) {
        Some(Column::Ints(ints)) => ints.as_slice(),
        _ => &[],
    }
}

fn bools_at(columns: &[Column], at: usize) -> &[bool]
    ensures { result.now ≡ bools_in (slice_get columns.now at) }
{
    match columns.get(at) {
        Some(Column::Bools(bools)) => bools.as_slice(),
        _ => &[],
    }
}

fn texts_at(columns: &[Column], at: usize) -> &[Text]
    ensures { result.now ≡ texts_in (slice_get columns.now at) }
{
    match columns.get(at) {
        Some(Column::Texts(texts)) => texts.as_slice(),
        _ => &[],
    }
}

/// How many rows the runs have.
pub(crate) fn rows_in(runs: &[Run<'_>]) -> usize
    requires { length (rows_of_runs runs.now) ≤ 65536 }
    ensures { result ≡ length (rows_of_runs runs.now) }
{
    let mut count = 0;
    'runs: for run in runs {
        count += run.len();
    }
    count
}

pub(crate) fn positions_in(
    alloc: Global,
    runs: &[Run<'_>],
    count: usize,
) -> Result<Vec<u64>, Memory>
    ensures { IfOk result (λ positions. positions.items ≡ map position_of (rows_of_runs runs.now)) }
{
    let mut positions = Vec::with_capacity(alloc, count)?;
    'runs: for run in runs {
        positions.extend_from_slice(run.positions())?;
    }
    Ok(positions)
}

pub(crate) fn stamps_in(
    alloc: Global,
    runs: &[Run<'_>],
    count: usize,
) -> Result<Vec<Timestamp>, Memory>
    ensures { IfOk result (λ stamps. stamps.items ≡ map stamp_of (rows_of_runs runs.now)) }
{
    let mut stamps = Vec::with_capacity(alloc, count)?;
    'runs: for run in runs {
        stamps.extend_from_slice(run.stamps())?;
    }
    Ok(stamps)
}

pub(crate) fn keys_in(alloc: Global, runs: &[Run<'_>], count: usize) -> Result<Vec<Key>, Memory>
    ensures { IfOk result (λ keys. keys.items ≡ map key_of (rows_of_runs runs.now)) }
{
    let mut keys = Vec::with_capacity(alloc, count)?;
    'runs: for run in runs {
        keys.extend_from_slice(run.keys())?;
    }
    Ok(keys)
}

/// The words of the rows' vectors in one column.
pub(crate) fn words_in(
    alloc: Global,
    runs: &[Run<'_>],
    dim: u32,
    count: usize,
) -> Result<Vec<u64>, Memory>
    requires dim { dim ≤ 4096 }
    requires count { count ≤ 65536 }
    requires alike { AllByRecursion (λ (run : RowRun). run.segment.dim ≡ dim) runs.now }
    ensures { IfOk result (λ words. IsColumn (width_of dim) (map vector_of (rows_of_runs runs.now)) words.items) }
{
    let width = dim.div_ceil(64) as usize;
    let mut words = Vec::with_capacity(alloc, count * width)?;
    'runs: for run in runs {
        words.extend_from_slice(run.words())?;
    }
    Ok(words)
}

/// The columns of the rows, of the kinds of some columns.
pub(crate) fn columns_in(
    alloc: Global,
    runs: &[Run<'_>],
    like: &[Column],
    count: usize,
) -> Result<Vec<Column>, Memory>
    requires { AllByRecursion (λ (run : RowRun). run.segment.kinds ≡ map kind_in like.now) runs.now }
    ensures { IfOk result (λ columns. columns.items ≡ columns_from 0 (map kind_in like.now) (map fields_of (rows_of_runs runs.now))) }
{
    let mut columns = Vec::with_capacity(alloc, like.len())?;
    'columns: for at in 0..like.len() {
        let column = column_in(alloc, runs, at, kind_of(&like[at]), count)?;
        columns.push(column)?;
    }
    Ok(columns)
}

fn kind_of(column: &Column) -> Kind
    ensures { result ≡ kind_in column.now }
{
    match column {
        Column::Ints(_) => Kind::Int,
        Column::Bools(_) => Kind::Bool,
        Column::Texts(_) => Kind::Text,
    }
}

fn column_in(
    alloc: Global,
    runs: &[Run<'_>],
    at: usize,
    kind: Kind,
    count: usize,
) -> Result<Column, Memory>
    requires { AllByRecursion (λ (run : RowRun). slice_get run.segment.kinds at ≡ Some kind) runs.now }
    ensures { IfOk result (λ column. column ≡ column_of kind (map (field_at at) (map fields_of (rows_of_runs runs.now)))) }
{
    match kind {
        Kind::Int => Ok(Column::Ints(List::of(ints_of(alloc, runs, at, count)?))),
        Kind::Bool => Ok(Column::Bools(List::of(bools_of(alloc, runs, at, count)?))),
        Kind::Text => Ok(Column::Texts(List::of(texts_of(alloc, runs, at, count)?))),
    }
}

fn ints_of(alloc: Global, runs: &[Run<'_>], at: usize, count: usize) -> Result<Vec<i64>, Memory>
    requires { AllByRecursion (λ (run : RowRun). slice_get run.segment.kinds at ≡ Some Kind.Int) runs.now }
    ensures { IfOk result (λ ints. ints.items ≡ map int_of (map (field_at at) (map fields_of (rows_of_runs runs.now)))) }
{
    let mut ints = Vec::with_capacity(alloc, count)?;
    'runs: for run in runs {
        ints.extend_from_slice(run.ints(at))?;
    }
    Ok(ints)
}

fn bools_of(alloc: Global, runs: &[Run<'_>], at: usize, count: usize) -> Result<Vec<bool>, Memory>
    requires { AllByRecursion (λ (run : RowRun). slice_get run.segment.kinds at ≡ Some Kind.Bool) runs.now }
    ensures { IfOk result (λ bools. bools.items ≡ map bool_of (map (field_at at) (map fields_of (rows_of_runs runs.now)))) }
{
    let mut bools = Vec::with_capacity(alloc, count)?;
    'runs: for run in runs {
        bools.extend_from_slice(run.bools(at))?;
    }
    Ok(bools)
}

fn texts_of(alloc: Global, runs: &[Run<'_>], at: usize, count: usize) -> Result<Vec<Text>, Memory>
    requires { AllByRecursion (λ (run : RowRun). slice_get run.segment.kinds at ≡ Some Kind.Text) runs.now }
    ensures { IfOk result (λ texts. texts.items ≡ map text_of (map (field_at at) (map fields_of (rows_of_runs runs.now)))) }
{
    let mut texts = Vec::with_capacity(alloc, count)?;
    'runs: for run in runs {
        append_texts(alloc, &mut texts, run.texts(at))?;
    }
    Ok(texts)
}

/// Adds a copy of each text.
fn append_texts(alloc: Global, texts: &mut Vec<Text>, more: &[Text]) -> Result<(), Memory>
    ensures { OnOk result (texts.new.items ≡ texts.old.items ++ more.now) }
{
    'texts: for text in more {
        let copy = text.copy(alloc)?;
        texts.push(copy)?;
    }
    Ok(())
}
