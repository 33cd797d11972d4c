//! The rows of a tail as columns.

ghost use Rattle.std.specs.Prelude.{◌≡◌, ◌≤◌, ◌<◌, length, map, IfOk};
ghost use Rattle.std.specs.List.{AllByRecursion};
ghost use Rattle.log_model.specs.Places.{Placed, IsColumn, width_of, vector_of};
ghost use Rattle.seg_sealed.specs.Segments.{kind_of, position_of, stamp_of, key_of, fields_of, field_at, int_of, bool_of, text_of, column_of, columns_from};

use binlog_format::Column;
use hybrid_time::Timestamp;
use log_model::TailRows;
use row_types::{Field, Key, Kind, List, Memory, Row, Text};
use std::alloc::Global;

/// The keys of some rows, and the words of their vectors in one column.
#[derive(Drop)]
pub(crate) struct Heads {
    pub(crate) keys: Vec<Key>,
    pub(crate) words: Vec<u64>,
}

pub(crate) fn positions_of<T: TailRows>(alloc: Global, from: &T) -> Result<Vec<u64>, Memory>
    ensures { IfOk result (λ positions. positions.items ≡ map position_of (T.rows from.now)) }
{
    let count = from.len();
    let mut positions = Vec::with_capacity(alloc, count as usize)?;
    'rows: for i in 0..count {
        positions.push(from.row(i).position)?;
    }
    Ok(positions)
}

pub(crate) fn stamps_of<T: TailRows>(alloc: Global, from: &T) -> Result<Vec<Timestamp>, Memory>
    ensures { IfOk result (λ stamps. stamps.items ≡ map stamp_of (T.rows from.now)) }
{
    let count = from.len();
    let mut stamps = Vec::with_capacity(alloc, count as usize)?;
    'rows: for i in 0..count {
        stamps.push(from.row(i).ts)?;
    }
    Ok(stamps)
}

/// The keys and the words in one walk, since both stand behind the row.
pub(crate) fn heads_of<T: TailRows>(alloc: Global, from: &T, dim: u32) -> Result<Heads, Memory>
    requires dim { dim ≤ 4096 }
    requires few { length (T.rows from.now) ≤ 65536 }
    requires fit { AllByRecursion (λ (x : Placed). length x.row.vector ≡ dim) (T.rows from.now) }
    ensures keys { IfOk result (λ heads. heads.keys.items ≡ map key_of (T.rows from.now)) }
    ensures words { IfOk result (λ heads. IsColumn (width_of dim) (map vector_of (T.rows from.now)) heads.words.items) }
{
    let count = from.len();
    let width = dim.div_ceil(64) as usize;
    let mut keys = Vec::with_capacity(alloc, count as usize)?;
    let mut words = Vec::with_capacity(alloc, count as usize * width)?;
    'rows: for i in 0..count {
        let row = from.row(i).row.get();
        keys.push(row.key)?;
        words.extend_from_slice(row.vector.words())?;
    }
    Ok(Heads { keys, words })
}

/// A column of each field, of the kinds that the first row's fields have.
pub(crate) fn columns_of<T: TailRows>(
    alloc: Global,
    from: &T,
    first: &[Field],
) -> Result<Vec<Column>, Memory>
    ensures { IfOk result (λ columns. columns.items ≡ columns_from 0 (map kind_of first.now) (map fields_of (T.rows from.now))) }
{
    let mut columns = Vec::with_capacity(alloc, first.len())?;
    'columns: for at in 0..first.len() {
        let column = column_at(alloc, from, at, kind_in(&first[at]))?;
        columns.push(column)?;
    }
    Ok(columns)
}

fn kind_in(field: &Field) -> Kind
    ensures { result ≡ kind_of field.now }
{
    match field {
        Field::Int(_) => Kind::Int,
        Field::Bool(_) => Kind::Bool,
        Field::Text(_) => Kind::Text,
    }
}

fn column_at<T: TailRows>(alloc: Global, from: &T, at: usize, kind: Kind) -> Result<Column, Memory>
    ensures { IfOk result (λ column. column ≡ column_of kind (map (field_at at) (map fields_of (T.rows from.now)))) }
{
    match kind {
        Kind::Int => Ok(Column::Ints(List::of(ints_at(alloc, from, at)?))),
        Kind::Bool => Ok(Column::Bools(List::of(bools_at(alloc, from, at)?))),
        Kind::Text => Ok(Column::Texts(List::of(texts_at(alloc, from, at)?))),
    }
}

fn ints_at<T: TailRows>(alloc: Global, from: &T, at: usize) -> Result<Vec<i64>, Memory>
    ensures { IfOk result (λ ints. ints.items ≡ map int_of (map (field_at at) (map fields_of (T.rows from.now)))) }
{
    let count = from.len();
    let mut ints = Vec::with_capacity(alloc, count as usize)?;
    'rows: for i in 0..count {
        let number = int_in(from.row(i).row.get(), at);
        ints.push(number)?;
    }
    Ok(ints)
}

fn bools_at<T: TailRows>(alloc: Global, from: &T, at: usize) -> Result<Vec<bool>, Memory>
    ensures { IfOk result (λ bools. bools.items ≡ map bool_of (map (field_at at) (map fields_of (T.rows from.now)))) }
{
    let count = from.len();
    let mut bools = Vec::with_capacity(alloc, count as usize)?;
    'rows: for i in 0..count {
        let truth = bool_in(from.row(i).row.get(), at);
        bools.push(truth)?;
    }
    Ok(bools)
}

fn texts_at<T: TailRows>(alloc: Global, from: &T, at: usize) -> Result<Vec<Text>, Memory>
    ensures { IfOk result (λ texts. texts.items ≡ map text_of (map (field_at at) (map fields_of (T.rows from.now)))) }
{
    let count = from.len();
    let mut texts = Vec::with_capacity(alloc, count as usize)?;
    'rows: for i in 0..count {
        let text = text_in(alloc, from.row(i).row.get(), at)?;
        texts.push(text)?;
    }
    Ok(texts)
}

fn int_in(row: &Row, at: usize) -> i64
    ensures { result ≡ int_of (field_at at row.now.fields) }
{
    match row.fields.as_slice().get(at) {
        Some(Field::Int(number)) => *number,
        _ => 0,
    }
}

fn bool_in(row: &Row, at: usize) -> bool
    ensures { result ≡ bool_of (field_at at row.now.fields) }
{
    match row.fields.as_slice().get(at) {
        Some(Field::Bool(truth)) => *truth,
        _ => false,
    }
}

fn text_in(alloc: Global, row: &Row, at: usize) -> Result<Text, Memory>
    ensures { IfOk result (λ text. text ≡ text_of (field_at at row.now.fields)) }
{
    match row.fields.as_slice().get(at) {
        Some(Field::Text(text)) => text.copy(alloc),
        _ => Text::copied(alloc, ""),
    }
}
