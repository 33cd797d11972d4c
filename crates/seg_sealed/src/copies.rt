//! Columns copied, and vectors packed into words and taken out of them.

ghost use Rattle.std.specs.Prelude.{◌≡◌, ◌≤◌, ◌*◌, length, IfOk};
ghost use Rattle.std.specs.List.{AllByRecursion};
ghost use Rattle.row_types.specs.Bits.{IsDimension};
ghost use Rattle.log_model.specs.Places.{IsColumn, width_of};
ghost use Rattle.seg_sealed.specs.Fields.{vectors_in};

use crate::rows::vector_in;
use binlog_format::Column;
use row_types::{BitVector, List, Memory, Text};
use std::alloc::Global;

pub(crate) fn copy_columns(alloc: Global, columns: &[Column]) -> Result<Vec<Column>, Memory>
    ensures { IfOk result (λ copies. copies.items ≡ columns.now) }
{
    let mut copies = Vec::with_capacity(alloc, columns.len())?;
    'columns: for column in columns {
        let copy = copy_column(alloc, column)?;
        copies.push(copy)?;
    }
    Ok(copies)
}

fn copy_column(alloc: Global, column: &Column) -> Result<Column, Memory>
    ensures { IfOk result (λ copy. copy ≡ column.now) }
{
    match column {
        Column::Ints(ints) => {
            let copies = Vec::from_slice(alloc, ints.as_slice())?;
            Ok(Column::Ints(List::of(copies)))
        }
        Column::Bools(bools) => {
            let copies = Vec::from_slice(alloc, bools.as_slice())?;
            Ok(Column::Bools(List::of(copies)))
        }
        Column::Texts(texts) => {
            let copies = copy_texts(alloc, texts.as_slice())?;
            Ok(Column::Texts(List::of(copies)))
        }
    }
}

fn copy_texts(alloc: Global, texts: &[Text]) -> Result<Vec<Text>, Memory>
    ensures { IfOk result (λ copies. copies.items ≡ texts.now) }
{
    let mut copies = Vec::with_capacity(alloc, texts.len())?;
    'texts: for text in texts {
        let copy = text.copy(alloc)?;
        copies.push(copy)?;
    }
    Ok(copies)
}

/// The words of vectors of one dimension in one column.
pub(crate) fn pack(alloc: Global, dim: u32, vectors: &[BitVector]) -> Result<Vec<u64>, Memory>
    requires dim { dim ≤ 4096 }
    requires few { length vectors.now ≤ 65536 }
    requires fit { AllByRecursion (λ vector. length vector ≡ dim) vectors.now }
    ensures { IfOk result (λ words. IsColumn (width_of dim) vectors.now words.items) }
{
    let width = dim.div_ceil(64) as usize;
    let mut words = Vec::with_capacity(alloc, vectors.len() * width)?;
    'vectors: for vector in vectors {
        words.extend_from_slice(vector.words())?;
    }
    Ok(words)
}

/// The vectors of this dimension that stand in a column of words.
pub(crate) fn unpack(
    alloc: Global,
    dim: u32,
    count: usize,
    words: &[u64],
) -> Result<Vec<BitVector>, Memory>
    requires dim { IsDimension dim }
    requires whole { count * width_of dim ≤ length words.now }
    ensures { IfOk result (λ vectors. vectors.items ≡ vectors_in dim count words.now) }
{
    let width = dim.div_ceil(64) as usize;
    let mut vectors = Vec::with_capacity(alloc, count)?;
    let mut rest = words;
    'rows: for _ in 0..count {
        let (here, after) = rest.split_at(width);
        let vector = vector_in(alloc, dim, here)?;
        vectors.push(vector)?;
        rest = after;
    }
    Ok(vectors)
}
