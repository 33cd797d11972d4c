//! Rows: a key, a vector and the fields that a schema names.

ghost use Rattle.std.specs.Prelude.{◌≡◌, IfOk};

use crate::allocation::Memory;
use crate::lists::List;
use crate::texts::Text;
use crate::vectors::BitVector;
use std::alloc::Global;

/// The number that names a row.
#[derive(Debug, Clone, Copy, PartialEq, Eq, PartialOrd, Ord, Hash)]
pub struct Key(pub i64);

/// The kind of a column.
#[derive(Debug, Clone, Copy, PartialEq, Eq)]
pub enum Kind {
    Int,
    Bool,
    Text,
}

/// A value of a column.
#[derive(Debug, Drop)]
pub enum Field {
    Int(i64),
    Bool(bool),
    Text(Text),
}

impl Field {
    /// An equal field.
    pub fn copy(&self, alloc: Global) -> Result<Field, Memory>
        ensures { IfOk result (λ f. f ≡ self.now) }
    {
        match self {
            Field::Int(number) => Ok(Field::Int(*number)),
            Field::Bool(bit) => Ok(Field::Bool(*bit)),
            Field::Text(text) => Ok(Field::Text(text.copy(alloc)?)),
        }
    }
}

/// A row; its fields stand in the order of the schema's columns.
#[derive(Debug, Drop)]
pub struct Row {
    pub key: Key,
    pub vector: BitVector,
    pub fields: List<Field>,
}

impl Row {
    /// An equal row.
    pub fn copy(&self, alloc: Global) -> Result<Row, Memory>
        ensures { IfOk result (λ r. r ≡ self.now) }
    {
        let vector = self.vector.copy(alloc)?;
        let fields = copy_fields(alloc, self.fields.as_slice())?;
        Ok(Row {
            key: self.key,
            vector,
            fields: List::of(fields),
        })
    }
}

fn copy_fields(alloc: Global, fields: &[Field]) -> Result<Vec<Field>, Memory>
    ensures { IfOk result (λ v. v.items ≡ fields.now) }
{
    let mut copies = Vec::with_capacity(alloc, fields.len())?;
    'fields: for field in fields {
        copies.push(field.copy(alloc)?)?;
    }
    Ok(copies)
}

/// The columns of a collection, each with its name and its kind.
#[derive(Debug, Drop)]
pub struct Schema {
    pub columns: List<(Text, Kind)>,
}

impl Schema {
    /// An equal schema.
    pub fn copy(&self, alloc: Global) -> Result<Schema, Memory>
        ensures { IfOk result (λ s. s ≡ self.now) }
    {
        let columns = copy_columns(alloc, self.columns.as_slice())?;
        Ok(Schema {
            columns: List::of(columns),
        })
    }
}

fn copy_columns(alloc: Global, columns: &[(Text, Kind)]) -> Result<Vec<(Text, Kind)>, Memory>
    ensures { IfOk result (λ v. v.items ≡ columns.now) }
{
    let mut copies = Vec::with_capacity(alloc, columns.len())?;
    'columns: for column in columns {
        let (name, kind) = column;
        copies.push((name.copy(alloc)?, *kind))?;
    }
    Ok(copies)
}
