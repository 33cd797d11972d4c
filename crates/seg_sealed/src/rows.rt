//! One row of columns.

ghost use Rattle.std.specs.Prelude.{◌≡◌, ◌+◌, ◌*◌, ◌≤◌, take, drop, map, length, pos, true, false, slice_index_or, slice_get, [], IfOk};
ghost use Rattle.row_types.specs.Bits.{bits_in, IsDimension};
ghost use Rattle.row_types.specs.Filters.{value_at, field_cmp, meets, is_met, matches, is_among, passes, any_passes, all_pass};
ghost use Rattle.log_model.specs.Places.{width_of};
ghost use Rattle.seg_sealed.specs.Fields.{value_in};

use binlog_format::Column;
use row_types::{BitVector, CompareOp, Field, Filter, Key, Memory, Operand, Text};
use std::alloc::Global;
use std::cmp::Ordering;
use std::marker::Model;

/// The vector of this dimension of some words.
pub(crate) fn vector_in(alloc: Global, dim: u32, words: &[u64]) -> Result<BitVector, Memory>
    requires dim { IsDimension dim }
    requires width { length words.now ≡ width_of dim }
    ensures { IfOk result (λ vector. vector ≡ take dim (bits_in 64 words.now)) }
{
    let mut bytes = Vec::with_capacity(alloc, 8 * words.len())?;
    'words: for word in words {
        bytes.extend_from_slice(&word.to_le_bytes())?;
    }
    bytes.truncate((dim / 8) as usize);
    BitVector::from_bytes(alloc, bytes.as_slice())
}

/// The words of the row at a place in a column of words.
pub(crate) fn window(words: &[u64], width: usize, at: usize) -> &[u64]
    requires { at * width + width ≤ length words.now }
    ensures { result.now ≡ take width (drop (at * width) words.now) }
{
    let from = at * width;
    &words[from..from + width]
}

/// The fields of a row of columns, each its own.
pub(crate) fn fields_in(alloc: Global, columns: &[Column], at: usize) -> Result<Vec<Field>, Memory>
    ensures { IfOk result (λ fields. fields.items ≡ map (value_in at) columns.now) }
{
    let mut fields = Vec::with_capacity(alloc, columns.len())?;
    'columns: for column in columns {
        let field = field_in(alloc, column, at)?;
        fields.push(field)?;
    }
    Ok(fields)
}

/// A field of its own, equal to the value of a row in a column.
fn field_in(alloc: Global, column: &Column, at: usize) -> Result<Field, Memory>
    ensures { IfOk result (λ field. field ≡ value_in at column.now) }
{
    match column {
        Column::Ints(ints) => Ok(Field::Int(int_at(ints.as_slice(), at))),
        Column::Bools(bools) => Ok(Field::Bool(bool_at(bools.as_slice(), at))),
        Column::Texts(texts) => {
            let text = Text::copied(alloc, text_at(texts.as_slice(), at))?;
            Ok(Field::Text(text))
        }
    }
}

fn int_at(ints: &[i64], at: usize) -> i64
    ensures { result ≡ slice_index_or ints.now at (pos 0) }
{
    match ints.get(at) {
        Some(number) => *number,
        None => 0,
    }
}

fn bool_at(bools: &[bool], at: usize) -> bool
    ensures { result ≡ slice_index_or bools.now at false }
{
    match bools.get(at) {
        Some(truth) => *truth,
        None => false,
    }
}

fn text_at(texts: &[Text], at: usize) -> &str
    ensures { result.now ≡ slice_index_or texts.now at [] }
{
    match texts.get(at) {
        Some(text) => text.as_str(),
        None => "",
    }
}

/// One row of columns, seen as the row with no vector.
#[derive(Drop)]
pub(crate) struct RowAt<'a> {
    pub(crate) key: Key,
    pub(crate) columns: &'a [Column],
    pub(crate) at: usize,
}

impl<'a> Model for RowAt<'a> {
    ghost use Rattle.std.specs.Prelude.{[], map};
    ghost use Rattle.row_types.specs.declared.rows.Row.{Row};
    ghost use Rattle.seg_sealed.specs.Fields.{value_in, row_of};

    ghost Value = { Row };

    ghost view = { λ r. row_of r.key [] (map (value_in r.at) r.columns.now) };
}

/// Whether a row passes a filter.
#[cycle(row_holds)]
pub(crate) fn row_holds(filter: &Filter, row: &RowAt<'_>) -> bool
    ensures { result ≡ passes row.now filter.now }
{
    match filter {
        Filter::Any(members) => any_holds(members.as_slice(), row),
        Filter::All(members) => all_hold(members.as_slice(), row),
        Filter::Not(inner) => !row_holds(inner.get(), row),
        Filter::Truth(operand) => is_true(*operand, row),
        Filter::Compare { left, op, right } => compares(*left, *op, right, row),
        Filter::OneOf { left, choices } => is_one_of(*left, choices.as_slice(), row),
    }
}

#[cycle(row_holds)]
fn any_holds(members: &[Filter], row: &RowAt<'_>) -> bool
    ensures { result ≡ any_passes row.now members.now }
{
    for member in members {
        if row_holds(member, row) {
            return true;
        }
    }
    false
}

#[cycle(row_holds)]
fn all_hold(members: &[Filter], row: &RowAt<'_>) -> bool
    ensures { result ≡ all_pass row.now members.now }
{
    for member in members {
        if !row_holds(member, row) {
            return false;
        }
    }
    true
}

fn is_true(operand: Operand, row: &RowAt<'_>) -> bool
    ensures { result ≡ matches CompareOp.Equal (Field.Bool true) (value_at row.now operand) }
{
    compares(operand, CompareOp::Equal, &Field::Bool(true), row)
}

fn is_one_of(left: Operand, choices: &[Field], row: &RowAt<'_>) -> bool
    ensures { result ≡ is_among choices.now (value_at row.now left) }
{
    choices
        .iter()
        .any(|choice| compares(left, CompareOp::Equal, choice, row))
}

fn compares(left: Operand, op: CompareOp, right: &Field, row: &RowAt<'_>) -> bool
    ensures { result ≡ matches op right.now (value_at row.now left) }
{
    match left {
        Operand::Key => is_allowed(op, Field::Int(row.key.0).order(right)),
        Operand::Column(place) => column_matches(row.columns, row.at, place, op, right),
    }
}

/// Whether the value of a row in the column at a place meets an operator and a literal.
fn column_matches(columns: &[Column], at: usize, place: u32, op: CompareOp, right: &Field) -> bool
    ensures { result ≡ matches op right.now (slice_get (map (value_in at) columns.now) place) }
{
    match columns.get(place as usize) {
        Some(column) => is_allowed(op, order(column, at, right)),
        None => false,
    }
}

/// How the value of a row in a column is ordered against another.
fn order(column: &Column, at: usize, right: &Field) -> Option<Ordering>
    ensures { result ≡ field_cmp (value_in at column.now) right.now }
{
    match (column, right) {
        (Column::Ints(ints), Field::Int(b)) => Some(int_at(ints.as_slice(), at).cmp(b)),
        (Column::Bools(bools), Field::Bool(b)) => Some(bool_at(bools.as_slice(), at).cmp(b)),
        (Column::Texts(texts), Field::Text(b)) => Some(text_at(texts.as_slice(), at).cmp(
            b.as_str(),
        )),
        _ => None,
    }
}

fn is_allowed(op: CompareOp, order: Option<Ordering>) -> bool
    ensures { result ≡ is_met op order }
{
    match order {
        Some(order) => allows(op, order),
        None => false,
    }
}

fn allows(op: CompareOp, order: Ordering) -> bool
    ensures { result ≡ meets op order }
{
    match op {
        CompareOp::Equal => order.is_eq(),
        CompareOp::NotEqual => order.is_ne(),
        CompareOp::Less => order.is_lt(),
        CompareOp::LessEqual => order.is_le(),
        CompareOp::Greater => order.is_gt(),
        CompareOp::GreaterEqual => order.is_ge(),
    }
}
