//! Filters: what a search asks of the key and the columns of a row.

ghost use Rattle.std.specs.Prelude.{◌≡◌, true};
ghost use Rattle.row_types.specs.Filters.{value_at, field_cmp, meets, matches, is_among, passes, any_passes, all_pass};
ghost use Rattle.row_types.specs.Filters as spec;

use crate::lists::List;
use crate::rows::{Field, Row};
use sqlite_items::{Boxed, Items};
use std::cmp::Ordering;

/// What a filter reads of a row: its key, or the column at a place of the schema.
#[derive(Debug, Clone, Copy, PartialEq, Eq)]
pub enum Operand {
    Key,
    Column(u32),
}

/// How a value is compared with a literal.
#[derive(Debug, Clone, Copy, PartialEq, Eq)]
pub enum CompareOp {
    Equal,
    NotEqual,
    Less,
    LessEqual,
    Greater,
    GreaterEqual,
}

/// A condition on a row. A parsed `Any` or `All` has at least two members.
#[derive(Debug, Drop)]
pub enum Filter {
    Any(Items<Filter>),
    All(Items<Filter>),
    Not(Boxed<Filter>),
    Truth(Operand),
    Compare {
        left: Operand,
        op: CompareOp,
        right: Field,
    },
    OneOf {
        left: Operand,
        choices: List<Field>,
    },
}

/// Whether a row passes a filter.
#[cycle(holds)]
pub fn holds(filter: &Filter, row: &Row) -> bool
    ensures { result ≡ passes row.now filter.now }
{
    match filter {
        Filter::Any(members) => any_holds(members.as_slice(), row),
        Filter::All(members) => all_hold(members.as_slice(), row),
        Filter::Not(inner) => !holds(inner.get(), row),
        Filter::Truth(operand) => is_true(*operand, row),
        Filter::Compare { left, op, right } => compares(*left, *op, right, row),
        Filter::OneOf { left, choices } => is_one_of(*left, choices.as_slice(), row),
    }
}

#[cycle(holds)]
fn any_holds(members: &[Filter], row: &Row) -> bool
    ensures { result ≡ any_passes row.now members.now }
{
    for member in members {
        if holds(member, row) {
            return true;
        }
    }
    false
}

#[cycle(holds)]
fn all_hold(members: &[Filter], row: &Row) -> bool
    ensures { result ≡ all_pass row.now members.now }
{
    for member in members {
        if !holds(member, row) {
            return false;
        }
    }
    true
}

fn is_true(operand: Operand, row: &Row) -> bool
    ensures { result ≡ matches CompareOp.Equal (Field.Bool true) (value_at row.now operand) }
{
    compares(operand, CompareOp::Equal, &Field::Bool(true), row)
}

fn is_one_of(left: Operand, choices: &[Field], row: &Row) -> bool
    ensures { result ≡ is_among choices.now (value_at row.now left) }
{
    choices
        .iter()
        .any(|choice| compares(left, CompareOp::Equal, choice, row))
}

fn compares(left: Operand, op: CompareOp, right: &Field, row: &Row) -> bool
    ensures { result ≡ matches op right.now (value_at row.now left) }
{
    match left {
        Operand::Key => is_met(op, &Field::Int(row.key.0), right),
        Operand::Column(at) => match row.fields.as_slice().get(at as usize) {
            Some(value) => is_met(op, value, right),
            None => false,
        },
    }
}

fn is_met(op: CompareOp, left: &Field, right: &Field) -> bool
    ensures { result ≡ spec.is_met op (field_cmp left.now right.now) }
{
    match left.order(right) {
        Some(order) => op.allows(order),
        None => false,
    }
}

impl CompareOp {
    fn allows(self, order: Ordering) -> bool
        ensures { result ≡ meets self order }
    {
        match self {
            CompareOp::Equal => order.is_eq(),
            CompareOp::NotEqual => order.is_ne(),
            CompareOp::Less => order.is_lt(),
            CompareOp::LessEqual => order.is_le(),
            CompareOp::Greater => order.is_gt(),
            CompareOp::GreaterEqual => order.is_ge(),
        }
    }
}

impl Field {
    /// How two values of one kind are ordered: false before true, texts by their bytes.
    pub fn order(&self, other: &Field) -> Option<Ordering>
        ensures { result ≡ field_cmp self.now other.now }
    {
        match (self, other) {
            (Field::Int(a), Field::Int(b)) => Some(a.cmp(b)),
            (Field::Bool(a), Field::Bool(b)) => Some(a.cmp(b)),
            (Field::Text(a), Field::Text(b)) => Some(a.as_str().cmp(b.as_str())),
            _ => None,
        }
    }
}
