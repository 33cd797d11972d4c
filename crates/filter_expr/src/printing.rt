//! Writes the text of a filter.

ghost use Rattle.std.specs.Prelude.{◌≡◌, ◌++◌, codes, map, OnOk, IfOk, slice_get};
ghost use Rattle.std.specs.String.{string_bytes};
ghost use Rattle.filter_expr.specs.Printing as spec;

use row_types::{CompareOp, Field, Filter, Kind, Memory, Operand, Text};
use std::alloc::Global;

/// How tightly a filter holds together: `||` least, then `&&`.
#[derive(Debug, Clone, Copy, PartialEq, Eq)]
pub enum Level {
    Any,
    All,
    One,
}

impl Level {
    fn is_below(self, least: Level) -> bool
        ensures { result ≡ spec.is_below self least }
    {
        match (self, least) {
            (Level::Any, Level::All) => true,
            (Level::Any, Level::One) => true,
            (Level::All, Level::One) => true,
            _ => false,
        }
    }
}

fn push(out: &mut String, text: &str) -> Result<(), Memory>
    ensures { OnOk result (string_bytes out.new ≡ string_bytes out.old ++ text.now) }
{
    out.push_str(text)?;
    Ok(())
}

fn op_text(op: CompareOp) -> &'static str
    ensures { result.now ≡ spec.op_text op }
{
    match op {
        CompareOp::Equal => "==",
        CompareOp::NotEqual => "!=",
        CompareOp::Less => "<",
        CompareOp::LessEqual => "<=",
        CompareOp::Greater => ">",
        CompareOp::GreaterEqual => ">=",
    }
}

/// A text with a backslash before each quote and backslash.
fn escaped(alloc: Global, text: &str) -> Result<Vec<u8>, Memory>
    ensures { IfOk result (λ bytes. bytes.items ≡ spec.escaped text.now) }
{
    let mut bytes = Vec::new(alloc);
    for b in text.as_bytes() {
        let b = *b;
        if b == b'"' || b == b'\\' {
            bytes.push(b'\\')?;
        }
        bytes.push(b)?;
    }
    Ok(bytes)
}

fn write_quoted(alloc: Global, out: &mut String, text: &str) -> Result<(), Memory>
    ensures { OnOk result (string_bytes out.new ≡ string_bytes out.old ++ (codes "\"" ++ spec.escaped text.now ++ codes "\"")) }
{
    let content = quotable(alloc, text)?;
    push(out, "\"")?;
    push(out, content.as_str())?;
    push(out, "\"")
}

fn quotable(alloc: Global, text: &str) -> Result<String, Memory>
    ensures { IfOk result (λ content. string_bytes content ≡ spec.escaped text.now) }
{
    let bytes = escaped(alloc, text)?;
    let Ok(content) = String::from_utf8(bytes) else {
        unreachable!()
    };
    Ok(content)
}

fn write_int(alloc: Global, out: &mut String, number: i64) -> Result<(), Memory>
    ensures { OnOk result (string_bytes out.new ≡ string_bytes out.old ++ spec.literal_text (Field.Int number)) }
{
    let text = format!(in alloc; "{number}")?;
    push(out, text.as_str())
}

fn write_literal(alloc: Global, out: &mut String, literal: &Field) -> Result<(), Memory>
    ensures { OnOk result (string_bytes out.new ≡ string_bytes out.old ++ spec.literal_text literal.now) }
{
    match literal {
        Field::Int(number) => write_int(alloc, out, *number),
        Field::Bool(true) => push(out, "true"),
        Field::Bool(false) => push(out, "false"),
        Field::Text(text) => write_quoted(alloc, out, text.as_str()),
    }
}

fn write_choices(alloc: Global, out: &mut String, choices: &[Field]) -> Result<(), Memory>
    ensures { OnOk result (string_bytes out.new ≡ string_bytes out.old ++ spec.separated (codes ", ") (map spec.literal_text choices.now)) }
{
    let Some((first, others)) = choices.split_first() else {
        return Ok(());
    };
    write_literal(alloc, out, first)?;
    for choice in others {
        push(out, ", ")?;
        write_literal(alloc, out, choice)?;
    }
    Ok(())
}

fn write_operand(out: &mut String, columns: &[(Text, Kind)], operand: Operand) -> Result<(), Memory>
    ensures { OnOk result (string_bytes out.new ≡ string_bytes out.old ++ spec.operand_text columns.now operand) }
{
    match operand {
        Operand::Key => push(out, "key"),
        Operand::Column(at) => match columns.get(at as usize) {
            Some(column) => push(out, column.0.as_str()),
            None => Ok(()),
        },
    }
}

fn write_compare(
    alloc: Global,
    out: &mut String,
    columns: &[(Text, Kind)],
    left: Operand,
    op: CompareOp,
    right: &Field,
) -> Result<(), Memory>
    ensures { OnOk result (string_bytes out.new ≡ string_bytes out.old ++ (spec.operand_text columns.now left ++ codes " " ++ spec.op_text op ++ codes " " ++ spec.literal_text right.now)) }
{
    write_operand(out, columns, left)?;
    push(out, " ")?;
    push(out, op_text(op))?;
    push(out, " ")?;
    write_literal(alloc, out, right)
}

fn write_one_of(
    alloc: Global,
    out: &mut String,
    columns: &[(Text, Kind)],
    left: Operand,
    choices: &[Field],
) -> Result<(), Memory>
    ensures { OnOk result (string_bytes out.new ≡ string_bytes out.old ++ (spec.operand_text columns.now left ++ codes " in [" ++ spec.separated (codes ", ") (map spec.literal_text choices.now) ++ codes "]")) }
{
    write_operand(out, columns, left)?;
    push(out, " in [")?;
    write_choices(alloc, out, choices)?;
    push(out, "]")
}

fn level_of(filter: &Filter, columns: &[(Text, Kind)]) -> Level
    ensures { result ≡ (spec.written columns.now filter.now).0 }
{
    match filter {
        Filter::Any(_) => Level::Any,
        Filter::All(_) => Level::All,
        _ => Level::One,
    }
}

/// Writes a filter.
#[cycle(print)]
pub fn write_filter(
    alloc: Global,
    out: &mut String,
    columns: &[(Text, Kind)],
    filter: &Filter,
) -> Result<(), Memory>
    ensures { OnOk result (string_bytes out.new ≡ string_bytes out.old ++ spec.text_of columns.now filter.now) }
{
    match filter {
        Filter::Any(members) => {
            write_members(alloc, out, columns, members.as_slice(), " || ", Level::All)
        }
        Filter::All(members) => {
            write_members(alloc, out, columns, members.as_slice(), " && ", Level::One)
        }
        Filter::Not(inner) => {
            push(out, "!")?;
            write_part(alloc, out, columns, inner.get(), Level::One)
        }
        Filter::Truth(operand) => write_operand(out, columns, *operand),
        Filter::Compare { left, op, right } => {
            write_compare(alloc, out, columns, *left, *op, right)
        }
        Filter::OneOf { left, choices } => {
            write_one_of(alloc, out, columns, *left, choices.as_slice())
        }
    }
}

/// Writes a filter where a level is the least, in brackets if it is below that.
#[cycle(print)]
fn write_part(
    alloc: Global,
    out: &mut String,
    columns: &[(Text, Kind)],
    filter: &Filter,
    least: Level,
) -> Result<(), Memory>
    ensures { OnOk result (string_bytes out.new ≡ string_bytes out.old ++ spec.text_within columns.now least filter.now) }
{
    if !level_of(filter, columns).is_below(least) {
        return write_filter(alloc, out, columns, filter);
    }
    push(out, "(")?;
    write_filter(alloc, out, columns, filter)?;
    push(out, ")")
}

/// Writes the members of a level with a sign between.
#[cycle(print)]
fn write_members(
    alloc: Global,
    out: &mut String,
    columns: &[(Text, Kind)],
    members: &[Filter],
    sign: &str,
    least: Level,
) -> Result<(), Memory>
    ensures { OnOk result (string_bytes out.new ≡ string_bytes out.old ++ spec.members_text columns.now sign.now least members.now) }
{
    let Some((first, others)) = members.split_first() else {
        return Ok(());
    };
    write_part(alloc, out, columns, first, least)?;
    for member in others {
        push(out, sign)?;
        write_part(alloc, out, columns, member, least)?;
    }
    Ok(())
}
