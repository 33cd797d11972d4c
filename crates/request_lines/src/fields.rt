//! Reading the fields of a row.

ghost use Rattle.std.specs.Prelude.{◌≡◌, Some, IsTrue, IfOk, IfSome, option_map};
ghost use Rattle.serde_json.specs.View.{view, members_view};
ghost use Rattle.coarse_lists.specs.Schemas.{are_values};
ghost use Rattle.request_lines.specs.Members.{short_text, field_of, given_in, given_at, in_columns, fields_at};

use row_types::{Field, FieldError, List, Memory, Schema, Text};
use serde_json::{Map, Value};
use std::alloc::Global;

/// The most bytes of a text.
const MAX_TEXT: usize = 1_024;

fn short_text(alloc: Global, text: &str) -> Result<Option<Field>, Memory>
    ensures { IfOk result (λ field. field ≡ short_text text.now) }
{
    if text.len() > MAX_TEXT {
        return Ok(None);
    }
    Ok(Some(Field::Text(Text::copied(alloc, text)?)))
}

/// The value of a column that a JSON value is: an integer, a truth value, or a text that is not too
/// long.
#[tactic(auto, unfolding(crate::specs::Members::field_of))]
fn field_of(alloc: Global, value: &Value) -> Result<Option<Field>, Memory>
    ensures { IfOk result (λ field. field ≡ field_of (view value.now)) }
{
    match value {
        Value::Bool(bit) => Ok(Some(Field::Bool(*bit))),
        Value::Number(number) => Ok(number.as_i64().map(Field::Int)),
        Value::String(text) => short_text(alloc, text.as_str()),
        _ => Ok(None),
    }
}

/// The fields that the members of an object give, where each has a value of a column.
fn given_in(
    alloc: Global,
    members: &Map<String, Value>,
) -> Result<Option<Vec<(Text, Field)>>, Memory>
    ensures { IfOk result (λ given. option_map (λ v. v.items) given ≡ given_in (members_view members.now.entries)) }
{
    let mut given = Vec::new(alloc);
    'members: for (name, value) in members {
        match field_of(alloc, value)? {
            Some(field) => given.push((Text::copied(alloc, name.as_str())?, field))?,
            None => return Ok(None),
        }
    }
    Ok(Some(given))
}

#[tactic(auto, unfolding(crate::specs::Members::given_at))]
fn given_at(alloc: Global, value: &Value) -> Result<Option<Vec<(Text, Field)>>, Memory>
    ensures { IfOk result (λ given. option_map (λ v. v.items) given ≡ given_at (Some (view value.now))) }
{
    match value.get("fields") {
        Some(fields) => match fields.as_object() {
            Some(members) => given_in(alloc, members),
            None => Ok(None),
        },
        None => Ok(Some(Vec::new(alloc))),
    }
}

#[tactic(auto, unfolding(crate::specs::Members::in_columns))]
fn in_columns(
    alloc: Global,
    schema: &Schema,
    given: Vec<(Text, Field)>,
) -> Result<Option<List<Field>>, Memory>
    ensures { IfOk result (λ fields. fields ≡ in_columns schema.now.columns given.items) }
{
    match schema.arrange(alloc, given) {
        Ok(fields) => Ok(Some(fields)),
        Err(FieldError::Memory) => Err(Memory),
        Err(_) => Ok(None),
    }
}

/// The fields of a row in the order of the columns, where they are those of the columns.
pub fn fields_at(
    alloc: Global,
    value: &Value,
    schema: &Schema,
) -> Result<Option<List<Field>>, Memory>
    ensures same { IfOk result (λ fields. fields ≡ fields_at schema.now.columns (Some (view value.now))) }
    ensures values { IfOk result (λ found. IfSome found (λ fields. IsTrue (are_values schema.now.columns fields))) }
{
    match given_at(alloc, value)? {
        Some(given) => in_columns(alloc, schema, given),
        None => Ok(None),
    }
}
