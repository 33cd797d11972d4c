//! Reading the filter of a search.

ghost use Rattle.std.specs.Prelude.{◌≡◌, Some, IsTrue, IfOk, IfSome};
ghost use Rattle.serde_json.specs.View.{view};
ghost use Rattle.row_types.specs.Schemas.{fits};
ghost use Rattle.request_lines.specs.Members.{is_blank, parsed, filter_in, filter_at};

use filter_expr::{FilterError, parse};
use row_types::{Filter, Memory, Schema, Text};
use serde_json::Value;
use std::alloc::Global;

/// The most bytes of a filter.
const MAX_FILTER: usize = 4_096;

fn is_blank(text: &[u8]) -> bool
    ensures { result ≡ is_blank text.now }
{
    text.iter().all(|b| *b == b' ')
}

#[tactic(auto, unfolding(crate::specs::Members::parsed))]
fn parsed(alloc: Global, text: &str, schema: &Schema) -> Result<Option<Filter>, Memory>
    ensures same { IfOk result (λ filter. filter ≡ parsed schema.now.columns text.now) }
    ensures fits { IfOk result (λ found. IfSome found (λ filter. IsTrue (fits schema.now.columns filter))) }
{
    let text = Text::copied(alloc, text)?;
    match parse(alloc, &text, schema) {
        Ok(filter) => Ok(Some(filter)),
        Err(FilterError::Memory) => Err(Memory),
        Err(_) => Ok(None),
    }
}

/// The filter that a text spells, or none where the text is blank.
fn filter_in(alloc: Global, text: &str, schema: &Schema) -> Result<Option<Option<Filter>>, Memory>
    ensures same { IfOk result (λ filter. filter ≡ filter_in schema.now.columns text.now) }
    ensures fits { IfOk result (λ found. IfSome found (λ filter. IfSome filter (λ f. IsTrue (fits schema.now.columns f)))) }
{
    if text.len() > MAX_FILTER {
        return Ok(None);
    }
    if is_blank(text.as_bytes()) {
        return Ok(Some(None));
    }
    match parsed(alloc, text, schema)? {
        Some(filter) => Ok(Some(Some(filter))),
        None => Ok(None),
    }
}

/// The filter of a search, or none where it names none.
#[tactic(auto, unfolding(crate::specs::Members::filter_at))]
pub fn filter_at(
    alloc: Global,
    value: &Value,
    schema: &Schema,
) -> Result<Option<Option<Filter>>, Memory>
    ensures same { IfOk result (λ filter. filter ≡ filter_at schema.now.columns (Some (view value.now))) }
    ensures fits { IfOk result (λ found. IfSome found (λ filter. IfSome filter (λ f. IsTrue (fits schema.now.columns f)))) }
{
    let Some(filter) = value.get("filter") else {
        return Ok(Some(None));
    };
    match filter.as_str() {
        Some(text) => filter_in(alloc, text, schema),
        None => Ok(None),
    }
}
