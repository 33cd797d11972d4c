//! The filter language: a text becomes a filter of a schema's columns, and a filter becomes a text.
//!
//! The layer above relies on `parse` being exact, so that it gives the filter that the grammar gives
//! or the first place where the text leaves the language, and on `print` being its inverse.
#![tactic(auto)]

ghost use Rattle.std.specs.Prelude.{◌≡◌, ◌⊎◌, ℕ, List, Ok, Err, IfOk, IfErr, IsTrue};
ghost use Rattle.row_types.specs.Schemas.{fits};
ghost use Rattle.filter_expr.specs.Grammar.{filter_of};
ghost use Rattle.filter_expr.specs.Printing.{text_of};

mod grammar;
mod lexer;
mod printing;
mod reading;
mod refusals;
#[cfg(test)]
mod tests;
mod tokens;

use crate::grammar::Grammar;
use crate::reading::Cursor;
pub use crate::refusals::FilterError;
pub use row_types::holds;
use row_types::{Filter, Memory, Schema, Text};
use std::alloc::Global;

/// How many `(` and `!` may be open at once.
const MOST_OPEN: u32 = 32;

/// The filter that a text spells, over the columns of a schema. A refusal tells the first place
/// where the text leaves the language.
#[tactic(auto, using(crate::proofs::KindLaws::filter_fits))]
pub fn parse(alloc: Global, text: &Text, schema: &Schema) -> Result<Filter, FilterError>
    ensures ok { IfOk result (λ filter. filter_of schema.now.columns text.now ≡ Ok filter) }
    ensures err { IfErr result (λ e. (e ≡ FilterError.Memory) ⊎ (filter_of schema.now.columns text.now ≡ Err e)) }
    // Each operand is there, and each operator and literal fits its kind.
    ensures of_schema { IfOk result (λ filter. IsTrue (fits schema.now.columns filter)) }
{
    read(alloc, text, schema)
}

#[tactic(auto, unfolding(crate::specs::Grammar::filter_of))]
fn read(alloc: Global, text: &Text, schema: &Schema) -> Result<Filter, FilterError>
    ensures ok { IfOk result (λ filter. filter_of schema.now.columns text.now ≡ Ok filter) }
    ensures err { IfErr result (λ e. (e ≡ FilterError.Memory) ⊎ (filter_of schema.now.columns text.now ≡ Err e)) }
{
    let bytes = text.as_str().as_bytes();
    let tokens = lexer::tokens(alloc, bytes)?;
    let grammar = Grammar {
        alloc,
        columns: schema.columns.as_slice(),
        end: bytes.len() as u64,
    };
    let mut rest = Cursor::new(&tokens);
    let filter = grammar.any(&mut rest, MOST_OPEN)?;
    match rest.peek() {
        Some(next) => Err(FilterError::Expected { at: next.at }),
        None => Ok(filter),
    }
}

/// The text of a filter, with brackets only where the grammar needs them. What some text was parsed
/// as, the printed text is parsed as again.
#[tactic(auto, using(crate::proofs::RoundTrip::read_again))]
pub fn print(alloc: Global, filter: &Filter, schema: &Schema) -> Result<Text, Memory>
    ensures text { IfOk result (λ text. text ≡ text_of schema.now.columns filter.now) }
    ensures again { IfOk result (λ text. (source : List ℕ) → filter_of schema.now.columns source ≡ Ok filter.now → filter_of schema.now.columns text ≡ Ok filter.now) }
{
    write(alloc, filter, schema)
}

fn write(alloc: Global, filter: &Filter, schema: &Schema) -> Result<Text, Memory>
    ensures { IfOk result (λ text. text ≡ text_of schema.now.columns filter.now) }
{
    let mut out = String::new(alloc);
    printing::write_filter(alloc, &mut out, schema.columns.as_slice(), filter)?;
    Ok(Text::of(out))
}
