//! Reading the members of a request: each function gives the value that the member has, or nothing
//! where it has none that an operation takes.

ghost use Rattle.std.specs.Prelude.{◌≡◌, ◌≤◌, Some, length, option_map, IfOk, IfSome};
ghost use Rattle.serde_json.specs.View.{view};
ghost use Rattle.row_types.specs.Bits.{IsDimension};
ghost use Rattle.request_lines.specs.Members.{max_caller, caller_at, key_at, vector_text_at, spelled, max_k, k_at, stated_delta, alone, level_of, level_at, wait_at};

use crate::values::{between, integer_at, number_or, text_at};
use hybrid_time::Level;
use row_types::{BitVector, Memory, VectorError};
use serde_json::Value;
use std::alloc::Global;

/// The greatest number of a caller.
const MAX_CALLER: u32 = 15;

/// The most hits that a search may ask for.
const MAX_K: u32 = 16_384;

/// The staleness of a search that names none, in milliseconds.
const USUAL_DELTA_MS: u32 = 5_000;

#[tactic(auto, unfolding(crate::specs::Members::caller_at))]
pub fn caller_at(value: &Value) -> Option<u32>
    ensures same { result ≡ caller_at (Some (view value.now)) }
    ensures most { IfSome result (λ caller. caller ≤ max_caller) }
{
    number_or(0, 0, MAX_CALLER, value.get("caller"))
}

#[tactic(auto, unfolding(crate::specs::Members::key_at))]
pub fn key_at(value: &Value) -> Option<i64>
    ensures { result ≡ key_at (Some (view value.now)) }
{
    integer_at(value, "key")
}

#[tactic(auto, unfolding(crate::specs::Members::vector_text_at))]
pub fn vector_text_at(value: &Value) -> Option<&str>
    ensures { option_map (λ s. s.now) result ≡ vector_text_at (Some (view value.now)) }
{
    text_at(value, "vector")
}

/// The vector that a text spells.
#[tactic(auto, unfolding(crate::specs::Members::spelled))]
pub fn spelled(alloc: Global, text: &str, dim: u32) -> Result<Option<BitVector>, Memory>
    requires { IsDimension dim }
    ensures same { IfOk result (λ vector. vector ≡ spelled dim text.now) }
    ensures dim { IfOk result (λ found. IfSome found (λ vector. length vector ≡ dim)) }
{
    match BitVector::from_digits(alloc, text, dim) {
        Ok(vector) => Ok(Some(vector)),
        Err(VectorError::Memory) => Err(Memory),
        Err(_) => Ok(None),
    }
}

#[tactic(auto, unfolding(crate::specs::Members::k_at))]
pub fn k_at(value: &Value) -> Option<u32>
    ensures same { result ≡ k_at (Some (view value.now)) }
    ensures least { IfSome result (λ k. 1 ≤ k) }
    ensures most { IfSome result (λ k. k ≤ max_k) }
{
    between(1, MAX_K, integer_at(value, "k")?)
}

fn delta_of(delta: Option<&Value>) -> Option<u32>
    ensures { result ≡ stated_delta (option_map (λ v. view v.now) delta.entry) }
{
    number_or(USUAL_DELTA_MS, 0, u32::MAX, delta)
}

fn alone(level: Level, delta: Option<&Value>) -> Option<Level>
    ensures { result ≡ alone level (option_map (λ v. view v.now) delta.entry) }
{
    match delta {
        Some(_) => None,
        None => Some(level),
    }
}

/// The level of a name, beside what stands at `delta_ms`.
fn level_of(delta: Option<&Value>, name: &str) -> Option<Level>
    ensures { result ≡ level_of (option_map (λ v. view v.now) delta.entry) name.now }
{
    match name {
        "Bounded" => Some(Level::Bounded {
            delta_ms: delta_of(delta)?,
        }),
        "Strong" => alone(Level::Strong, delta),
        "Session" => alone(Level::Session, delta),
        "Eventually" => alone(Level::Eventually, delta),
        _ => None,
    }
}

#[tactic(auto, unfolding(crate::specs::Members::level_at))]
pub fn level_at(value: &Value) -> Option<Level>
    ensures { result ≡ level_at (Some (view value.now)) }
{
    let name = match value.get("level") {
        Some(level) => level.as_str()?,
        None => "Bounded",
    };
    level_of(value.get("delta_ms"), name)
}

#[tactic(auto, unfolding(crate::specs::Members::wait_at))]
pub fn wait_at(value: &Value) -> Option<bool>
    ensures { result ≡ wait_at (Some (view value.now)) }
{
    match value.get("wait") {
        Some(wait) => wait.as_bool(),
        None => Some(true),
    }
}
