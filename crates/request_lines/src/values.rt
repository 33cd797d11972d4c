//! What stands in the JSON of a line.

ghost use Rattle.std.specs.Prelude.{◌≡◌, ◌≤◌, Some, map, option_map, IfOk, IfSome};
ghost use Rattle.std.specs.List.{list_any, list_all};
ghost use Rattle.std.specs.Str.{bytes_eq};
ghost use Rattle.std.specs.String.{string_bytes};
ghost use Rattle.std.specs.BTreeMap.{keys};
ghost use Rattle.serde_json.specs.View.{view};
ghost use Rattle.coarse_lists.specs.Collections.{IsWithin};
ghost use Rattle.request_lines.specs.Json.{line_of, text_at, integer_at, between, number_in, has_only, stated};

use row_types::Memory;
use serde_json::{Category, Map, Value};
use std::alloc::Global;

/// The value that the bytes of a line spell, if they spell one.
pub fn read_value(alloc: Global, bytes: &[u8]) -> Result<Option<Value>, Memory>
    ensures { IfOk result (λ found. option_map view found ≡ line_of bytes.now) }
{
    let Ok(text) = str::from_utf8(bytes) else {
        return Ok(None);
    };
    match Value::from_str(alloc, text) {
        Ok(value) => Ok(Some(value)),
        Err(error) if error.classify() == Category::Memory => Err(Memory),
        Err(_) => Ok(None),
    }
}

/// The text of a member.
pub fn text_at<'a>(value: &'a Value, name: &str) -> Option<&'a str>
    ensures { option_map (λ s. s.now) result ≡ text_at name.now (Some (view value.now)) }
{
    value.get(name).and_then(Value::as_str)
}

/// The integer of a member.
pub fn integer_at(value: &Value, name: &str) -> Option<i64>
    ensures { result ≡ integer_at name.now (Some (view value.now)) }
{
    value.get(name).and_then(Value::as_i64)
}

/// The number, where it is from `low` to `high`.
pub fn between(low: u32, high: u32, number: i64) -> Option<u32>
    ensures same { result ≡ between low high number }
    ensures least { IfSome result (λ n. low ≤ n) }
    ensures most { IfSome result (λ n. n ≤ high) }
{
    if number < i64::from(low) || number > i64::from(high) {
        return None;
    }
    Some(number as u32)
}

/// The integer that a member is, where it is from `low` to `high`; a member that is not there is
/// `usual`.
pub fn number_or(usual: u32, low: u32, high: u32, member: Option<&Value>) -> Option<u32>
    requires least { low ≤ usual }
    requires most { usual ≤ high }
    ensures same { result ≡ stated usual (number_in low high) (option_map (λ v. view v.now) member.entry) }
    ensures within { IfSome result (IsWithin low high) }
{
    match member {
        Some(value) => between(low, high, value.as_i64()?),
        None => Some(usual),
    }
}

fn is_among(names: &[&str], key: &str) -> bool
    ensures { result ≡ list_any (λ n. bytes_eq key.now n.now) names.now }
{
    names.iter().any(|name| key == *name)
}

fn keys_are(members: &Map<String, Value>, names: &[&str]) -> bool
    ensures { result ≡ list_all (λ k. list_any (λ n. bytes_eq (string_bytes k) n.now) names.now) (keys members.now) }
{
    members.keys().all(|key| is_among(names, key.as_str()))
}

/// Whether the value is an object with no other members than these.
pub fn has_only(value: &Value, names: &[&str]) -> bool
    ensures { result ≡ has_only (map (λ n. n.now) names.now) (Some (view value.now)) }
{
    match value.as_object() {
        Some(members) => keys_are(members, names),
        None => false,
    }
}
