//! The operations that a line can name, and what they ask.

ghost use Rattle.std.specs.Prelude.{◌≡◌, ◌≤◌, Some, Ok, IfOk, IfErr, length};
ghost use Rattle.serde_json.specs.View.{view};
ghost use Rattle.row_types.specs.Bits.{IsDimension};
ghost use Rattle.coarse_lists.specs.Collections.{IsRowOf};
ghost use Rattle.coarse_lists.specs.declared.collections.Collection.{Collection as Spec};
ghost use Rattle.request_lines.specs.Json.{named, has_only};
ghost use Rattle.request_lines.specs.Requests.{operations, members_of, operation_at, FitsAsk, Refuses};
ghost use Rattle.request_lines.specs.Members.{max_caller};
ghost use Rattle.request_lines.specs.Parts.{operation_read, caller_read, vector_read, row_read, search_read, get_read, ask_read};

use crate::fields::fields_at;
use crate::filters::filter_at;
use crate::headers::creates;
use crate::members::{caller_at, k_at, key_at, level_at, spelled, vector_text_at, wait_at};
use crate::refusals::LineError;
use crate::requests::Ask;
use crate::values::{has_only, text_at};
use answer_lines::Reason;
use coarse_lists::Collection;
use log_model::{Query, Write};
use row_types::{BitVector, Key, Row};
use serde_json::Value;
use std::alloc::Global;

/// An operation of a request line.
#[derive(Debug, Clone, Copy, PartialEq, Eq)]
pub enum Operation {
    Insert,
    Upsert,
    Delete,
    Search,
    Get,
    Tick,
    Seal,
    Meet,
}

fn operation_of(name: &str) -> Option<Operation>
    ensures { result ≡ named operations name.now }
{
    match name {
        "insert" => Some(Operation::Insert),
        "upsert" => Some(Operation::Upsert),
        "delete" => Some(Operation::Delete),
        "search" => Some(Operation::Search),
        "get" => Some(Operation::Get),
        "tick" => Some(Operation::Tick),
        "seal" => Some(Operation::Seal),
        "meet" => Some(Operation::Meet),
        _ => None,
    }
}

#[tactic(auto, unfolding(crate::specs::Requests::operation_at))]
fn operation_at(value: &Value) -> Option<Operation>
    ensures { result ≡ operation_at (Some (view value.now)) }
{
    operation_of(text_at(value, "op")?)
}

/// Whether a line has no other members than its operation may have.
fn has_members(value: &Value, operation: Operation) -> bool
    ensures { result ≡ has_only (members_of operation) (Some (view value.now)) }
{
    match operation {
        Operation::Insert | Operation::Upsert => {
            has_only(value, &["op", "caller", "key", "vector", "fields"])
        }
        Operation::Delete => has_only(value, &["op", "caller", "key"]),
        Operation::Search => has_only(
            value,
            &[
                "op", "caller", "vector", "k", "level", "delta_ms", "filter", "wait",
            ],
        ),
        Operation::Get => has_only(value, &["op", "caller", "key", "level", "delta_ms", "wait"]),
        Operation::Tick | Operation::Seal => has_only(value, &["op", "caller"]),
        Operation::Meet => has_only(value, &["op"]),
    }
}

/// The operation of a line that is an object of its members.
pub fn operation_in(value: &Value) -> Result<Operation, Reason>
    ensures { (collection : Spec) → result ≡ operation_read collection (Some (view value.now)) }
{
    if !value.is_object() {
        return Err(Reason::NotObject);
    }
    if creates(value) {
        return Err(Reason::LateCreate);
    }
    let operation = operation_at(value).ok_or(Reason::BadOp)?;
    if !has_members(value, operation) {
        return Err(Reason::UnknownMember);
    }
    Ok(operation)
}

/// The caller of a line with an operation; a meet has none.
pub fn caller_in(value: &Value, operation: Operation) -> Result<u32, Reason>
    ensures same { (collection : Spec) → result ≡ caller_read collection operation (Some (view value.now)) }
    ensures most { IfOk result (λ caller. caller ≤ max_caller) }
{
    match operation {
        Operation::Meet => Ok(0),
        _ => caller_at(value).ok_or(Reason::BadCaller),
    }
}

fn vector_in(alloc: Global, collection: &Collection, value: &Value) -> Result<BitVector, LineError>
    requires { IsDimension collection.now.dim }
    ensures ok { IfOk result (λ vector. vector_read collection.now (Some (view value.now)) ≡ Ok vector) }
    ensures err { IfErr result (Refuses (vector_read collection.now (Some (view value.now)))) }
    ensures dim { IfOk result (λ vector. length vector ≡ collection.now.dim) }
{
    let text = vector_text_at(value).ok_or(Reason::NoVector)?;
    let vector = spelled(alloc, text, collection.dim)?.ok_or(Reason::BadVector)?;
    Ok(vector)
}

fn row_in(alloc: Global, collection: &Collection, value: &Value) -> Result<Row, LineError>
    requires { IsDimension collection.now.dim }
    ensures ok { IfOk result (λ row. row_read collection.now (Some (view value.now)) ≡ Ok row) }
    ensures err { IfErr result (Refuses (row_read collection.now (Some (view value.now)))) }
    ensures fits { IfOk result (IsRowOf collection.now) }
{
    let key = key_at(value).ok_or(Reason::BadKey)?;
    let vector = vector_in(alloc, collection, value)?;
    let fields = fields_at(alloc, value, &collection.schema)?.ok_or(Reason::BadFields)?;
    Ok(Row {
        key: Key(key),
        vector,
        fields,
    })
}

fn search_in(alloc: Global, collection: &Collection, value: &Value) -> Result<Ask, LineError>
    requires { IsDimension collection.now.dim }
    ensures ok { IfOk result (λ ask. search_read collection.now (Some (view value.now)) ≡ Ok ask) }
    ensures err { IfErr result (Refuses (search_read collection.now (Some (view value.now)))) }
    ensures fits { IfOk result (FitsAsk collection.now) }
{
    let vector = vector_in(alloc, collection, value)?;
    let k = k_at(value).ok_or(Reason::BadK)?;
    let level = level_at(value).ok_or(Reason::BadLevel)?;
    let filter = filter_at(alloc, value, &collection.schema)?.ok_or(Reason::BadFilter)?;
    let wait = wait_at(value).ok_or(Reason::BadWait)?;
    Ok(Ask::Search {
        query: Query { vector, k, filter },
        level,
        wait,
    })
}

fn get_in(value: &Value) -> Result<Ask, LineError>
    ensures ok { (collection : Spec) → IfOk result (λ ask. get_read collection (Some (view value.now)) ≡ Ok ask) }
    ensures err { (collection : Spec) → IfErr result (Refuses (get_read collection (Some (view value.now)))) }
    ensures fits { (collection : Spec) → IfOk result (FitsAsk collection) }
{
    let key = key_at(value).ok_or(Reason::BadKey)?;
    let level = level_at(value).ok_or(Reason::BadLevel)?;
    let wait = wait_at(value).ok_or(Reason::BadWait)?;
    Ok(Ask::Get {
        key: Key(key),
        level,
        wait,
    })
}

/// What an operation asks with the members of a line.
pub fn ask_in(
    alloc: Global,
    collection: &Collection,
    value: &Value,
    operation: Operation,
) -> Result<Ask, LineError>
    requires { IsDimension collection.now.dim }
    ensures ok { IfOk result (λ ask. ask_read collection.now operation (Some (view value.now)) ≡ Ok ask) }
    ensures err { IfErr result (Refuses (ask_read collection.now operation (Some (view value.now)))) }
    ensures fits { IfOk result (FitsAsk collection.now) }
{
    match operation {
        Operation::Insert => Ok(Ask::Write(Write::Insert(row_in(alloc, collection, value)?))),
        Operation::Upsert => Ok(Ask::Write(Write::Upsert(row_in(alloc, collection, value)?))),
        Operation::Delete => {
            let key = key_at(value).ok_or(Reason::BadKey)?;
            Ok(Ask::Write(Write::Delete(Key(key))))
        }
        Operation::Search => search_in(alloc, collection, value),
        Operation::Get => get_in(value),
        Operation::Tick => Ok(Ask::Tick),
        Operation::Seal => Ok(Ask::Seal),
        Operation::Meet => Ok(Ask::Meet),
    }
}
