//! Reading a request line.

ghost use Rattle.std.specs.Prelude.{◌≡◌, ◌≤◌, Some, Ok, IfOk, IfErr};
ghost use Rattle.serde_json.specs.View.{view};
ghost use Rattle.row_types.specs.Bits.{IsDimension};
ghost use Rattle.request_lines.specs.Members.{max_caller};
ghost use Rattle.request_lines.specs.Requests.{operation_in, line_request, request_of, Refuses, Fits};

use crate::operations::{ask_in, caller_in, operation_in};
use crate::refusals::LineError;
use crate::requests::Request;
use crate::values::read_value;
use answer_lines::Reason;
use coarse_lists::Collection;
use serde_json::Value;
use std::alloc::Global;

fn request_in(alloc: Global, collection: &Collection, value: &Value) -> Result<Request, LineError>
    requires { IsDimension collection.now.dim }
    ensures ok { IfOk result (λ request. line_request collection.now (Some (view value.now)) ≡ Ok request) }
    ensures err { IfErr result (Refuses (line_request collection.now (Some (view value.now)))) }
    ensures fits { IfOk result (Fits collection.now) }
    ensures caller { IfOk result (λ request. request.caller ≤ max_caller) }
{
    let operation = operation_in(value)?;
    let caller = caller_in(value, operation)?;
    let what = ask_in(alloc, collection, value, operation)?;
    Ok(Request { caller, what })
}

/// The request of a line, or the first reason why it is none.
pub fn read_line(alloc: Global, bytes: &[u8], collection: &Collection) -> Result<Request, LineError>
    requires { IsDimension collection.now.dim }
    ensures ok { IfOk result (λ request. request_of collection.now bytes.now ≡ Ok request) }
    ensures err { IfErr result (Refuses (request_of collection.now bytes.now)) }
    ensures fits { IfOk result (Fits collection.now) }
    ensures caller { IfOk result (λ request. request.caller ≤ max_caller) }
{
    let value = read_value(alloc, bytes)?.ok_or(Reason::NotJson)?;
    request_in(alloc, collection, &value)
}
