//! What a line asks, and the lines that the engine itself answers.

ghost use Rattle.std.specs.Prelude.{◌≡◌, ◌++◌, ◌≤◌, Err, IfOk, IfErr, OnOk, OnErr, Some};
ghost use Rattle.row_types.specs.Bits.{IsDimension};
ghost use Rattle.coarse_lists.specs.Collections.{IsInRange};
ghost use Rattle.answer_lines.specs.Lines.{text_of};
ghost use Rattle.request_lines.specs.Headers.{header_of};
ghost use Rattle.phase_engine.specs.Outputs.{begins, is_meet};
ghost use Rattle.phase_engine.specs.Steps.{IsReadOf};

use answer_lines::{Answer, Reason};
use coarse_lists::Collection;
use phase_reading::BeginError;
use request_lines::{Ask, HeaderError, LineError, Request};
use row_types::Memory;
use std::alloc::Global;

/// The collection that line 1 makes.
pub(crate) fn read_header(alloc: Global, line: &[u8]) -> Result<Collection, BeginError>
    ensures made { IfOk result (λ collection. header_of line.now ≡ Some collection) }
    ensures range { IfOk result IsInRange }
    ensures bad { OnErr result (result ≡ Err BeginError.Bad → ¬ begins line.now) }
{
    match request_lines::read_header(alloc, line) {
        Ok(collection) => Ok(collection),
        Err(HeaderError::NotCreate) => Err(BeginError::Bad),
        Err(HeaderError::Memory) => Err(BeginError::Memory),
    }
}

/// The request of a line, or the reason why it is none.
pub(crate) fn read_line(
    alloc: Global,
    collection: &Collection,
    line: &[u8],
) -> Result<Result<Request, Reason>, Memory>
    requires { IsDimension collection.now.dim }
    ensures { IfOk result (IsReadOf collection.now line.now) }
{
    match request_lines::read_line(alloc, line, collection) {
        Ok(request) => Ok(Ok(request)),
        Err(LineError::Refused(reason)) => Ok(Err(reason)),
        Err(LineError::Memory) => Err(Memory),
    }
}

/// Whether a line is a meet.
pub(crate) fn is_meet(read: &Result<Request, Reason>) -> bool
    ensures { result ≡ is_meet read.now }
{
    match read {
        Ok(request) => matches!(request.what, Ask::Meet),
        Err(_) => false,
    }
}

/// Writes the line of an answer behind a text.
pub(crate) fn append(
    alloc: Global,
    number: u32,
    answer: &Answer,
    text: &mut Vec<u8>,
) -> Result<(), Memory>
    ensures { OnOk result (text.new.items ≡ text.old.items ++ text_of number answer.now) }
{
    let line = answer_lines::line(alloc, number, answer)?;
    text.extend_from_slice(&line)?;
    Ok(())
}
