//! Reading the header line.

ghost use Rattle.std.specs.Prelude.{◌≡◌, Some, IsTrue, IfOk, IfErr, IfSome, option_map};
ghost use Rattle.serde_json.specs.View.{view, items_view};
ghost use Rattle.row_types.specs.Bits.{IsDimension};
ghost use Rattle.coarse_lists.specs.Collections.{IsInRange, IsWithin};
ghost use Rattle.coarse_lists.specs.Schemas.{is_schema};
ghost use Rattle.request_lines.specs.Headers.{header_members, creates, dimension_of, dimension_at, metrics, metric_at, channels_at, seal_rows_at, kinds, column_of, columns_of, stated_columns, columns_at, collection_of, header_in, header_of, RefusesHeader};
ghost use Rattle.request_lines.specs.Json.{named, has_only};

use crate::refusals::HeaderError;
use crate::values::{between, has_only, integer_at, number_or, read_value, text_at};
use coarse_lists::{Collection, Index, is_schema};
use row_types::{Kind, List, Memory, Metric, Schema, Text};
use serde_json::Value;
use std::alloc::Global;

/// The most channels of a collection.
const MAX_CHANNELS: u32 = 16;

/// The most rows at which a tail becomes a segment.
const MAX_SEAL_ROWS: u32 = 65_536;

/// Whether `op` is `create`.
pub fn creates(value: &Value) -> bool
    ensures { result ≡ creates (Some (view value.now)) }
{
    match text_at(value, "op") {
        Some(operation) => operation == "create",
        None => false,
    }
}

fn dimension_of(number: i64) -> Option<u32>
    ensures same { result ≡ dimension_of number }
    ensures valid { IfSome result IsDimension }
{
    let bits = between(8, 4096, number)?;
    if bits % 8 == 0 { Some(bits) } else { None }
}

#[tactic(auto, unfolding(crate::specs::Headers::dimension_at))]
fn dimension_at(value: &Value) -> Option<u32>
    ensures same { result ≡ dimension_at (Some (view value.now)) }
    ensures valid { IfSome result IsDimension }
{
    dimension_of(integer_at(value, "dim")?)
}

fn metric_of(name: &str) -> Option<Metric>
    ensures { result ≡ named metrics name.now }
{
    match name {
        "HAMMING" => Some(Metric::Hamming),
        "JACCARD" => Some(Metric::Jaccard),
        _ => None,
    }
}

#[tactic(auto, unfolding(crate::specs::Headers::metric_at))]
fn metric_at(value: &Value) -> Option<Metric>
    ensures { result ≡ metric_at (Some (view value.now)) }
{
    match value.get("metric") {
        Some(metric) => metric_of(metric.as_str()?),
        None => Some(Metric::Hamming),
    }
}

#[tactic(auto, unfolding(crate::specs::Headers::channels_at))]
fn channels_at(value: &Value) -> Option<u32>
    ensures same { result ≡ channels_at (Some (view value.now)) }
    ensures within { IfSome result (IsWithin 1 16) }
{
    number_or(1, 1, MAX_CHANNELS, value.get("channels"))
}

#[tactic(auto, unfolding(crate::specs::Headers::seal_rows_at))]
fn seal_rows_at(value: &Value) -> Option<u32>
    ensures same { result ≡ seal_rows_at (Some (view value.now)) }
    ensures within { IfSome result (IsWithin 2 65536) }
{
    number_or(1_024, 2, MAX_SEAL_ROWS, value.get("seal_rows"))
}

fn kind_of(name: &str) -> Option<Kind>
    ensures { result ≡ named kinds name.now }
{
    match name {
        "INT64" => Some(Kind::Int),
        "BOOL" => Some(Kind::Bool),
        "VARCHAR" => Some(Kind::Text),
        _ => None,
    }
}

/// The column that an object of exactly `name` and `type` is.
#[tactic(auto, unfolding(crate::specs::Headers::column_of))]
fn column_of(alloc: Global, value: &Value) -> Result<Option<(Text, Kind)>, Memory>
    ensures { IfOk result (λ column. column ≡ column_of (view value.now)) }
{
    if !has_only(value, &["name", "type"]) {
        return Ok(None);
    }
    let Some(name) = text_at(value, "name") else {
        return Ok(None);
    };
    let Some(kind) = text_at(value, "type") else {
        return Ok(None);
    };
    match kind_of(kind) {
        Some(kind) => Ok(Some((Text::copied(alloc, name)?, kind))),
        None => Ok(None),
    }
}

/// The columns of an array, where each of its values is one.
fn columns_of(alloc: Global, values: &[Value]) -> Result<Option<Vec<(Text, Kind)>>, Memory>
    ensures { IfOk result (λ columns. option_map (λ v. v.items) columns ≡ columns_of (items_view values.now)) }
{
    let mut columns = Vec::new(alloc);
    'columns: for value in values {
        match column_of(alloc, value)? {
            Some(column) => columns.push(column)?,
            None => return Ok(None),
        }
    }
    Ok(Some(columns))
}

fn stated_columns(alloc: Global, value: &Value) -> Result<Option<Vec<(Text, Kind)>>, Memory>
    ensures { IfOk result (λ columns. option_map (λ v. v.items) columns ≡ stated_columns (Some (view value.now))) }
{
    match value.get("fields") {
        Some(fields) => match fields.as_array() {
            Some(values) => columns_of(alloc, values),
            None => Ok(None),
        },
        None => Ok(Some(Vec::new(alloc))),
    }
}

/// The columns of the collection, where it may have them.
#[tactic(auto, unfolding(crate::specs::Headers::columns_at))]
fn columns_at(alloc: Global, value: &Value) -> Result<Option<List<(Text, Kind)>>, Memory>
    ensures same { IfOk result (λ columns. columns ≡ columns_at (Some (view value.now))) }
    ensures allowed { IfOk result (λ found. IfSome found (λ columns. IsTrue (is_schema columns))) }
{
    match stated_columns(alloc, value)? {
        Some(columns) if is_schema(&columns) => Ok(Some(List::of(columns))),
        _ => Ok(None),
    }
}

fn collection_of(
    dim: u32,
    metric: Metric,
    channels: u32,
    seal_rows: u32,
    columns: List<(Text, Kind)>,
) -> Collection
    ensures { result ≡ collection_of dim metric channels seal_rows columns }
{
    Collection {
        dim,
        metric,
        channels,
        nodes: 1,
        seal_rows,
        index: Index::Flat,
        schema: Schema { columns },
    }
}

/// Whether a line has no other members than those of a header.
fn has_members(value: &Value) -> bool
    ensures { result ≡ has_only header_members (Some (view value.now)) }
{
    has_only(
        value,
        &["op", "dim", "metric", "channels", "seal_rows", "fields"],
    )
}

fn header_in(alloc: Global, value: &Value) -> Result<Collection, HeaderError>
    ensures ok { IfOk result (λ collection. header_in (Some (view value.now)) ≡ Some collection) }
    ensures err { IfErr result (RefusesHeader (header_in (Some (view value.now)))) }
    ensures in_range { IfOk result IsInRange }
{
    if !has_members(value) || !creates(value) {
        return Err(HeaderError::NotCreate);
    }
    let dim = dimension_at(value).ok_or(HeaderError::NotCreate)?;
    let metric = metric_at(value).ok_or(HeaderError::NotCreate)?;
    let channels = channels_at(value).ok_or(HeaderError::NotCreate)?;
    let seal_rows = seal_rows_at(value).ok_or(HeaderError::NotCreate)?;
    let columns = columns_at(alloc, value)?.ok_or(HeaderError::NotCreate)?;
    Ok(collection_of(dim, metric, channels, seal_rows, columns))
}

/// The collection that line 1 makes. It is no `create` line exactly where the definition of a header
/// gives no collection.
pub fn read_header(alloc: Global, bytes: &[u8]) -> Result<Collection, HeaderError>
    ensures ok { IfOk result (λ collection. header_of bytes.now ≡ Some collection) }
    ensures err { IfErr result (RefusesHeader (header_of bytes.now)) }
    ensures in_range { IfOk result IsInRange }
{
    match read_value(alloc, bytes)? {
        Some(value) => header_in(alloc, &value),
        None => Err(HeaderError::NotCreate),
    }
}
