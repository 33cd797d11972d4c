//! The JSON value of an answer.

ghost use Rattle.std.specs.Prelude.{◌≡◌, IfOk};
ghost use Rattle.row_types.specs.Spelling.{hex_of};
ghost use Rattle.serde_json.specs.View.{view};
ghost use Rattle.answer_lines.specs.Lines.{hit_data, hits_data, stamps_data, seals_data, field_data, fields_data, row_data, name_of, write_data, answer_data};

use crate::answers::{Answer, MeetReply, Named, WriteReply, Wrote};
use crate::reasons::Reason;
use hybrid_time::Timestamp;
use row_types::{BitVector, Distance, Field, Hit, List, Memory, Text};
use serde_json::{Map, Value, json};
use std::alloc::{AllocError, Global};

fn name(reason: Reason) -> &'static str
    ensures { result.now ≡ name_of reason }
{
    match reason {
        Reason::NotJson => "NotJson",
        Reason::NotObject => "NotObject",
        Reason::BadOp => "BadOp",
        Reason::LateCreate => "LateCreate",
        Reason::UnknownMember => "UnknownMember",
        Reason::BadCaller => "BadCaller",
        Reason::BadKey => "BadKey",
        Reason::NoVector => "NoVector",
        Reason::BadVector => "BadVector",
        Reason::BadFields => "BadFields",
        Reason::BadK => "BadK",
        Reason::BadLevel => "BadLevel",
        Reason::BadFilter => "BadFilter",
        Reason::BadWait => "BadWait",
    }
}

fn created(alloc: Global, number: u32) -> Result<Value, AllocError>
    ensures { IfOk result (λ v. view v ≡ answer_data number Answer.Created) }
{
    json!(in alloc; {"answer": "created", "line": number})
}

fn wrote(alloc: Global, number: u32, reply: WriteReply) -> Result<Value, AllocError>
    ensures { IfOk result (λ v. view v ≡ write_data number reply.ts.0 reply.what) }
{
    let ts = reply.ts.0;
    match reply.what {
        Wrote::Inserted => json!(in alloc; {"answer": "ok", "line": number, "ts": ts}),
        Wrote::Exists => json!(in alloc; {"answer": "exists", "line": number, "ts": ts}),
        Wrote::Was(live) =>
            json!(in alloc; {"answer": "ok", "line": number, "ts": ts, "was": live}),
    }
}

fn hit(alloc: Global, hit: Hit) -> Result<Value, AllocError>
    ensures { IfOk result (λ v. view v ≡ hit_data hit) }
{
    let key = hit.key.0;
    match hit.distance {
        Distance::Hamming(distance) => json!(in alloc; [distance, key]),
        Distance::Jaccard { num, den } => json!(in alloc; [num, den, key]),
    }
}

fn hit_array(alloc: Global, hits: &[Hit]) -> Result<Value, AllocError>
    ensures { IfOk result (λ v. view v ≡ hits_data hits.now) }
{
    let mut values = Vec::new(alloc);
    for found in hits {
        values.push(hit(alloc, *found)?)?;
    }
    Ok(Value::Array(values))
}

fn stamp_array(alloc: Global, stamps: &[Timestamp]) -> Result<Value, AllocError>
    ensures { IfOk result (λ v. view v ≡ stamps_data stamps.now) }
{
    let mut values = Vec::new(alloc);
    for stamp in stamps {
        values.push(Value::from(stamp.0))?;
    }
    Ok(Value::Array(values))
}

fn seal_array(alloc: Global, seals: &[(Timestamp, u32)]) -> Result<Value, AllocError>
    ensures { IfOk result (λ v. view v ≡ seals_data seals.now) }
{
    let mut values = Vec::new(alloc);
    for seal in seals {
        let (ts, rows) = *seal;
        values.push(json!(in alloc; [ts.0, rows])?)?;
    }
    Ok(Value::Array(values))
}

fn hex_text(alloc: Global, vector: &BitVector) -> Result<Text, AllocError>
    ensures { IfOk result (λ text. text ≡ hex_of vector.now) }
{
    match vector.to_hex(alloc) {
        Ok(text) => Ok(text),
        Err(Memory) => Err(AllocError),
    }
}

fn field_value(alloc: Global, field: &Field) -> Result<Value, AllocError>
    ensures { IfOk result (λ v. view v ≡ field_data field.now) }
{
    match field {
        Field::Int(number) => Ok(Value::from(*number)),
        Field::Bool(bit) => Ok(Value::from(*bit)),
        Field::Text(text) => json!(in alloc; text.as_str()),
    }
}

fn fields_value(alloc: Global, names: &[Text], fields: &[Field]) -> Result<Value, AllocError>
    ensures { IfOk result (λ v. view v ≡ fields_data names.now fields.now) }
{
    let mut members = Map::new(alloc);
    let count = names.len().min(fields.len());
    for i in 0..count {
        let name = String::from_str(alloc, names[i].as_str())?;
        members.insert(name, field_value(alloc, &fields[i])?)?;
    }
    Ok(Value::Object(members))
}

fn row_value(alloc: Global, shown: &Option<Named>) -> Result<Value, AllocError>
    ensures { IfOk result (λ v. view v ≡ row_data shown.now) }
{
    match shown {
        None => Ok(Value::Null),
        Some(named) => {
            let row = &named.row;
            let fields = fields_value(alloc, named.names.as_slice(), row.fields.as_slice())?;
            let vector = hex_text(alloc, &row.vector)?;
            json!(in alloc; {"fields": fields, "key": row.key.0, "vector": vector.as_str()})
        }
    }
}

fn met(alloc: Global, number: u32, reply: MeetReply) -> Result<Value, AllocError>
    ensures { IfOk result (λ v. view v ≡ answer_data number (Answer.Met reply)) }
{
    json!(in alloc; {
        "answer": "met",
        "failed": reply.failed,
        "line": number,
        "live": reply.live,
        "node_live": reply.node_live,
        "node_rows": reply.node_rows,
        "tail": reply.tail,
        "ts": reply.ts.0,
        "waiting": reply.waiting
    })
}

fn ended(alloc: Global, counted: MeetReply) -> Result<Value, AllocError>
    ensures { IfOk result (λ v. view v ≡ answer_data 0 (Answer.End counted)) }
{
    json!(in alloc; {
        "answer": "end",
        "failed": counted.failed,
        "live": counted.live,
        "node_live": counted.node_live,
        "node_rows": counted.node_rows,
        "tail": counted.tail,
        "ts": counted.ts.0,
        "waiting": counted.waiting
    })
}

fn hits(
    alloc: Global,
    number: u32,
    now: Timestamp,
    guarantee: Timestamp,
    ts: Timestamp,
    hits: &List<Hit>,
) -> Result<Value, AllocError>
    ensures { IfOk result (λ v. view v ≡ answer_data number (Answer.Hits now guarantee ts hits.now)) }
{
    let found = hit_array(alloc, hits.as_slice())?;
    json!(in alloc; {"answer": "hits", "guarantee": guarantee.0, "hits": found, "line": number, "now": now.0, "ts": ts.0})
}

fn found(
    alloc: Global,
    number: u32,
    now: Timestamp,
    guarantee: Timestamp,
    ts: Timestamp,
    row: &Option<Named>,
) -> Result<Value, AllocError>
    ensures { IfOk result (λ v. view v ≡ answer_data number (Answer.Found now guarantee ts row.now)) }
{
    let shown = row_value(alloc, row)?;
    json!(in alloc; {"answer": "row", "guarantee": guarantee.0, "line": number, "now": now.0, "row": shown, "ts": ts.0})
}

fn pending(
    alloc: Global,
    number: u32,
    now: Timestamp,
    guarantee: Timestamp,
    channel: u32,
    tick: Timestamp,
) -> Result<Value, AllocError>
    ensures { IfOk result (λ v. view v ≡ answer_data number (Answer.Pending now guarantee channel tick)) }
{
    json!(in alloc; {"answer": "pending", "channel": channel, "guarantee": guarantee.0, "line": number, "now": now.0, "tick": tick.0})
}

/// The object that answers input line `number`.
pub fn answer_value(alloc: Global, number: u32, answer: &Answer) -> Result<Value, AllocError>
    ensures { IfOk result (λ v. view v ≡ answer_data number answer.now) }
{
    match answer {
        Answer::Created => created(alloc, number),
        Answer::Wrote(reply) => wrote(alloc, number, *reply),
        Answer::Hits {
            now,
            guarantee,
            ts,
            hits: found,
        } => hits(alloc, number, *now, *guarantee, *ts, found),
        Answer::Found {
            now,
            guarantee,
            ts,
            row,
        } => found(alloc, number, *now, *guarantee, *ts, row),
        Answer::Pending {
            now,
            guarantee,
            channel,
            tick,
        } => pending(alloc, number, *now, *guarantee, *channel, *tick),
        Answer::Ticked(stamps) => {
            let ticks = stamp_array(alloc, stamps.as_slice())?;
            json!(in alloc; {"answer": "ticked", "line": number, "ticks": ticks})
        }
        Answer::Sealed(pairs) => {
            let seals = seal_array(alloc, pairs.as_slice())?;
            json!(in alloc; {"answer": "sealed", "line": number, "seals": seals})
        }
        Answer::Met(reply) => met(alloc, number, *reply),
        Answer::End(reply) => ended(alloc, *reply),
        Answer::Refused(reason) => {
            json!(in alloc; {"answer": "refused", "line": number, "reason": name(*reason)})
        }
    }
}
