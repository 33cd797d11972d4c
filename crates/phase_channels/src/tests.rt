//! Phases of lines over two channels, and meets.

ghost use Rattle.std.specs.Prelude.{◌≡◌, ◌<◌, List, length, true, IfOk};
ghost use Rattle.std.specs.List.{AllByRecursion as Each};
ghost use Rattle.coarse_lists.specs.Collections.{IsInRange, IsRowOf};
ghost use Rattle.request_lines.specs.Requests.{Fits};
ghost use Rattle.phase_lines.specs.Waiting.{Read, MayWait, AreHeld};
ghost use Rattle.phase_channels.specs.Steps.{FitsRead};

use crate::channels::Channels;
use answer_lines::{MeetReply, Reason};
use coarse_lists::{Collection, Index};
use hybrid_time::Timestamp;
use log_model::Write;
use manu_edge::{At, FixedMoments, Gate, Point};
use phase_lines::PhaseLines;
use phase_run::Roles;
use request_lines::{Ask, Request};
use row_types::{BitVector, Key, Memory, Metric, Row, Schema};
use std::alloc::Global;
use std::str;
use std::sync::Wait;
use std::sync::atomic::{AtomicU64, Ordering};
use std::test::Fail;

// Two channels of vectors of 8 bits without columns.
fn two_channels(alloc: Global) -> Collection
    ensures range { IsInRange result }
    ensures channels { result.channels ≡ 2 }
{
    Collection {
        dim: 8,
        metric: Metric::Hamming,
        channels: 2,
        nodes: 1,
        seal_rows: 4,
        index: Index::Flat,
        schema: Schema {
            columns: row_types::List::empty(alloc),
        },
    }
}

// The insert of a row without fields. A collection that does not take it answers as where memory is wanting.
fn insert_of(
    alloc: Global,
    collection: &Collection,
    caller: u32,
    key: i64,
    byte: u8,
) -> Result<Request, Memory>
    requires { caller < 16 }
    ensures fits { IfOk result (Fits collection.now) }
    ensures waits { IfOk result (λ request. MayWait (Ok request)) }
{
    let row = Row {
        key: Key(key),
        vector: BitVector::from_bytes(alloc, &[byte])?,
        fields: row_types::List::empty(alloc),
    };
    if !is_row_of(collection, &row) {
        return Err(Memory);
    }
    Ok(Request {
        caller,
        what: Ask::Write(Write::Insert(row)),
    })
}

fn is_row_of(collection: &Collection, row: &Row) -> bool
    ensures { result ≡ true → IsRowOf collection.now row.now }
{
    let columns = collection.schema.columns.as_slice();
    let fields = row.fields.as_slice();
    if !columns.is_empty() || !fields.is_empty() {
        return false;
    }
    row.vector.dim() == collection.dim
}

// Lines 2 to 5: two inserts of caller 0, and between them a refused line and an insert of caller 1.
fn four_lines(alloc: Global, collection: &Collection) -> Result<PhaseLines, Memory>
    ensures { IfOk result (λ lines. (reads : List Read) × AreHeld 2 reads lines × Each (FitsRead collection.now) reads × (length reads ≡ 4)) }
{
    let mut lines = PhaseLines::new(alloc, 2)?;
    let first = insert_of(alloc, collection, 0, 1, 0x0f)?;
    lines.add(Ok(first))?;
    lines.add(Err(Reason::BadOp))?;
    let second = insert_of(alloc, collection, 1, 2, 0xf0)?;
    lines.add(Ok(second))?;
    let again = insert_of(alloc, collection, 0, 1, 0xff)?;
    lines.add(Ok(again))?;
    Ok(lines)
}

// Holds a line at its start until another line is answered, for at most 100,000,000 looks.
#[derive(Drop)]
struct Behind {
    line: u32,
    other: u32,
    answered: AtomicU64,
}

impl Behind {
    fn is_answered(&self) -> bool {
        for _ in 0..100_000_000u32 {
            if self.answered.load(Ordering::SeqCst) == 1 {
                return true;
            }
        }
        false
    }
}

impl Gate for Behind {
    fn pass<R: Wait>(&self, _rt: &R, point: Point) {
        if point.line == self.line && point.at == At::Start {
            let _ = self.is_answered();
        }
        if point.line == self.other && point.at == At::Answered {
            self.answered.store(1, Ordering::SeqCst);
        }
    }
}

#[test]
fn a_new_collection_meets_at_the_first_number(rt: HostRuntime) -> Result<(), Memory> {
    let alloc = rt.alloc();
    let channels = Channels::new(alloc, two_channels(alloc))?;
    assert!(&rt; channels.collection().channels == 2);
    let (_channels, met) = channels.meet(alloc, 0)?;
    assert!(&rt; met.ts == Timestamp(1) && met.live == 0 && met.tail == 0);
    Ok(())
}

#[test]
fn a_meet_is_not_before_its_moment(rt: HostRuntime) -> Result<(), Memory> {
    let alloc = rt.alloc();
    let channels = Channels::new(alloc, two_channels(alloc))?;
    let (_channels, met) = channels.meet(alloc, 3)?;
    assert!(&rt; met.ts == Timestamp(3 << 18));
    Ok(())
}

#[test]
fn two_callers_are_answered_in_the_order_of_the_lines(rt: HostRuntime) -> Result<(), Fail> {
    let alloc = rt.alloc();
    let channels = Channels::new(alloc, two_channels(alloc))?;
    let lines = four_lines(alloc, channels.collection())?;
    let roles = Roles {
        tickers: 0,
        rounds: 0,
    };
    let gate = Behind {
        line: 4,
        other: 5,
        answered: AtomicU64::new(0),
    };
    let mut text = Vec::new(alloc);
    let moments = FixedMoments(0);
    let channels = channels.run(&rt, alloc, lines, roles, &moments, &gate, &mut text)?;
    let answers = r#"{"answer":"ok","line":2,"ts":1}
{"answer":"refused","line":3,"reason":"BadOp"}
{"answer":"ok","line":4,"ts":3}
{"answer":"exists","line":5,"ts":2}
"#;
    assert_eq!(rt; str::from_utf8(text.as_slice()), Ok(answers));
    let (_channels, met) = channels.meet(alloc, 0)?;
    let counted = MeetReply {
        ts: Timestamp(4),
        live: 2,
        tail: 2,
        waiting: 0,
        node_rows: 0,
        node_live: 0,
        failed: 0,
    };
    assert!(rt; met == counted);
    Ok(())
}
