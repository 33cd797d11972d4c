//! The reader over the engine, from bytes to bytes.

use crate::serve;
use manu_edge::{BytesSink, BytesSource, FixedMoments, OpenGate};
use phase_run::Roles;
use std::test::Fail;

const LINES: [&str; 6] = [
    r#"{"op":"create","dim":8}"#,
    r#"{"op":"insert","key":7,"vector":"01"}"#,
    r#"{"op":"meet"}"#,
    r#"{"op":"insert","caller":3,"key":7,"vector":"02"}"#,
    "no request",
    r#"{"op":"meet"}"#,
];

const ANSWERS: [&str; 7] = [
    r#"{"answer":"created","line":1}"#,
    r#"{"answer":"ok","line":2,"ts":1}"#,
    r#"{"answer":"met","failed":0,"line":3,"live":1,"node_live":0,"node_rows":0,"tail":1,"ts":2,"waiting":0}"#,
    r#"{"answer":"exists","line":4,"ts":3}"#,
    r#"{"answer":"refused","line":5,"reason":"NotJson"}"#,
    r#"{"answer":"met","failed":0,"line":6,"live":1,"node_live":0,"node_rows":0,"tail":1,"ts":4,"waiting":0}"#,
    r#"{"answer":"end","failed":0,"live":1,"node_live":0,"node_rows":0,"tail":1,"ts":5,"waiting":0}"#,
];

fn joined(rt: HostRuntime, lines: &[&str]) -> Result<Vec<u8>, Fail> {
    let mut bytes = Vec::new(rt.alloc());
    for line in lines {
        bytes.extend_from_slice(line.as_bytes())?;
        bytes.push(b'\n')?;
    }
    Ok(bytes)
}

#[test]
fn answers_two_phases_and_the_end(rt: HostRuntime) -> Result<(), Fail> {
    let alloc = rt.alloc();
    let roles = Roles {
        tickers: 0,
        rounds: 0,
    };
    let mut source = BytesSource::new(joined(rt, &LINES)?, Vec::new(alloc));
    let mut sink = BytesSink::new(alloc, Vec::new(alloc));
    let ended = serve(
        &rt,
        alloc,
        roles,
        &FixedMoments(0),
        &OpenGate,
        &mut source,
        &mut sink,
    );
    assert!(rt; ended.is_ok());
    let answers = joined(rt, &ANSWERS)?;
    assert_eq!(rt; sink.as_slice(), answers.as_slice());
    Ok(())
}
