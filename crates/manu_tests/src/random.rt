//! Many random lines of callers beside each other, each output checked against the log that it prints.

use crate::asks::{Ask, Level, Random, What, input_of};
use crate::checker::{first_wrong, is_answer, number, values};
use crate::runs::{Given, run};
use manu_edge::FixedMoments;
use manu_serve::Status;
use serde_json::Value;
use std::alloc::Global;
use std::sync::Wait;
use std::test::Fail;
use std::thread::Threads;

/// What a run writes for a header and these lines, where it ends well.
fn output_of<R: Threads + Wait + Sync>(
    rt: &R,
    alloc: Global,
    header: &str,
    asks: &[Ask],
) -> Result<Option<Vec<u8>>, Fail> {
    let input = input_of(alloc, header, asks)?;
    let given = Given {
        words: &["run", "--still"],
        input: &input,
        failing_reads: &[],
        failing_writes: &[],
    };
    let (status, output) = run(rt, alloc, &given, &FixedMoments(0))?;
    Ok(if status == Status::Done {
        Some(output)
    } else {
        None
    })
}

#[test]
fn each_output_is_what_its_own_log_says(rt: HostRuntime) -> Result<(), Fail> {
    let alloc = rt.alloc();
    let header = r#"{"op":"create","dim":8,"channels":4,"seal_rows":8}"#;
    for seed in 0..20u64 {
        let asks = Random(seed).asks(alloc, 400)?;
        let output = output_of(&rt, alloc, header, &asks)?;
        assert!(rt; output.is_some());
        let output = output.unwrap_or(Vec::new(alloc));
        assert_eq!(rt; first_wrong(alloc, &asks, &output)?, None);
    }
    Ok(())
}

// The checker is no friend of wrong outputs.
#[test]
fn a_wrong_line_is_found(rt: HostRuntime) -> Result<(), Fail> {
    let alloc = rt.alloc();
    let strong = What::Search {
        byte: 0x0f,
        k: 1,
        level: Level::Strong,
    };
    let asks = [
        Ask {
            caller: 0,
            what: What::Insert(1, 0x0f),
        },
        Ask {
            caller: 0,
            what: strong,
        },
    ];
    let right = r#"{"answer":"created","line":1}
{"answer":"ok","line":2,"ts":1}
{"answer":"hits","guarantee":2,"hits":[[0,1]],"line":3,"now":2,"ts":3}
{"answer":"end","failed":0,"live":1,"node_live":0,"node_rows":0,"tail":1,"ts":4,"waiting":0}
"#;
    let other_hit = r#"{"answer":"created","line":1}
{"answer":"ok","line":2,"ts":1}
{"answer":"hits","guarantee":2,"hits":[[1,1]],"line":3,"now":2,"ts":3}
{"answer":"end","failed":0,"live":1,"node_live":0,"node_rows":0,"tail":1,"ts":4,"waiting":0}
"#;
    let too_old = r#"{"answer":"created","line":1}
{"answer":"exists","line":2,"ts":1}
{"answer":"hits","guarantee":2,"hits":[[0,1]],"line":3,"now":2,"ts":1}
{"answer":"end","failed":0,"live":1,"node_live":0,"node_rows":0,"tail":1,"ts":4,"waiting":0}
"#;
    assert_eq!(rt; first_wrong(alloc, &asks, right.as_bytes())?, None);
    assert_eq!(rt; first_wrong(alloc, &asks, other_hit.as_bytes())?, Some(3));
    assert_eq!(rt; first_wrong(alloc, &asks, too_old.as_bytes())?, Some(2));
    Ok(())
}

/// Sixteen callers that insert a row each, a meet, and a search of each.
fn sixteen(alloc: Global) -> Result<Vec<Ask>, Fail> {
    let mut asks = Vec::new(alloc);
    for caller in 0..16u32 {
        asks.push(Ask {
            caller,
            what: What::Insert(i64::from(caller), 0),
        })?;
    }
    asks.push(Ask {
        caller: 0,
        what: What::Meet,
    })?;
    for caller in 0..16u32 {
        asks.push(Ask {
            caller,
            what: What::Search {
                byte: 0,
                k: 16,
                level: Level::Strong,
            },
        })?;
    }
    Ok(asks)
}

// Whether a line is a search behind a meet at 17 that found sixteen rows.
fn found_all(value: &Value) -> bool {
    let hits = value.get("hits").and_then(Value::as_array);
    let now = number(value, "now");
    is_answer(value, "hits")
        && now > 17
        && number(value, "guarantee") == now
        && hits.is_some_and(|hits| hits.len() == 16)
}

#[test]
fn sixteen_callers_write_and_then_find_all(rt: HostRuntime) -> Result<(), Fail> {
    let alloc = rt.alloc();
    let asks = sixteen(alloc)?;
    let output = output_of(&rt, alloc, r#"{"op":"create","dim":8}"#, &asks)?;
    assert!(rt; output.is_some());
    let output = output.unwrap_or(Vec::new(alloc));
    assert_eq!(rt; first_wrong(alloc, &asks, &output)?, None);
    let values = values(alloc, &output)?;
    for value in values.get(1..17).unwrap_or(&[]) {
        assert!(rt; number(value, "ts") <= 16);
    }
    assert!(rt; values.get(17).is_some_and(|met| number(met, "ts") == 17));
    assert!(rt; values.get(18..34).unwrap_or(&[]).iter().all(found_all));
    Ok(())
}
