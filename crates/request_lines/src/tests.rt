//! Worked examples: lines that are read, and lines that are refused, each for its first reason.

use crate::{Ask, Collection, LineError, read_header, read_line};
use answer_lines::Reason;
use hybrid_time::Level;
use log_model::Write;
use row_types::{CompareOp, Field, Filter, Key, Kind, Metric, Operand};
use std::alloc::{AllocError, Global};
use std::test::Fail;

/// Documents with a language and a year.
const DOCUMENTS: &[u8] =
    br#"{"op":"create","dim":8,"metric":"JACCARD","fields":[{"name":"lang","type":"VARCHAR"},{"name":"year","type":"INT64"}]}"#;

/// A line in which a piece stands so many times.
fn line_of(
    alloc: Global,
    before: &str,
    piece: &str,
    times: u32,
    after: &str,
) -> Result<String, AllocError> {
    let mut line = String::from_str(alloc, before)?;
    for _ in 0..times {
        line.push_str(piece)?;
    }
    line.push_str(after)?;
    Ok(line)
}

#[test]
fn only_a_create_line_makes_a_collection(rt: HostRuntime) -> Result<(), Fail> {
    for (line, want) in [
        (r#"{"op":"create","dim":8}"#, Some(8)),
        (r#" { "dim" : 4096, "op" : "create" } "#, Some(4096)),
        (r#"{"op":"create","dim":0,"dim":16}"#, Some(16)),
        (r#"{"op":"create","dim":0}"#, None),
        (r#"{"op":"create","dim":7}"#, None),
        (r#"{"op":"create","dim":4104}"#, None),
        (r#"{"op":"create","dim":8.0}"#, None),
        (r#"{"op":"create","dim":"8"}"#, None),
        (r#"{"op":"create"}"#, None),
        (r#"{"op":"tick","dim":8}"#, None),
        (r#"{"op":"create","dim":8,"shards":1}"#, None),
        (r#"{"op":"create","dim":8,"nodes":1}"#, None),
        (r#"{"op":"create","dim":8,"channels":0}"#, None),
        (r#"{"op":"create","dim":8,"channels":16}"#, Some(8)),
        (r#"{"op":"create","dim":8,"channels":17}"#, None),
        (r#"{"op":"create","dim":8,"channels":"2"}"#, None),
        (r#"{"op":"create","dim":8,"channels":null}"#, None),
        (r#"{"op":"create","dim":8,"seal_rows":1}"#, None),
        (r#"{"op":"create","dim":8,"seal_rows":2}"#, Some(8)),
        (r#"{"op":"create","dim":8,"seal_rows":65536}"#, Some(8)),
        (r#"{"op":"create","dim":8,"seal_rows":65537}"#, None),
        (r#"{"op":"create","dim":8,"seal_rows":2.0}"#, None),
        (r#"{"op":"create","dim":8,"metric":"JACCARD"}"#, Some(8)),
        (r#"{"op":"create","dim":8,"metric":"jaccard"}"#, None),
        (r#"{"op":"create","dim":8,"metric":null}"#, None),
        (r#"{"op":"create","dim":8,"fields":[]}"#, Some(8)),
        (r#"{"op":"create","dim":8,"fields":{}}"#, None),
        (r#"{"op":"create","dim":8,"fields":["lang"]}"#, None),
        (
            r#"{"op":"create","dim":8,"fields":[{"name":"a","type":"BOOL"}]}"#,
            Some(8),
        ),
        (r#"{"op":"create","dim":8,"fields":[{"name":"a"}]}"#, None),
        (
            r#"{"op":"create","dim":8,"fields":[{"name":"a","type":"TEXT"}]}"#,
            None,
        ),
        (
            r#"{"op":"create","dim":8,"fields":[{"name":"a","type":"BOOL","x":1}]}"#,
            None,
        ),
        (
            r#"{"op":"create","dim":8,"fields":[{"name":"key","type":"BOOL"}]}"#,
            None,
        ),
        (
            r#"{"op":"create","dim":8,"fields":[{"name":"","type":"BOOL"}]}"#,
            None,
        ),
        (
            r#"{"op":"create","dim":8,"fields":[{"name":"1a","type":"BOOL"}]}"#,
            None,
        ),
        (
            r#"{"op":"create","dim":8,"fields":[{"name":"a","type":"BOOL"},{"name":"a","type":"INT64"}]}"#,
            None,
        ),
        (r#"["create",8]"#, None),
        ("create", None),
        ("", None),
    ] {
        let made = read_header(rt.alloc(), line.as_bytes());
        assert_eq!(rt;
            made.ok().map(|collection| collection.dim),
            want,
            "at {line}"
        );
    }
    Ok(())
}

#[test]
fn a_line_is_refused_for_the_first_reason(rt: HostRuntime) -> Result<(), Fail> {
    let collection = read_header(rt.alloc(), DOCUMENTS)?;
    for (line, want) in [
        ("{", Reason::NotJson),
        ("", Reason::NotJson),
        ("[]", Reason::NotObject),
        (r#"{"op":"fly"}"#, Reason::BadOp),
        (r#"{"op":1,"x":1}"#, Reason::BadOp),
        (r#"{"op":"create","dim":8}"#, Reason::LateCreate),
        (r#"{"op":"tick","x":1}"#, Reason::UnknownMember),
        (r#"{"op":"delete","vector":"00"}"#, Reason::UnknownMember),
        (r#"{"op":"delete"}"#, Reason::BadKey),
        (
            r#"{"op":"insert","key":9223372036854775808}"#,
            Reason::BadKey,
        ),
        (r#"{"op":"search","k":0}"#, Reason::NoVector),
        (r#"{"op":"upsert","key":1,"vector":1}"#, Reason::NoVector),
        (r#"{"op":"search","vector":"0","k":0}"#, Reason::BadVector),
        (
            r#"{"op":"insert","key":1,"vector":"0g"}"#,
            Reason::BadVector,
        ),
        (
            r#"{"op":"insert","key":1,"vector":"00","k":1}"#,
            Reason::UnknownMember,
        ),
        (
            r#"{"op":"insert","key":1,"vector":"00"}"#,
            Reason::BadFields,
        ),
        (
            r#"{"op":"insert","key":1,"vector":"00","fields":[]}"#,
            Reason::BadFields,
        ),
        (
            r#"{"op":"insert","key":1,"vector":"00","fields":{"lang":"en"}}"#,
            Reason::BadFields,
        ),
        (
            r#"{"op":"insert","key":1,"vector":"00","fields":{"lang":"en","year":"2021"}}"#,
            Reason::BadFields,
        ),
        (
            r#"{"op":"insert","key":1,"vector":"00","fields":{"lang":"en","year":2021.0}}"#,
            Reason::BadFields,
        ),
        (
            r#"{"op":"insert","key":1,"vector":"00","fields":{"lang":"en","year":null}}"#,
            Reason::BadFields,
        ),
        (
            r#"{"op":"upsert","key":1,"vector":"00","fields":{"lang":"en","year":2021,"size":1}}"#,
            Reason::BadFields,
        ),
        (
            r#"{"op":"search","vector":"00","k":0,"level":1,"filter":1}"#,
            Reason::BadK,
        ),
        (r#"{"op":"search","vector":"00","k":16385}"#, Reason::BadK),
        (
            r#"{"op":"search","vector":"00","k":1,"level":"strong"}"#,
            Reason::BadLevel,
        ),
        (
            r#"{"op":"search","vector":"00","k":1,"level":"Strong","delta_ms":1}"#,
            Reason::BadLevel,
        ),
        (
            r#"{"op":"search","vector":"00","k":1,"delta_ms":4294967296,"filter":"key =="}"#,
            Reason::BadLevel,
        ),
        (
            r#"{"op":"search","vector":"00","k":1,"filter":1}"#,
            Reason::BadFilter,
        ),
        (
            r#"{"op":"search","vector":"00","k":1,"filter":"key =="}"#,
            Reason::BadFilter,
        ),
        (
            r#"{"op":"search","vector":"00","k":1,"filter":"nam"}"#,
            Reason::BadFilter,
        ),
        (
            r#"{"op":"search","vector":"00","k":1,"filter":"key == \"a\""}"#,
            Reason::BadFilter,
        ),
    ] {
        let refusal = read_line(rt.alloc(), line.as_bytes(), &collection).err();
        assert_eq!(rt; refusal, Some(LineError::Refused(want)), "at {line}");
    }
    Ok(())
}

#[test]
fn a_search_has_its_level(rt: HostRuntime) -> Result<(), Fail> {
    let collection = read_header(rt.alloc(), br#"{"op":"create","dim":8}"#)?;
    for (line, want) in [
        (
            r#"{"op":"search","vector":"0F","k":16384}"#,
            Level::Bounded { delta_ms: 5_000 },
        ),
        (
            r#"{"op":"search","vector":"0f","k":1,"delta_ms":0}"#,
            Level::Bounded { delta_ms: 0 },
        ),
        (
            r#"{"op":"search","vector":"0f","k":1,"level":"Bounded","delta_ms":4294967295}"#,
            Level::Bounded { delta_ms: u32::MAX },
        ),
        (
            r#"{"op":"search","vector":"0f","k":1,"level":"Strong"}"#,
            Level::Strong,
        ),
        (
            r#"{"op":"search","vector":"0f","k":1,"level":"Session"}"#,
            Level::Session,
        ),
        (
            r#"{"op":"search","vector":"0f","k":1,"level":"Eventually"}"#,
            Level::Eventually,
        ),
    ] {
        let request = read_line(rt.alloc(), line.as_bytes(), &collection)?;
        match &request.what {
            Ask::Search { query, level, wait } => {
                assert_eq!(rt; *level, want, "at {line}");
                assert_eq!(rt; query.vector.to_hex(rt.alloc())?.as_str(), "0f");
                assert!(rt; *wait);
            }
            _ => assert!(rt; false, "at {line}"),
        }
    }
    Ok(())
}

#[test]
fn writes_and_ticks_are_read(rt: HostRuntime) -> Result<(), Fail> {
    let collection = read_header(rt.alloc(), br#"{"op":"create","dim":8}"#)?;
    let insert = read_line(
        rt.alloc(),
        br#"{"op":"insert","key":-5,"vector":"0f"}"#,
        &collection,
    )?;
    assert!(rt; matches!(&insert.what, Ask::Write(Write::Insert(row)) if row.key == Key(-5)));
    let upsert = read_line(
        rt.alloc(),
        br#"{"op":"upsert","key":5,"vector":"0f"}"#,
        &collection,
    )?;
    assert!(rt; matches!(&upsert.what, Ask::Write(Write::Upsert(row)) if row.vector.dim() == 8));
    let delete = read_line(
        rt.alloc(),
        br#"{"op":"delete","key":9223372036854775807}"#,
        &collection,
    )?;
    assert!(rt; matches!(&delete.what, Ask::Write(Write::Delete(Key(i64::MAX)))));
    let tick = read_line(rt.alloc(), br#"{"op":"tick"}"#, &collection)?;
    assert!(rt; matches!(&tick.what, Ask::Tick));
    Ok(())
}

#[test]
fn a_header_has_its_metric_and_columns(rt: HostRuntime) -> Result<(), Fail> {
    let collection = read_header(rt.alloc(), DOCUMENTS)?;
    assert_eq!(rt; collection.metric, Metric::Jaccard);
    let columns = collection.schema.columns.as_slice();
    assert_eq!(rt; columns.len(), 2);
    assert!(rt; columns[0].0.is("lang"));
    assert_eq!(rt; columns[0].1, Kind::Text);
    assert!(rt; columns[1].0.is("year"));
    assert_eq!(rt; columns[1].1, Kind::Int);
    let plain = read_header(rt.alloc(), br#"{"op":"create","dim":8}"#)?;
    assert_eq!(rt; plain.metric, Metric::Hamming);
    assert!(rt; plain.schema.columns.as_slice().is_empty());
    Ok(())
}

#[test]
fn a_header_has_its_channels_and_seal_rows(rt: HostRuntime) -> Result<(), Fail> {
    for (line, channels, seal_rows) in [
        (r#"{"op":"create","dim":8}"#, 1, 1_024),
        (r#"{"op":"create","dim":8,"channels":2}"#, 2, 1_024),
        (r#"{"op":"create","dim":8,"seal_rows":2}"#, 1, 2),
        (
            r#"{"op":"create","dim":8,"channels":16,"seal_rows":65536}"#,
            16,
            65_536,
        ),
        (
            r#"{"seal_rows":3,"channels":0,"op":"create","dim":8,"channels":4}"#,
            4,
            3,
        ),
    ] {
        let collection = read_header(rt.alloc(), line.as_bytes())?;
        assert_eq!(rt; collection.channels, channels, "at {line}");
        assert_eq!(rt; collection.seal_rows, seal_rows, "at {line}");
    }
    Ok(())
}

#[test]
fn the_caller_and_the_wait_of_a_line_are_refused_in_their_places(
    rt: HostRuntime,
) -> Result<(), Fail> {
    let collection = read_header(rt.alloc(), br#"{"op":"create","dim":8}"#)?;
    for (line, want) in [
        (r#"{"op":"handoff"}"#, Reason::BadOp),
        (r#"{"op":"compact"}"#, Reason::BadOp),
        (r#"{"op":"move","from":0,"to":0}"#, Reason::BadOp),
        (
            r#"{"op":"tick","caller":16,"wait":true}"#,
            Reason::UnknownMember,
        ),
        (r#"{"op":"meet","caller":16}"#, Reason::UnknownMember),
        (r#"{"op":"meet","caller":0}"#, Reason::UnknownMember),
        (r#"{"op":"seal","key":1}"#, Reason::UnknownMember),
        (r#"{"op":"get","key":1,"k":1}"#, Reason::UnknownMember),
        (
            r#"{"op":"search","caller":16,"nprobe":1}"#,
            Reason::UnknownMember,
        ),
        (r#"{"op":"tick","caller":16}"#, Reason::BadCaller),
        (r#"{"op":"seal","caller":-1}"#, Reason::BadCaller),
        (r#"{"op":"delete","caller":"1"}"#, Reason::BadCaller),
        (r#"{"op":"insert","caller":1.0}"#, Reason::BadCaller),
        (r#"{"op":"upsert","caller":null}"#, Reason::BadCaller),
        (r#"{"op":"search","caller":16,"k":0}"#, Reason::BadCaller),
        (r#"{"op":"get","caller":16,"wait":1}"#, Reason::BadCaller),
        (r#"{"op":"get","caller":15}"#, Reason::BadKey),
        (
            r#"{"op":"get","key":1.5,"level":"strong","wait":1}"#,
            Reason::BadKey,
        ),
        (
            r#"{"op":"get","key":1,"level":"strong","wait":1}"#,
            Reason::BadLevel,
        ),
        (
            r#"{"op":"get","key":1,"level":"Session","delta_ms":1}"#,
            Reason::BadLevel,
        ),
        (
            r#"{"op":"search","vector":"00","k":1,"filter":"key ==","wait":1}"#,
            Reason::BadFilter,
        ),
        (
            r#"{"op":"search","vector":"00","k":1,"wait":1}"#,
            Reason::BadWait,
        ),
        (r#"{"op":"get","key":1,"wait":"true"}"#, Reason::BadWait),
        (r#"{"op":"get","key":1,"wait":null}"#, Reason::BadWait),
    ] {
        let refusal = read_line(rt.alloc(), line.as_bytes(), &collection).err();
        assert_eq!(rt; refusal, Some(LineError::Refused(want)), "at {line}");
    }
    Ok(())
}

#[test]
fn a_line_has_its_caller(rt: HostRuntime) -> Result<(), Fail> {
    let collection = read_header(rt.alloc(), br#"{"op":"create","dim":8}"#)?;
    for (line, want) in [
        (r#"{"op":"tick"}"#, 0),
        (r#"{"op":"tick","caller":0}"#, 0),
        (r#"{"op":"seal","caller":15}"#, 15),
        (r#"{"op":"insert","caller":1,"key":1,"vector":"0f"}"#, 1),
        (r#"{"op":"upsert","key":1,"vector":"0f","caller":2}"#, 2),
        (r#"{"op":"delete","key":1,"caller":9,"caller":3}"#, 3),
        (r#"{"op":"search","vector":"0f","k":1,"caller":4}"#, 4),
        (r#"{"op":"get","key":1,"caller":5}"#, 5),
        (r#"{"op":"meet"}"#, 0),
    ] {
        let request = read_line(rt.alloc(), line.as_bytes(), &collection)?;
        assert_eq!(rt; request.caller, want, "at {line}");
    }
    Ok(())
}

#[test]
fn a_get_has_its_key_its_level_and_its_wait(rt: HostRuntime) -> Result<(), Fail> {
    let collection = read_header(rt.alloc(), br#"{"op":"create","dim":8}"#)?;
    for (line, number, freshness, waits) in [
        (
            r#"{"op":"get","key":-7}"#,
            -7,
            Level::Bounded { delta_ms: 5_000 },
            true,
        ),
        (
            r#"{"op":"get","key":1,"level":"Strong","wait":true}"#,
            1,
            Level::Strong,
            true,
        ),
        (
            r#"{"op":"get","key":1,"delta_ms":7,"wait":false}"#,
            1,
            Level::Bounded { delta_ms: 7 },
            false,
        ),
    ] {
        let request = read_line(rt.alloc(), line.as_bytes(), &collection)?;
        match &request.what {
            Ask::Get { key, level, wait } => {
                assert_eq!(rt; *key, Key(number), "at {line}");
                assert_eq!(rt; *level, freshness, "at {line}");
                assert_eq!(rt; *wait, waits, "at {line}");
            }
            _ => assert!(rt; false, "at {line}"),
        }
    }
    Ok(())
}

#[test]
fn a_search_may_say_that_it_does_not_wait(rt: HostRuntime) -> Result<(), Fail> {
    let collection = read_header(rt.alloc(), br#"{"op":"create","dim":8}"#)?;
    for (line, waits) in [
        (r#"{"op":"search","vector":"0f","k":1,"wait":false}"#, false),
        (r#"{"op":"search","vector":"0f","k":1,"wait":true}"#, true),
    ] {
        let request = read_line(rt.alloc(), line.as_bytes(), &collection)?;
        assert!(rt;
            matches!(&request.what, Ask::Search { wait, .. } if *wait == waits),
            "at {line}"
        );
    }
    Ok(())
}

#[test]
fn seals_and_meets_are_read(rt: HostRuntime) -> Result<(), Fail> {
    let collection = read_header(rt.alloc(), br#"{"op":"create","dim":8}"#)?;
    let seal = read_line(rt.alloc(), br#"{"op":"seal"}"#, &collection)?;
    assert!(rt; matches!(&seal.what, Ask::Seal));
    let meet = read_line(rt.alloc(), br#"{"op":"meet"}"#, &collection)?;
    assert!(rt; matches!(&meet.what, Ask::Meet));
    Ok(())
}

#[test]
fn fields_stand_in_the_order_of_the_columns(rt: HostRuntime) -> Result<(), Fail> {
    let collection = read_header(rt.alloc(), DOCUMENTS)?;
    let line =
        br#"{"op":"insert","key":1,"vector":"0f","fields":{"year":1,"year":2021,"lang":"en"}}"#;
    let insert = read_line(rt.alloc(), line, &collection)?;
    assert!(rt;
        matches!(&insert.what, Ask::Write(Write::Insert(row)) if is_english(row.fields.as_slice()))
    );
    Ok(())
}

fn is_english(fields: &[Field]) -> bool {
    match fields {
        [Field::Text(lang), Field::Int(2021)] => lang.is("en"),
        _ => false,
    }
}

#[test]
fn a_search_has_its_filter(rt: HostRuntime) -> Result<(), Fail> {
    let collection = read_header(rt.alloc(), DOCUMENTS)?;
    for (line, want) in [
        (r#"{"op":"search","vector":"0f","k":1}"#, false),
        (r#"{"op":"search","vector":"0f","k":1,"filter":""}"#, false),
        (
            r#"{"op":"search","vector":"0f","k":1,"filter":"   "}"#,
            false,
        ),
        (
            r#"{"op":"search","vector":"0f","k":1,"filter":"year >= 2020"}"#,
            true,
        ),
    ] {
        let request = read_line(rt.alloc(), line.as_bytes(), &collection)?;
        match &request.what {
            Ask::Search { query, .. } => match &query.filter {
                Some(filter) => assert!(rt; want && is_recent(filter), "at {line}"),
                None => assert!(rt; !want, "at {line}"),
            },
            _ => assert!(rt; false, "at {line}"),
        }
    }
    Ok(())
}

fn is_recent(filter: &Filter) -> bool {
    matches!(
        filter,
        Filter::Compare {
            left: Operand::Column(1),
            op: CompareOp::GreaterEqual,
            right: Field::Int(2020),
        }
    )
}

#[test]
fn what_is_one_longer_than_the_limit_is_refused(rt: HostRuntime) -> Result<(), Fail> {
    let collection = read_header(rt.alloc(), DOCUMENTS)?;
    for (before, piece, most, after, want) in [
        (
            r#"{"op":"insert","key":1,"vector":"0f","fields":{"year":1,"lang":""#,
            "a",
            1_024,
            r#""}}"#,
            Reason::BadFields,
        ),
        (
            r#"{"op":"search","vector":"0f","k":1,"filter":""#,
            " ",
            4_096,
            r#""}"#,
            Reason::BadFilter,
        ),
        (
            r#"{"op":"search","vector":"0f","k":1,"filter":"key == 1"#,
            " ",
            4_088,
            r#""}"#,
            Reason::BadFilter,
        ),
        (
            r#"{"op":"search","vector":"0f","k":1,"filter":""#,
            "!",
            32,
            r#"key == 1"}"#,
            Reason::BadFilter,
        ),
    ] {
        let good = line_of(rt.alloc(), before, piece, most, after)?;
        assert!(rt;
            read_line(rt.alloc(), good.as_bytes(), &collection).is_ok(),
            "at {before}"
        );
        let long = line_of(rt.alloc(), before, piece, most.saturating_add(1), after)?;
        let refusal = read_line(rt.alloc(), long.as_bytes(), &collection).err();
        assert_eq!(rt; refusal, Some(LineError::Refused(want)), "at {before}");
    }
    Ok(())
}
