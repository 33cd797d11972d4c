//! The session of `examples/near-duplicates.jsonl`; that of `examples/documents.jsonl` is what `manu` is
//! run on.

use crate::runs::check;
use std::test::Fail;

#[test]
fn near_duplicates_are_found(rt: HostRuntime) -> Result<(), Fail> {
    let input = [
        r#"{"op":"create","dim":64}"#,
        r#"{"op":"insert","key":40017,"vector":"c3d4b2a190887766"}"#,
        r#"{"op":"insert","key":40018,"vector":"c3d4b2a190887767"}"#,
        r#"{"op":"insert","key":51200,"vector":"0f1e2d3c4b5a6978"}"#,
        r#"{"op":"insert","key":40017,"vector":"ffffffffffffffff"}"#,
        r#"{"op":"search","vector":"c3d4b2a190887766","k":2,"level":"Strong"}"#,
        r#"{"op":"upsert","key":51200,"vector":"c3d4b2a190887700"}"#,
        r#"{"op":"delete","key":40018}"#,
        r#"{"op":"search","vector":"c3d4b2a190887766","k":3,"level":"Session"}"#,
        r#"{"op":"tick"}"#,
        r#"{"op":"search","vector":"c3d4b2a190887766","k":3,"level":"Eventually"}"#,
        r#"{"op":"search","vector":"c3d4","k":3}"#,
    ];
    let answers = [
        r#"{"answer":"created","line":1}"#,
        r#"{"answer":"ok","line":2,"ts":1}"#,
        r#"{"answer":"ok","line":3,"ts":2}"#,
        r#"{"answer":"ok","line":4,"ts":3}"#,
        r#"{"answer":"exists","line":5,"ts":4}"#,
        r#"{"answer":"hits","guarantee":5,"hits":[[0,40017],[1,40018]],"line":6,"now":5,"ts":6}"#,
        r#"{"answer":"ok","line":7,"ts":7,"was":true}"#,
        r#"{"answer":"ok","line":8,"ts":8,"was":true}"#,
        r#"{"answer":"hits","guarantee":8,"hits":[[0,40017],[4,51200]],"line":9,"now":9,"ts":10}"#,
        r#"{"answer":"ticked","line":10,"ticks":[11]}"#,
        r#"{"answer":"hits","guarantee":0,"hits":[[0,40017],[4,51200]],"line":11,"now":12,"ts":11}"#,
        r#"{"answer":"refused","line":12,"reason":"BadVector"}"#,
        r#"{"answer":"end","failed":0,"live":2,"node_live":0,"node_rows":0,"tail":4,"ts":13,"waiting":0}"#,
    ];
    check(&rt, rt.alloc(), &input, &answers)?;
    Ok(())
}
