//! Sessions of several callers and channels, with meets.

use crate::runs::{check, check_held};
use line_gates::Hold;
use manu_edge::At;
use std::test::Fail;

const CREATE: &str = r#"{"op":"create","dim":8}"#;

const TWO_CHANNELS: &str = r#"{"op":"create","dim":8,"channels":2}"#;

const CREATED: &str = r#"{"answer":"created","line":1}"#;

#[test]
fn a_read_that_does_not_wait_is_pending(rt: HostRuntime) -> Result<(), Fail> {
    check(
        &rt,
        rt.alloc(),
        &[
            CREATE,
            r#"{"op":"insert","key":1,"vector":"0f"}"#,
            r#"{"op":"search","vector":"0f","k":1,"level":"Strong","wait":false}"#,
        ],
        &[
            CREATED,
            r#"{"answer":"ok","line":2,"ts":1}"#,
            r#"{"answer":"pending","channel":0,"guarantee":2,"line":3,"now":2,"tick":0}"#,
            r#"{"answer":"end","failed":0,"live":1,"node_live":0,"node_rows":0,"tail":1,"ts":3,"waiting":0}"#,
        ],
    )
}

#[test]
fn a_snapshot_is_of_all_channels(rt: HostRuntime) -> Result<(), Fail> {
    check(
        &rt,
        rt.alloc(),
        &[
            TWO_CHANNELS,
            r#"{"op":"insert","key":2,"vector":"00"}"#,
            r#"{"op":"tick"}"#,
            r#"{"op":"insert","key":1,"vector":"01"}"#,
            r#"{"op":"get","key":1,"level":"Strong"}"#,
            r#"{"op":"search","vector":"00","k":2,"level":"Eventually"}"#,
            r#"{"op":"search","vector":"00","k":2,"level":"Strong"}"#,
        ],
        &[
            CREATED,
            r#"{"answer":"ok","line":2,"ts":1}"#,
            r#"{"answer":"ticked","line":3,"ticks":[2,3]}"#,
            r#"{"answer":"ok","line":4,"ts":4}"#,
            r#"{"answer":"row","guarantee":5,"line":5,"now":5,"row":{"fields":{},"key":1,"vector":"01"},"ts":6}"#,
            r#"{"answer":"hits","guarantee":0,"hits":[[0,2]],"line":6,"now":7,"ts":2}"#,
            r#"{"answer":"hits","guarantee":8,"hits":[[0,2],[1,1]],"line":7,"now":8,"ts":9}"#,
            r#"{"answer":"end","failed":0,"live":2,"node_live":0,"node_rows":0,"tail":2,"ts":11,"waiting":0}"#,
        ],
    )
}

#[test]
fn a_deleted_row_is_not_got(rt: HostRuntime) -> Result<(), Fail> {
    check(
        &rt,
        rt.alloc(),
        &[
            CREATE,
            r#"{"op":"upsert","key":1,"vector":"00"}"#,
            r#"{"op":"upsert","key":1,"vector":"ff"}"#,
            r#"{"op":"delete","key":2}"#,
            r#"{"op":"delete","key":1}"#,
            r#"{"op":"get","key":1,"level":"Strong"}"#,
        ],
        &[
            CREATED,
            r#"{"answer":"ok","line":2,"ts":1,"was":false}"#,
            r#"{"answer":"ok","line":3,"ts":2,"was":true}"#,
            r#"{"answer":"ok","line":4,"ts":3,"was":false}"#,
            r#"{"answer":"ok","line":5,"ts":4,"was":true}"#,
            r#"{"answer":"row","guarantee":5,"line":6,"now":5,"row":null,"ts":6}"#,
            r#"{"answer":"end","failed":0,"live":0,"node_live":0,"node_rows":0,"tail":2,"ts":7,"waiting":0}"#,
        ],
    )
}

#[test]
fn a_seal_ends_the_tail(rt: HostRuntime) -> Result<(), Fail> {
    check(
        &rt,
        rt.alloc(),
        &[
            r#"{"op":"create","dim":8,"seal_rows":2}"#,
            r#"{"op":"insert","key":1,"vector":"00"}"#,
            r#"{"op":"insert","key":2,"vector":"01"}"#,
            r#"{"op":"insert","key":3,"vector":"03"}"#,
            r#"{"op":"seal"}"#,
            r#"{"op":"seal"}"#,
            r#"{"op":"search","vector":"00","k":3,"level":"Strong"}"#,
        ],
        &[
            CREATED,
            r#"{"answer":"ok","line":2,"ts":1}"#,
            r#"{"answer":"ok","line":3,"ts":2}"#,
            r#"{"answer":"ok","line":4,"ts":3}"#,
            r#"{"answer":"sealed","line":5,"seals":[[4,1]]}"#,
            r#"{"answer":"sealed","line":6,"seals":[[5,0]]}"#,
            r#"{"answer":"hits","guarantee":6,"hits":[[0,1],[1,2],[2,3]],"line":7,"now":6,"ts":7}"#,
            r#"{"answer":"end","failed":0,"live":3,"node_live":0,"node_rows":0,"tail":0,"ts":8,"waiting":2}"#,
        ],
    )
}

#[test]
fn documents_are_found_behind_a_meet(rt: HostRuntime) -> Result<(), Fail> {
    check(
        &rt,
        rt.alloc(),
        &[
            r#"{"op":"create","dim":64,"fields":[{"name":"lang","type":"VARCHAR"},{"name":"year","type":"INT64"}]}"#,
            r#"{"op":"insert","key":101,"vector":"f0f0f0f0f0f0f0f0","fields":{"lang":"en","year":2021}}"#,
            r#"{"op":"insert","key":102,"vector":"f0f0f0f0f0f0f0f1","fields":{"lang":"de","year":2022}}"#,
            r#"{"op":"insert","key":103,"vector":"f0f0f0f0f0f0f0ff","fields":{"lang":"en","year":2019}}"#,
            r#"{"op":"insert","key":104,"vector":"f0f0f0f0f0f0ffff","fields":{"lang":"en","year":2023}}"#,
            r#"{"op":"meet"}"#,
            r#"{"op":"search","vector":"f0f0f0f0f0f0f0f0","k":3,"filter":"year >= 2020 && lang == \"en\""}"#,
        ],
        &[
            CREATED,
            r#"{"answer":"ok","line":2,"ts":1}"#,
            r#"{"answer":"ok","line":3,"ts":2}"#,
            r#"{"answer":"ok","line":4,"ts":3}"#,
            r#"{"answer":"ok","line":5,"ts":4}"#,
            r#"{"answer":"met","failed":0,"line":6,"live":4,"node_live":0,"node_rows":0,"tail":4,"ts":5,"waiting":0}"#,
            r#"{"answer":"hits","guarantee":0,"hits":[[0,101],[8,104]],"line":7,"now":6,"ts":5}"#,
            r#"{"answer":"end","failed":0,"live":4,"node_live":0,"node_rows":0,"tail":4,"ts":7,"waiting":0}"#,
        ],
    )
}

#[test]
fn a_held_search_finds_a_row_that_is_deleted_meanwhile(rt: HostRuntime) -> Result<(), Fail> {
    let hold = Hold::new(5, At::BeforeScan, 6);
    check_held(
        &rt,
        rt.alloc(),
        &[
            CREATE,
            r#"{"op":"insert","key":1,"vector":"00"}"#,
            r#"{"op":"insert","key":2,"vector":"ff"}"#,
            r#"{"op":"meet"}"#,
            r#"{"op":"search","vector":"00","k":2,"level":"Eventually"}"#,
            r#"{"op":"delete","key":1,"caller":1}"#,
        ],
        &[
            CREATED,
            r#"{"answer":"ok","line":2,"ts":1}"#,
            r#"{"answer":"ok","line":3,"ts":2}"#,
            r#"{"answer":"met","failed":0,"line":4,"live":2,"node_live":0,"node_rows":0,"tail":2,"ts":3,"waiting":0}"#,
            r#"{"answer":"hits","guarantee":0,"hits":[[0,1],[8,2]],"line":5,"now":4,"ts":3}"#,
            r#"{"answer":"ok","line":6,"ts":5,"was":true}"#,
            r#"{"answer":"end","failed":0,"live":1,"node_live":0,"node_rows":0,"tail":2,"ts":6,"waiting":0}"#,
        ],
        &hold,
    )?;
    assert!(rt; hold.was_kept());
    Ok(())
}

#[test]
fn writes_of_two_channels_pass_each_other(rt: HostRuntime) -> Result<(), Fail> {
    let hold = Hold::new(2, At::AfterEnter, 3);
    check_held(
        &rt,
        rt.alloc(),
        &[
            TWO_CHANNELS,
            r#"{"op":"insert","key":2,"vector":"00"}"#,
            r#"{"op":"insert","key":1,"vector":"01","caller":1}"#,
        ],
        &[
            CREATED,
            r#"{"answer":"ok","line":2,"ts":2}"#,
            r#"{"answer":"ok","line":3,"ts":1}"#,
            r#"{"answer":"end","failed":0,"live":2,"node_live":0,"node_rows":0,"tail":2,"ts":3,"waiting":0}"#,
        ],
        &hold,
    )?;
    assert!(rt; hold.was_kept());
    Ok(())
}
