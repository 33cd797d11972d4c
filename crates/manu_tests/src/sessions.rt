//! Runs with a metric, with fields and filters, at the greatest sizes, and of lines that are refused.

use crate::runs::{Given, check, joined, run};
use manu_edge::FixedMoments;
use manu_serve::Status;
use std::alloc::{AllocError, Global};
use std::test::Fail;

const CREATED: &str = "{\"answer\":\"created\",\"line\":1}";

#[test]
fn jaccard_distances_are_fractions(rt: HostRuntime) -> Result<(), Fail> {
    check(
        &rt,
        rt.alloc(),
        &[
            "{\"op\":\"create\",\"dim\":8,\"metric\":\"JACCARD\"}",
            "{\"op\":\"insert\",\"key\":1,\"vector\":\"00\"}",
            "{\"op\":\"insert\",\"key\":2,\"vector\":\"ff\"}",
            "{\"op\":\"search\",\"vector\":\"00\",\"k\":2,\"level\":\"Strong\"}",
        ],
        &[
            CREATED,
            "{\"answer\":\"ok\",\"line\":2,\"ts\":1}",
            "{\"answer\":\"ok\",\"line\":3,\"ts\":2}",
            "{\"answer\":\"hits\",\"guarantee\":3,\"hits\":[[0,1,1],[8,8,2]],\"line\":4,\"now\":3,\"ts\":4}",
            "{\"answer\":\"end\",\"failed\":0,\"live\":2,\"node_live\":0,\"node_rows\":0,\"tail\":2,\"ts\":5,\"waiting\":0}",
        ],
    )?;
    Ok(())
}

#[test]
fn equal_fractions_go_to_the_smaller_key(rt: HostRuntime) -> Result<(), Fail> {
    check(
        &rt,
        rt.alloc(),
        &[
            "{\"op\":\"create\",\"dim\":8,\"metric\":\"JACCARD\"}",
            "{\"op\":\"insert\",\"key\":7,\"vector\":\"80\"}",
            "{\"op\":\"insert\",\"key\":5,\"vector\":\"f0\"}",
            "{\"op\":\"search\",\"vector\":\"c0\",\"k\":2,\"level\":\"Strong\"}",
        ],
        &[
            CREATED,
            "{\"answer\":\"ok\",\"line\":2,\"ts\":1}",
            "{\"answer\":\"ok\",\"line\":3,\"ts\":2}",
            "{\"answer\":\"hits\",\"guarantee\":3,\"hits\":[[2,4,5],[1,2,7]],\"line\":4,\"now\":3,\"ts\":4}",
            "{\"answer\":\"end\",\"failed\":0,\"live\":2,\"node_live\":0,\"node_rows\":0,\"tail\":2,\"ts\":5,\"waiting\":0}",
        ],
    )?;
    Ok(())
}

#[test]
fn a_filter_asks_for_fields(rt: HostRuntime) -> Result<(), Fail> {
    check(
        &rt,
        rt.alloc(),
        &[
            "{\"op\":\"create\",\"dim\":64,\"fields\":[{\"name\":\"lang\",\"type\":\"VARCHAR\"},{\"name\":\"year\",\"type\":\"INT64\"}]}",
            "{\"op\":\"insert\",\"key\":101,\"vector\":\"f0f0f0f0f0f0f0f0\",\"fields\":{\"lang\":\"en\",\"year\":2021}}",
            "{\"op\":\"insert\",\"key\":102,\"vector\":\"f0f0f0f0f0f0f0f1\",\"fields\":{\"lang\":\"de\",\"year\":2022}}",
            "{\"op\":\"insert\",\"key\":103,\"vector\":\"f0f0f0f0f0f0f0ff\",\"fields\":{\"lang\":\"en\",\"year\":2019}}",
            "{\"op\":\"insert\",\"key\":104,\"vector\":\"f0f0f0f0f0f0ffff\",\"fields\":{\"lang\":\"en\",\"year\":2023}}",
            "{\"op\":\"search\",\"vector\":\"f0f0f0f0f0f0f0f0\",\"k\":3,\"level\":\"Strong\",\"filter\":\"year >= 2020 && lang == \\\"en\\\"\"}",
        ],
        &[
            CREATED,
            "{\"answer\":\"ok\",\"line\":2,\"ts\":1}",
            "{\"answer\":\"ok\",\"line\":3,\"ts\":2}",
            "{\"answer\":\"ok\",\"line\":4,\"ts\":3}",
            "{\"answer\":\"ok\",\"line\":5,\"ts\":4}",
            "{\"answer\":\"hits\",\"guarantee\":5,\"hits\":[[0,101],[8,104]],\"line\":6,\"now\":5,\"ts\":6}",
            "{\"answer\":\"end\",\"failed\":0,\"live\":4,\"node_live\":0,\"node_rows\":0,\"tail\":4,\"ts\":7,\"waiting\":0}",
        ],
    )?;
    Ok(())
}

// Some text, then `digit` so often that the vector has 1,024 digits, then some text.
fn with_digits(
    alloc: Global,
    text: &str,
    first: &str,
    digit: &str,
    behind: &str,
) -> Result<Vec<u8>, AllocError> {
    let mut line = text.as_bytes().to_vec(alloc)?;
    line.extend_from_slice(first.as_bytes())?;
    for _ in first.len()..1_024 {
        line.extend_from_slice(digit.as_bytes())?;
    }
    line.extend_from_slice(behind.as_bytes())?;
    line.push(b'\n')?;
    Ok(line)
}

#[test]
fn the_greatest_dimension_and_the_greatest_k(rt: HostRuntime) -> Result<(), Fail> {
    let alloc = rt.alloc();
    let mut input = joined(alloc, &["{\"op\":\"create\",\"dim\":4096}"])?;
    let lines = [
        ("{\"op\":\"insert\",\"key\":1,\"vector\":\"", "", "0", "\"}"),
        ("{\"op\":\"insert\",\"key\":2,\"vector\":\"", "", "f", "\"}"),
        (
            "{\"op\":\"insert\",\"key\":3,\"vector\":\"",
            "8",
            "0",
            "\"}",
        ),
        (
            "{\"op\":\"search\",\"k\":16384,\"level\":\"Strong\",\"vector\":\"",
            "",
            "0",
            "\"}",
        ),
    ];
    for (text, first, digit, behind) in lines {
        let line = with_digits(alloc, text, first, digit, behind)?;
        input.extend_from_slice(&line)?;
    }
    let given = Given {
        words: &["run", "--still"],
        input: &input,
        failing_reads: &[],
        failing_writes: &[],
    };
    let (status, output) = run(&rt, alloc, &given, &FixedMoments(10_000))?;
    let wanted = joined(
        alloc,
        &[
            CREATED,
            "{\"answer\":\"ok\",\"line\":2,\"ts\":1}",
            "{\"answer\":\"ok\",\"line\":3,\"ts\":2}",
            "{\"answer\":\"ok\",\"line\":4,\"ts\":3}",
            "{\"answer\":\"hits\",\"guarantee\":4,\"hits\":[[0,1],[1,3],[4096,2]],\"line\":5,\"now\":4,\"ts\":5}",
            "{\"answer\":\"end\",\"failed\":0,\"live\":3,\"node_live\":0,\"node_rows\":0,\"tail\":3,\"ts\":6,\"waiting\":0}",
        ],
    )?;
    assert_eq!(rt; status, Status::Done);
    assert_eq!(rt; output.as_slice(), wanted.as_slice());
    Ok(())
}

#[test]
fn each_reason_is_given_where_it_holds(rt: HostRuntime) -> Result<(), Fail> {
    check(
        &rt,
        rt.alloc(),
        &[
            "{\"op\":\"create\",\"dim\":8}",
            "{",
            "[]",
            "{\"op\":\"fly\"}",
            "{\"op\":\"create\",\"dim\":8}",
            "{\"op\":\"tick\",\"x\":1}",
            "{\"op\":\"tick\",\"caller\":16}",
            "{\"op\":\"delete\"}",
            "{\"op\":\"search\",\"k\":1}",
            "{\"op\":\"search\",\"vector\":\"0\",\"k\":1}",
            "{\"op\":\"insert\",\"key\":1,\"vector\":\"00\",\"fields\":{\"a\":1}}",
            "{\"op\":\"search\",\"vector\":\"00\",\"k\":0}",
            "{\"op\":\"search\",\"vector\":\"00\",\"k\":1,\"level\":\"strong\"}",
            "{\"op\":\"search\",\"vector\":\"00\",\"k\":1,\"filter\":\"key ==\"}",
            "{\"op\":\"search\",\"vector\":\"00\",\"k\":1,\"wait\":1}",
        ],
        &[
            CREATED,
            "{\"answer\":\"refused\",\"line\":2,\"reason\":\"NotJson\"}",
            "{\"answer\":\"refused\",\"line\":3,\"reason\":\"NotObject\"}",
            "{\"answer\":\"refused\",\"line\":4,\"reason\":\"BadOp\"}",
            "{\"answer\":\"refused\",\"line\":5,\"reason\":\"LateCreate\"}",
            "{\"answer\":\"refused\",\"line\":6,\"reason\":\"UnknownMember\"}",
            "{\"answer\":\"refused\",\"line\":7,\"reason\":\"BadCaller\"}",
            "{\"answer\":\"refused\",\"line\":8,\"reason\":\"BadKey\"}",
            "{\"answer\":\"refused\",\"line\":9,\"reason\":\"NoVector\"}",
            "{\"answer\":\"refused\",\"line\":10,\"reason\":\"BadVector\"}",
            "{\"answer\":\"refused\",\"line\":11,\"reason\":\"BadFields\"}",
            "{\"answer\":\"refused\",\"line\":12,\"reason\":\"BadK\"}",
            "{\"answer\":\"refused\",\"line\":13,\"reason\":\"BadLevel\"}",
            "{\"answer\":\"refused\",\"line\":14,\"reason\":\"BadFilter\"}",
            "{\"answer\":\"refused\",\"line\":15,\"reason\":\"BadWait\"}",
            "{\"answer\":\"end\",\"failed\":0,\"live\":0,\"node_live\":0,\"node_rows\":0,\"tail\":0,\"ts\":1,\"waiting\":0}",
        ],
    )?;
    Ok(())
}
