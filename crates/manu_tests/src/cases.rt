//! Runs that end well.

use crate::runs::check;
use std::test::Fail;

const CREATE: &str = "{\"op\":\"create\",\"dim\":8}";

const CREATED: &str = "{\"answer\":\"created\",\"line\":1}";

const INSERT: &str = "{\"op\":\"insert\",\"key\":1,\"vector\":\"0f\"}";

const STRONG: &str = "{\"op\":\"search\",\"vector\":\"0f\",\"k\":1,\"level\":\"Strong\"}";

#[test]
fn a_write_is_found_by_a_strong_search(rt: HostRuntime) -> Result<(), Fail> {
    check(
        &rt,
        rt.alloc(),
        &[CREATE],
        &[
            CREATED,
            "{\"answer\":\"end\",\"failed\":0,\"live\":0,\"node_live\":0,\"node_rows\":0,\"tail\":0,\"ts\":1,\"waiting\":0}",
        ],
    )?;
    check(
        &rt,
        rt.alloc(),
        &[CREATE, INSERT, STRONG],
        &[
            CREATED,
            "{\"answer\":\"ok\",\"line\":2,\"ts\":1}",
            "{\"answer\":\"hits\",\"guarantee\":2,\"hits\":[[0,1]],\"line\":3,\"now\":2,\"ts\":3}",
            "{\"answer\":\"end\",\"failed\":0,\"live\":1,\"node_live\":0,\"node_rows\":0,\"tail\":1,\"ts\":4,\"waiting\":0}",
        ],
    )?;
    check(
        &rt,
        rt.alloc(),
        &[CREATE, INSERT, "{\"op\":\"search\",\"k\":1}", STRONG],
        &[
            CREATED,
            "{\"answer\":\"ok\",\"line\":2,\"ts\":1}",
            "{\"answer\":\"refused\",\"line\":3,\"reason\":\"NoVector\"}",
            "{\"answer\":\"hits\",\"guarantee\":2,\"hits\":[[0,1]],\"line\":4,\"now\":2,\"ts\":3}",
            "{\"answer\":\"end\",\"failed\":0,\"live\":1,\"node_live\":0,\"node_rows\":0,\"tail\":1,\"ts\":4,\"waiting\":0}",
        ],
    )?;
    Ok(())
}

#[test]
fn a_live_key_is_not_inserted_again(rt: HostRuntime) -> Result<(), Fail> {
    check(
        &rt,
        rt.alloc(),
        &[CREATE, INSERT, INSERT],
        &[
            CREATED,
            "{\"answer\":\"ok\",\"line\":2,\"ts\":1}",
            "{\"answer\":\"exists\",\"line\":3,\"ts\":2}",
            "{\"answer\":\"end\",\"failed\":0,\"live\":1,\"node_live\":0,\"node_rows\":0,\"tail\":1,\"ts\":3,\"waiting\":0}",
        ],
    )?;
    Ok(())
}

#[test]
fn a_snapshot_is_as_old_as_its_level_allows(rt: HostRuntime) -> Result<(), Fail> {
    check(
        &rt,
        rt.alloc(),
        &[
            CREATE,
            INSERT,
            "{\"op\":\"search\",\"vector\":\"0f\",\"k\":1,\"level\":\"Eventually\"}",
        ],
        &[
            CREATED,
            "{\"answer\":\"ok\",\"line\":2,\"ts\":1}",
            "{\"answer\":\"hits\",\"guarantee\":0,\"hits\":[],\"line\":3,\"now\":2,\"ts\":0}",
            "{\"answer\":\"end\",\"failed\":0,\"live\":1,\"node_live\":0,\"node_rows\":0,\"tail\":1,\"ts\":3,\"waiting\":0}",
        ],
    )?;
    check(
        &rt,
        rt.alloc(),
        &[
            CREATE,
            INSERT,
            "{\"op\":\"tick\"}",
            "{\"op\":\"search\",\"vector\":\"0f\",\"k\":1,\"level\":\"Session\"}",
        ],
        &[
            CREATED,
            "{\"answer\":\"ok\",\"line\":2,\"ts\":1}",
            "{\"answer\":\"ticked\",\"line\":3,\"ticks\":[2]}",
            "{\"answer\":\"hits\",\"guarantee\":1,\"hits\":[[0,1]],\"line\":4,\"now\":3,\"ts\":2}",
            "{\"answer\":\"end\",\"failed\":0,\"live\":1,\"node_live\":0,\"node_rows\":0,\"tail\":1,\"ts\":4,\"waiting\":0}",
        ],
    )?;
    Ok(())
}

#[test]
fn a_tie_goes_to_the_smaller_key(rt: HostRuntime) -> Result<(), Fail> {
    check(
        &rt,
        rt.alloc(),
        &[
            CREATE,
            "{\"op\":\"insert\",\"key\":9,\"vector\":\"01\"}",
            "{\"op\":\"insert\",\"key\":3,\"vector\":\"80\"}",
            "{\"op\":\"search\",\"vector\":\"00\",\"k\":1,\"level\":\"Strong\"}",
        ],
        &[
            CREATED,
            "{\"answer\":\"ok\",\"line\":2,\"ts\":1}",
            "{\"answer\":\"ok\",\"line\":3,\"ts\":2}",
            "{\"answer\":\"hits\",\"guarantee\":3,\"hits\":[[1,3]],\"line\":4,\"now\":3,\"ts\":4}",
            "{\"answer\":\"end\",\"failed\":0,\"live\":2,\"node_live\":0,\"node_rows\":0,\"tail\":2,\"ts\":5,\"waiting\":0}",
        ],
    )?;
    Ok(())
}

#[test]
fn a_deleted_row_is_not_found_and_does_not_count(rt: HostRuntime) -> Result<(), Fail> {
    check(
        &rt,
        rt.alloc(),
        &[
            CREATE,
            "{\"op\":\"upsert\",\"key\":1,\"vector\":\"00\"}",
            "{\"op\":\"upsert\",\"key\":1,\"vector\":\"ff\"}",
            "{\"op\":\"delete\",\"key\":2}",
            "{\"op\":\"delete\",\"key\":1}",
            "{\"op\":\"search\",\"vector\":\"00\",\"k\":1,\"level\":\"Strong\"}",
        ],
        &[
            CREATED,
            "{\"answer\":\"ok\",\"line\":2,\"ts\":1,\"was\":false}",
            "{\"answer\":\"ok\",\"line\":3,\"ts\":2,\"was\":true}",
            "{\"answer\":\"ok\",\"line\":4,\"ts\":3,\"was\":false}",
            "{\"answer\":\"ok\",\"line\":5,\"ts\":4,\"was\":true}",
            "{\"answer\":\"hits\",\"guarantee\":5,\"hits\":[],\"line\":6,\"now\":5,\"ts\":6}",
            "{\"answer\":\"end\",\"failed\":0,\"live\":0,\"node_live\":0,\"node_rows\":0,\"tail\":2,\"ts\":7,\"waiting\":0}",
        ],
    )?;
    Ok(())
}
