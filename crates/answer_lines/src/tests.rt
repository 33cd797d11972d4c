//! Worked examples: one line of each kind.

use crate::{Answer, MeetReply, Named, Reason, WriteReply, Wrote, line};
use hybrid_time::Timestamp;
use row_types::{BitVector, Distance, Field, Hit, Key, List, Row, Text};
use std::test::Fail;

#[test]
fn a_write_is_shown_by_what_it_met(rt: HostRuntime) -> Result<(), Fail> {
    for (number, what, want) in [
        (2, Wrote::Inserted, r#"{"answer":"ok","line":2,"ts":1}"#),
        (3, Wrote::Exists, r#"{"answer":"exists","line":3,"ts":1}"#),
        (
            4,
            Wrote::Was(true),
            r#"{"answer":"ok","line":4,"ts":1,"was":true}"#,
        ),
        (
            5,
            Wrote::Was(false),
            r#"{"answer":"ok","line":5,"ts":1,"was":false}"#,
        ),
    ] {
        let reply = WriteReply {
            ts: Timestamp(1),
            what,
        };
        let mut text = line(rt.alloc(), number, &Answer::Wrote(reply))?;
        assert_eq!(rt; text.pop(), Some(b'\n'));
        assert_eq!(rt; text.as_slice(), want.as_bytes());
    }
    Ok(())
}

#[test]
fn hits_show_their_distance_and_key(rt: HostRuntime) -> Result<(), Fail> {
    let mut hits = Vec::new(rt.alloc());
    hits.push(Hit {
        distance: Distance::Hamming(0),
        key: Key(-1),
    })?;
    hits.push(Hit {
        distance: Distance::Jaccard { num: 2, den: 4 },
        key: Key(5),
    })?;
    let answer = Answer::Hits {
        now: Timestamp(2),
        guarantee: Timestamp(2),
        ts: Timestamp(3),
        hits: List::of(hits),
    };
    let text = line(rt.alloc(), 3, &answer)?;
    let want = r#"{"answer":"hits","guarantee":2,"hits":[[0,-1],[2,4,5]],"line":3,"now":2,"ts":3}"#;
    assert_eq!(rt;
        text.as_slice().split_last(),
        Some((&b'\n', want.as_bytes()))
    );
    Ok(())
}

#[test]
fn a_row_is_shown_with_its_fields_by_name(rt: HostRuntime) -> Result<(), Fail> {
    let alloc = rt.alloc();
    let mut names = Vec::new(alloc);
    names.push(Text::copied(alloc, "year")?)?;
    names.push(Text::copied(alloc, "lang")?)?;
    let mut fields = Vec::new(alloc);
    fields.push(Field::Int(-5))?;
    fields.push(Field::Text(Text::copied(alloc, "en")?))?;
    let row = Row {
        key: Key(1),
        vector: BitVector::from_bytes(alloc, &[1])?,
        fields: List::of(fields),
    };
    let answer = Answer::Found {
        now: Timestamp(5),
        guarantee: Timestamp(5),
        ts: Timestamp(6),
        row: Some(Named {
            row,
            names: List::of(names),
        }),
    };
    let text = line(alloc, 5, &answer)?;
    let want =
        r#"{"answer":"row","guarantee":5,"line":5,"now":5,"row":{"fields":{"lang":"en","year":-5},"key":1,"vector":"01"},"ts":6}"#;
    assert_eq!(rt;
        text.as_slice().split_last(),
        Some((&b'\n', want.as_bytes()))
    );
    Ok(())
}

#[test]
fn the_other_answers_are_shown(rt: HostRuntime) -> Result<(), Fail> {
    let mut ticks = Vec::new(rt.alloc());
    ticks.push(Timestamp(2))?;
    let mut seals = Vec::new(rt.alloc());
    seals.push((Timestamp(2), 1))?;
    let met = MeetReply {
        ts: Timestamp(7),
        live: 3,
        tail: 1,
        waiting: 0,
        node_rows: 2,
        node_live: 2,
        failed: 0,
    };
    let end = MeetReply {
        ts: Timestamp(u64::MAX),
        live: 3,
        tail: 1,
        waiting: 2,
        node_rows: 5,
        node_live: 4,
        failed: 6,
    };
    for (answer, want) in [
        (Answer::Created, r#"{"answer":"created","line":1}"#),
        (
            Answer::Ticked(List::of(ticks)),
            r#"{"answer":"ticked","line":1,"ticks":[2]}"#,
        ),
        (
            Answer::Found {
                now: Timestamp(1),
                guarantee: Timestamp(1),
                ts: Timestamp(2),
                row: None,
            },
            r#"{"answer":"row","guarantee":1,"line":1,"now":1,"row":null,"ts":2}"#,
        ),
        (
            Answer::Pending {
                now: Timestamp(2),
                guarantee: Timestamp(2),
                channel: 0,
                tick: Timestamp(0),
            },
            r#"{"answer":"pending","channel":0,"guarantee":2,"line":1,"now":2,"tick":0}"#,
        ),
        (
            Answer::Sealed(List::of(seals)),
            r#"{"answer":"sealed","line":1,"seals":[[2,1]]}"#,
        ),
        (
            Answer::Met(met),
            r#"{"answer":"met","failed":0,"line":1,"live":3,"node_live":2,"node_rows":2,"tail":1,"ts":7,"waiting":0}"#,
        ),
        (
            Answer::End(end),
            r#"{"answer":"end","failed":6,"live":3,"node_live":4,"node_rows":5,"tail":1,"ts":18446744073709551615,"waiting":2}"#,
        ),
        (
            Answer::Refused(Reason::NoVector),
            r#"{"answer":"refused","line":1,"reason":"NoVector"}"#,
        ),
        (
            Answer::Refused(Reason::BadCaller),
            r#"{"answer":"refused","line":1,"reason":"BadCaller"}"#,
        ),
        (
            Answer::Refused(Reason::BadWait),
            r#"{"answer":"refused","line":1,"reason":"BadWait"}"#,
        ),
    ] {
        let mut text = line(rt.alloc(), 1, &answer)?;
        assert_eq!(rt; text.pop(), Some(b'\n'));
        assert_eq!(rt; text.as_slice(), want.as_bytes());
    }
    Ok(())
}
