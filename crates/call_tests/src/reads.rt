//! What one caller is answered.

use crate::fronts::two_channels;
use crate::lines::serve_all;
use crate::steps::Step;
use hybrid_time::Level;
use manu_edge::OpenGate;
use std::str;
use std::test::Fail;

const STEPS: [Step; 13] = [
    Step::Insert(2, 0x00),
    Step::Tick,
    Step::Insert(1, 0x01),
    Step::Get {
        key: 1,
        level: Level::Strong,
        wait: true,
    },
    Step::Search {
        level: Level::Eventually,
        wait: true,
    },
    Step::Search {
        level: Level::Strong,
        wait: true,
    },
    Step::Search {
        level: Level::Strong,
        wait: false,
    },
    Step::Seal,
    Step::Upsert(2, 0xff),
    Step::Delete(1),
    Step::Insert(2, 0x00),
    Step::Get {
        key: 1,
        level: Level::Eventually,
        wait: false,
    },
    Step::Search {
        level: Level::Strong,
        wait: true,
    },
];

const ANSWERS: &str = r#"{"answer":"ok","line":2,"ts":1}
{"answer":"ticked","line":3,"ticks":[2,3]}
{"answer":"ok","line":4,"ts":4}
{"answer":"row","guarantee":5,"line":5,"now":5,"row":{"fields":{},"key":1,"vector":"01"},"ts":6}
{"answer":"hits","guarantee":0,"hits":[[0,2]],"line":6,"now":7,"ts":2}
{"answer":"hits","guarantee":8,"hits":[[0,2],[1,1]],"line":7,"now":8,"ts":9}
{"answer":"pending","channel":0,"guarantee":11,"line":8,"now":11,"tick":9}
{"answer":"sealed","line":9,"seals":[[12,1],[13,1]]}
{"answer":"ok","line":10,"ts":14,"was":true}
{"answer":"ok","line":11,"ts":15,"was":true}
{"answer":"exists","line":12,"ts":16}
{"answer":"row","guarantee":0,"line":13,"now":17,"row":{"fields":{},"key":1,"vector":"01"},"ts":10}
{"answer":"hits","guarantee":18,"hits":[[8,2]],"line":14,"now":18,"ts":19}
"#;

#[test]
fn a_caller_is_answered_over_two_channels(rt: HostRuntime) -> Result<(), Fail> {
    let alloc = rt.alloc();
    let (front, mut seat) = two_channels(alloc)?;
    let answers = serve_all(&rt, alloc, &front, &OpenGate, &mut seat, 2, &STEPS)?;
    assert_eq!(rt; str::from_utf8(answers.as_slice()), Ok(ANSWERS));
    let (shards, next) = front.close(seat);
    assert_eq!(rt; next, 21);
    let [one, other] = shards.as_slice() else {
        return Err(Fail::from("two shards were made"));
    };
    assert_eq!(rt; (one.channel(), one.len()), (0, 11));
    assert_eq!(rt; (other.channel(), other.len()), (1, 12));
    Ok(())
}
