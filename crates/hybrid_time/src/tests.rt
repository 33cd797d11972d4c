//! Worked examples.

use crate::{Level, Timestamp, guarantee};

#[test]
fn a_millisecond_has_room_for_many_timestamps(rt: HostRuntime) {
    let last = (1 << 45) - 1;
    for (ms, ts) in [
        (0, 0),
        (1, 262_144),
        (10_000, 2_621_440_000),
        (last, last << 18),
        (last + 1, last << 18),
        (u64::MAX, last << 18),
    ] {
        assert_eq!(rt; Timestamp::of_moment(ms), Timestamp(ts), "at {ms}");
    }
    assert_eq!(rt; Timestamp(2_621_440_002).physical(), 10_000);
}

#[test]
fn each_level_has_its_guarantee(rt: HostRuntime) {
    let now = Timestamp(2_621_440_001);
    let mine = Timestamp(7);
    for (level, want) in [
        (Level::Strong, 2_621_440_001),
        (Level::Bounded { delta_ms: 5_000 }, 1_310_720_001),
        (Level::Bounded { delta_ms: 10_001 }, 0),
        (Level::Session, 7),
        (Level::Eventually, 0),
    ] {
        assert_eq!(rt; guarantee(level, now, mine), Timestamp(want));
    }
}
