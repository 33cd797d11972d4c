use crate::{a_phase_tells, a_small_run, runs_are_legal, runs_are_timely, runs_go_on};

// The laws speak of seats over bases of any type.
#[test]
fn laws_hold_of_plain_bases() {
    a_small_run();
    a_phase_tells::<u64>();
    runs_go_on::<u64>();
    runs_are_legal::<u64>();
    runs_are_timely::<u64>();
}
