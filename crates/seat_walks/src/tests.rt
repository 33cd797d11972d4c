use crate::{
    a_table_tells_all, calls_are_steps, seats_are_joined, seats_are_split_off, seats_come_back,
    steps_add_up, steps_go_on,
};

// The laws speak of notes and bases of any type.
#[test]
fn laws_hold_of_plain_notes() {
    steps_add_up::<u64, u64>();
    steps_go_on::<u64, u64>();
    calls_are_steps::<u64, u64>();
    seats_are_split_off::<u64, u64>();
    seats_are_joined::<u64, u64>();
    seats_come_back::<u64, u64>();
    a_table_tells_all::<u64, u64>();
}
