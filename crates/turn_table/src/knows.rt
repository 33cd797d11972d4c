//! What a seat knows. No value of these types is made.
use std::collections::LinkedList;

/// A seat as it was when it was joined: its numbers, and what it had seen.
pub struct Part<N> {
    pub numbers: LinkedList<u64>,
    pub seen: LinkedList<LinkedList<N>>,
}

/// What a seat knows and has.
pub struct Know<N, B> {
    // Whether it is a seat still: one that was joined to another isn't.
    pub live: bool,
    pub number: u64,
    // Numbers for seats that are split off.
    pub spare: LinkedList<u64>,
    // Numbers of the seats that were joined to it.
    pub joined: LinkedList<u64>,
    pub allowance: u64,
    // What the next seat that is split off gets of it.
    pub gift: u64,
    pub drawn: LinkedList<u64>,
    // How many of these it had drawn when it entered the first of its turns.
    pub mark: u64,
    // The least number that was ever to be drawn, and a number that no later draw is below.
    pub first: u64,
    pub least: u64,
    pub seen: LinkedList<LinkedList<N>>,
    pub bases: LinkedList<B>,
    // The journals with which the table began.
    pub origin: LinkedList<LinkedList<N>>,
    // The slots whose turns it has.
    pub inside: LinkedList<u64>,
    // The two seats that it was at its last join.
    pub parts: LinkedList<Part<N>>,
}
