//! A gate that holds two lines for each other.

use manu_edge::{At, Gate, Point};
use std::sync::Wait;
use std::sync::atomic::{AtomicU64, Ordering};

/// Holds a line at a point until the other line is answered, and the other at its start until the first
/// is there; each for at most 100,000,000 looks.
#[derive(Drop)]
pub struct Hold {
    line: u32,
    at: At,
    other: u32,
    held: AtomicU64,
    answered: AtomicU64,
    missed: AtomicU64,
}

impl Hold {
    /// A hold of `line` at a point, and of `other` at its start; both are numbers of input lines.
    pub fn new(line: u32, at: At, other: u32) -> Hold {
        Hold {
            line,
            at,
            other,
            held: AtomicU64::new(0),
            answered: AtomicU64::new(0),
            missed: AtomicU64::new(0),
        }
    }

    /// Whether the other line was answered while the first was held, and nobody waited in vain.
    pub fn was_kept(&self) -> bool {
        let answered = self.answered.load(Ordering::SeqCst) == 1;
        answered && self.missed.load(Ordering::SeqCst) == 0
    }

    fn wait_for(&self, word: &AtomicU64) {
        if !is_set(word) {
            self.missed.fetch_add(1, Ordering::SeqCst);
        }
    }
}

impl Gate for Hold {
    fn pass<R: Wait>(&self, _rt: &R, point: Point) {
        if point.line == self.line && point.at == self.at {
            self.held.store(1, Ordering::SeqCst);
            self.wait_for(&self.answered);
        }
        if point.line == self.other && point.at == At::Start {
            self.wait_for(&self.held);
        }
        if point.line == self.other && point.at == At::Answered {
            self.answered.store(1, Ordering::SeqCst);
        }
    }
}

fn is_set(word: &AtomicU64) -> bool {
    for _ in 0..100_000_000u32 {
        if word.load(Ordering::SeqCst) == 1 {
            return true;
        }
    }
    false
}
