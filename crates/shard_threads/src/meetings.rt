//! A gate at which two threads meet inside of their turns.

use manu_edge::{At, Gate, Point};
use std::sync::Wait;
use std::sync::atomic::{AtomicU64, Ordering};

/// Holds each thread inside of its turn until two are, but for at most 100,000,000 looks.
#[derive(Drop)]
pub struct Meeting {
    inside: AtomicU64,
    missed: AtomicU64,
}

impl Meeting {
    /// A meeting at which nobody is yet.
    pub fn new() -> Meeting {
        Meeting {
            inside: AtomicU64::new(0),
            missed: AtomicU64::new(0),
        }
    }

    /// Whether two threads came, and each saw the other.
    pub fn was_held(&self) -> bool {
        self.inside.load(Ordering::SeqCst) == 2 && self.missed.load(Ordering::SeqCst) == 0
    }
}

impl Gate for Meeting {
    fn pass<R: Wait>(&self, _rt: &R, point: Point) {
        if point.at != At::AfterEnter {
            return;
        }
        self.inside.fetch_add(1, Ordering::SeqCst);
        if !sees_two(&self.inside) {
            self.missed.fetch_add(1, Ordering::SeqCst);
        }
    }
}

fn sees_two(inside: &AtomicU64) -> bool {
    for _ in 0..100_000_000u32 {
        if inside.load(Ordering::SeqCst) >= 2 {
            return true;
        }
    }
    false
}
