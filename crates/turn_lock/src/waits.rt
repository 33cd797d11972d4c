//! How a call waits: first it spins, then it yields, and then it sleeps until it is woken or a short time has passed.
ghost use Rattle.std.specs.Prelude.{◌+◌, ◌<◌};
ghost use Rattle.turn_lock.specs.Passes.{slot_count, word_count};

use crate::locks::TurnLock;
use crate::protocol::Protocol;
use std::sync::Wait;
use std::time::Duration;
use std::{hint, thread};

// Rounds of a wait that spin, and rounds after which it sleeps.
const SPINS: u64 = 64;

const YIELDS: u64 = 512;

const NAP_MILLIS: u64 = 1;

impl<S, C, K, P: Protocol<S, C, K>> TurnLock<S, C, K, P> {
    // One round of a wait for the word to be other than it was found. Returns the number of rounds.
    pub(crate) fn pause<R: Wait>(&self, rt: &R, word: usize, found: u64, rounds: u64) -> u64
        requires { word < slot_count self.now + slot_count self.now }
    {
        if rounds < SPINS {
            hint::spin_loop();
        } else if rounds < YIELDS {
            thread::yield_now();
        } else {
            let low = (found % (1 << 32)) as u32;
            self.table
                .shared
                .park_timeout(rt, word, low, Duration::from_millis(NAP_MILLIS));
        }
        rounds.saturating_add(1)
    }

    // Wakes those that wait for the slot, if a ticket from `next` on was taken.
    pub(crate) fn wake(&self, slot: usize, next: u64)
        requires { slot < slot_count self.now }
    {
        if self.table.shared.peek(slot) > next {
            self.table.shared.wake_all(self.slots + slot);
        }
    }
}
