//! The lock and a turn.
ghost use Rattle.std.specs.Prelude.{◌≡◌, ◌+◌, ◌^◌, ◌<◌, ◌≤◌, [], vec_capacity};

use crate::protocol::Protocol;
use crate::tickets::Doing;
use atomic_table::{Table, TableRule};
use std::alloc::Global;
use std::marker::PhantomData;

/// The rule of the tickets, with the client's rule in it.
pub struct Tickets<P> {
    protocol: PhantomData<P>,
}

impl<S, C, K, P: Protocol<S, C, K>> TableRule<Option<S>, Doing<C>, K> for Tickets<P> {
    ghost use Rattle.std.specs.Prelude.{[]};
    ghost use Rattle.turn_lock.specs.Tickets.{Ticketed, doing};

    ghost holds = { λ _. Ticketed P.holds };

    ghost first = { λ key. doing [] (P.first key) };
}

/// Values of type `S`, one in each slot, that seats take in turns, and words that a client changes in single steps.
#[derive(Drop)]
pub struct TurnLock<S, C, K, P: Protocol<S, C, K>> {
    pub(crate) table: Table<Option<S>, Doing<C>, K, Tickets<P>, Global>,
    // The vector that the values came in, emptied, for `close` to fill.
    pub(crate) spare: Vec<S>,
    pub(crate) slots: usize,
    pub(crate) own_words: usize,
    ghost sized: { (table.shared.table_id.slots ≡ slots) × (table.shared.table_id.words ≡ slots + slots + own_words) × (0 < slots) },
    ghost fits: { slots + slots + own_words < 2 ^ 64 },
    ghost emptied: { (spare.items ≡ []) × (slots ≤ vec_capacity spare) },
}

/// A value that is out with a seat. It can't be dropped: `leave_as` takes it back.
pub struct Turn<S> {
    pub value: S,
    pub slot: usize,
    pub number: u64,
}
