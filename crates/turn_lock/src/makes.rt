//! How a lock begins, and how it ends.
ghost use Rattle.std.specs.Prelude.{◌≡◌, ℕ, ◌+◌, ◌^◌, ◌<◌, ◌≤◌, List, [], ◌∷◌, ◌++◌, map, length, slice_index_or, replicate, IfOk, IfErr, vec_len, vec_capacity, Some, false};
ghost use Rattle.std.specs.Slots.{slots_items, slots_filled, slots_len, IsFull};
ghost use Rattle.turn_lock.specs.Client.{all_home, AllHome, Ended};
ghost use Rattle.turn_lock.specs.Passes.{known, slot_count, word_count, IsPassOf, IsAtRest};

use crate::locks::TurnLock;
use crate::protocol::Protocol;
use crate::tickets::Pass;
use atomic_table::{Closed, Refused, Table};
use row_types::Memory;
use std::alloc::Global;

// The words of a table: two for each slot, and then the client's.
fn words_behind(alloc: Global, slots: usize, own: &[u64]) -> Result<Vec<u64>, Memory>
    ensures { IfOk result (λ row. (row.items ≡ replicate (slots + slots) 0 ++ own.now) × (slots + slots + length own.now < 2 ^ 64)) }
{
    let Some(tickets) = slots.checked_add(slots) else {
        return Err(Memory);
    };
    let mut row = Vec::from_elem(alloc, 0u64, tickets)?;
    row.extend_from_slice(own)?;
    Ok(row)
}

// Moves the values, in order, to where a table keeps them.
fn lodge<S>(values: &mut Vec<S>, slots: &mut Vec<Option<S>>)
    requires { (slots.old.items ≡ []) × (vec_len values.old ≤ vec_capacity slots.old) }
    ensures moved { slots.new.items ≡ map Some values.old.items }
    ensures emptied { (values.new.items ≡ []) × (vec_capacity values.new ≡ vec_capacity values.old) }
{
    while let Some(value) = values.pop() {
        slots.push_reserved(Some(value));
    }
    slots.as_mut_slice().reverse();
}

// Moves them back.
fn dislodge<S>(mut slots: Vec<Option<S>>, values: &mut Vec<S>)
    requires values { (xs : List S) × (slots.items ≡ map Some xs) }
    requires room { (values.old.items ≡ []) × (vec_len slots ≤ vec_capacity values.old) }
    ensures { map Some values.new.items ≡ slots.items }
{
    while let Some(slot) = slots.pop() {
        match slot {
            Some(value) => values.push_reserved(value),
            None => unreachable!(),
        }
    }
    slots.destroy_empty();
    values.as_mut_slice().reverse();
}

// Takes each value out of a table that is closed, in order.
fn take_values<S>(closed: &mut Closed<Option<S>, Global>, mut values: Vec<S>) -> Vec<S>
    requires full { IsFull closed.old.slots }
    requires values { (xs : List S) × (slots_items closed.old.slots ≡ map Some xs) }
    requires room { (values.items ≡ []) × (slots_len closed.old.slots ≤ vec_capacity values) }
    ensures values { map Some result.items ≡ slots_items closed.old.slots }
    ensures emptied { (k : ℕ) → k < slots_len closed.new.slots → slice_index_or (slots_filled closed.new.slots) k false ≡ false }
{
    for i in 0..closed.slot_count() {
        values.push_reserved(closed.take(i).unwrap());
    }
    values
}

impl<S, C, K, P: Protocol<S, C, K>> TurnLock<S, C, K, P> {
    /// Makes a lock of the values and its first seat. Where memory is wanting, the values come back.
    pub fn new(
        alloc: Global,
        mut values: Vec<S>,
        words: &[u64],
        about: &K,
    ) -> Result<(TurnLock<S, C, K, P>, Pass<S, C>), (Vec<S>, Memory)>
        requires some { 0 < length values.items }
        requires rule { P.holds words.now (all_home values.items) (P.first about.now ∷ []) }
        ensures lock { IfOk result (λ made. (slot_count made.0 ≡ length values.items) × (word_count made.0 ≡ length words.now)) }
        ensures pass { IfOk result (λ made. IsPassOf made.0 made.1 × IsAtRest made.1 × (made.1.id ≡ 0) × (known made.1 ≡ P.first about.now)) }
        ensures key { IfOk result (λ made. made.0.table.shared.key ≡ about.now) }
        ensures refused { IfErr result (λ e. e.0.items ≡ values.items) }
    {
        let count = values.len();
        let Ok(row) = words_behind(alloc, count, words) else {
            return Err((values, Memory));
        };
        let Ok(mut slots) = Vec::with_capacity(alloc, count) else {
            return Err((values, Memory));
        };
        lodge(&mut values, &mut slots);
        match Table::new(alloc, row.as_slice(), slots, about) {
            Ok((table, pass)) => {
                let lock = TurnLock {
                    table,
                    spare: values,
                    slots: count,
                    own_words: words.len(),
                };
                Ok((lock, pass))
            }
            Err(Refused { slots }) => {
                dislodge(slots, &mut values);
                Err((values, Memory))
            }
        }
    }

    /// Ends the lock, without memory. Returns the values in order, in the vector that `new` was given, and one of the client's words.
    pub fn close(self, pass: Pass<S, C>, word: usize) -> (Vec<S>, u64)
        requires lock { IsPassOf self pass × (word < word_count self) }
        requires rule { AllHome P.holds pass.id (known pass) }
        ensures count { length result.0.items ≡ slot_count self }
        ensures last { (ws : List ℕ) × Ended P.holds pass.id (known pass) ws result.0.items × (result.1 ≡ slice_index_or ws word 0) }
    {
        let TurnLock {
            table,
            spare,
            slots,
            own_words: _,
        } = self;
        let mut closed = table.close_with(pass);
        let last = closed.word(slots + slots + word);
        let values = take_values(&mut closed, spare);
        closed.free();
        (values, last)
    }
}
