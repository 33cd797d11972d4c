//! The sizes of a lock, and single steps on a word of the client's. None of them touches a ticket, and each is open to a seat in the midst of a turn.
ghost use Rattle.std.specs.Prelude.{◌≡◌, ℕ, ◌+◌, ◌%◌, ◌^◌, ◌<◌, max};
ghost use Rattle.turn_lock.specs.Client.{Moves, MovesOut};
ghost use Rattle.turn_lock.specs.Passes.{known, slot_count, word_count, IsPassOf, IsSamePass, IsStill, IsInside};

use crate::locks::{Turn, TurnLock};
use crate::plays::{Mark, Move};
use crate::protocol::{Counts, Learns, Protocol};
use crate::tickets::Pass;

impl<S, C, K, P: Protocol<S, C, K>> TurnLock<S, C, K, P> {
    /// The number of slots.
    pub fn slot_count(&self) -> usize
        ensures { result ≡ slot_count self.now }
    {
        self.slots
    }

    /// The number of the client's words.
    pub fn word_count(&self) -> usize
        ensures { result ≡ word_count self.now }
    {
        self.own_words
    }

    // Where a word of the client's lies in the table.
    fn place(&self, word: usize) -> usize
        requires { word < word_count self.now }
        ensures { (result ≡ self.now.table.shared.table_id.slots + self.now.table.shared.table_id.slots + word) × (result < self.now.table.shared.table_id.words) }
    {
        self.slots + self.slots + word
    }

    /// Adds to a word, which wraps, and returns it as it was.
    pub fn add_as<M: Learns<C>>(&self, pass: &mut Pass<S, C>, word: usize, more: u64) -> u64
        requires lock { IsPassOf self.now pass.old × (word < word_count self.now) }
        requires rule { Moves P.holds pass.old.id (known pass.old) word (λ n. (n + more) % 2 ^ 64) (M.learnt (known pass.old) more) }
        ensures pass { IsStill pass.old pass.new }
        ensures rule { M.learnt (known pass.old) more result (known pass.new) }
    {
        self.table
            .shared
            .fetch_add::<Move<M>>(pass, self.place(word), more)
    }

    /// Makes a word at least `least`, and returns it as it was.
    pub fn raise_as<M: Learns<C>>(&self, pass: &mut Pass<S, C>, word: usize, least: u64) -> u64
        requires lock { IsPassOf self.now pass.old × (word < word_count self.now) }
        requires rule { Moves P.holds pass.old.id (known pass.old) word (λ n. max n least) (M.learnt (known pass.old) least) }
        ensures pass { IsStill pass.old pass.new }
        ensures rule { M.learnt (known pass.old) least result (known pass.new) }
    {
        self.table
            .shared
            .fetch_max::<Move<M>>(pass, self.place(word), least)
    }

    /// Writes a word, and returns it as it was.
    pub fn write_as<M: Learns<C>>(&self, pass: &mut Pass<S, C>, word: usize, new: u64) -> u64
        requires lock { IsPassOf self.now pass.old × (word < word_count self.now) }
        requires rule { Moves P.holds pass.old.id (known pass.old) word (λ _. new) (M.learnt (known pass.old) new) }
        ensures pass { IsStill pass.old pass.new }
        ensures rule { M.learnt (known pass.old) new result (known pass.new) }
    {
        self.table
            .shared
            .swap::<Move<M>>(pass, self.place(word), new)
    }

    /// Reads a word. The operand changes nothing but what the seat then knows.
    pub fn read_as<M: Learns<C>>(&self, pass: &mut Pass<S, C>, word: usize, operand: u64) -> u64
        requires lock { IsPassOf self.now pass.old × (word < word_count self.now) }
        requires rule { Moves P.holds pass.old.id (known pass.old) word (λ n. n) (M.learnt (known pass.old) operand) }
        ensures pass { IsStill pass.old pass.new }
        ensures rule { M.learnt (known pass.old) operand result (known pass.new) }
    {
        // A load has no operand. An exchange of a number for itself has one.
        self.table
            .shared
            .compare_exchange::<Move<M>>(pass, self.place(word), operand, operand)
    }

    /// Adds to a word while the value of a turn is in hand, and gives the turn back as it was.
    pub fn count_as<M: Counts<S, C>>(
        &self,
        pass: &mut Pass<S, C>,
        turn: Turn<S>,
        word: usize,
        more: u64,
    ) -> Turn<S>
        requires lock { IsPassOf self.now pass.old × (word < word_count self.now) }
        requires turn { IsInside self.now pass.old turn }
        requires rule { MovesOut P.holds pass.old.id (known pass.old) turn.slot word (λ n. (n + more) % 2 ^ 64) (M.counted (known pass.old) turn.slot turn.value more) }
        ensures pass { IsStill pass.old pass.new }
        ensures turn { result ≡ turn }
        ensures rule { (found : ℕ) × M.counted (known pass.old) turn.slot turn.value more found (known pass.new) }
    {
        let Turn {
            value,
            slot,
            number,
        } = turn;
        let words = &self.table.shared;
        match words.exchange(pass, slot, Some(value)) {
            None => {}
            Some(_) => unreachable!(),
        }
        words.fetch_add::<Mark<M>>(pass, self.place(word), more);
        let value = words.exchange(pass, slot, None).unwrap();
        Turn {
            value,
            slot,
            number,
        }
    }
}
